//! Weights by example, and generic code that uses the laws.
ghost use Rattle.std.specs.Prelude.{◌≡◌, ◌<◌, ◌^◌, ◌≢◌, slice_index};
ghost use Rattle.std.specs.declared.cmp.Ordering.TheVariants.{Greater};
ghost use Rattle.wi_weight.specs.Weights.{EachBelow};

use crate::common::equal;
use std::cmp::Ordering;
use std::process::Abort;
use wi_weight::{Domain, Effort, Pair, Reach, Terms};

// 2^64 - 1
const GREATEST: u128 = 18_446_744_073_709_551_615;

// How the first part of a sum compares with the sum: it is never greater.
fn compare_with_sum<W: Domain>(first: W, next: W) -> Ordering
    requires first { EachBelow (2 ^ 120) (W.components first) }
    requires next { EachBelow (2 ^ 120) (W.components next) }
    ensures { result ≢ Greater }
{
    first.compare(&first.extend(next))
}

// How two weights compare once a third was added to both: as they compare themselves.
fn compare_sums<W: Domain>(one: W, other: W, added: W) -> Ordering
    requires one { EachBelow (2 ^ 120) (W.components one) }
    requires other { EachBelow (2 ^ 120) (W.components other) }
    requires added { EachBelow (2 ^ 120) (W.components added) }
    ensures { result ≡ W.scale.order (W.components one) (W.components other) }
{
    one.extend(added).compare(&other.extend(added))
}

fn pair(parts: [u128; 5], count: u128) -> Pair<Terms, Effort>
    ensures first { result.first ≡ record { first = slice_index parts 0; second = slice_index parts 1; third = slice_index parts 2; fourth = slice_index parts 3; fifth = slice_index parts 4 } }
    ensures second { result.second.count ≡ count }
{
    Pair {
        first: Terms::of(parts),
        second: Effort { count },
    }
}

#[test]
fn reach_has_one_weight(rt: HostRuntime) {
    equal(&rt, Reach::unit(), Reach);
    equal(&rt, Reach.extend(Reach), Reach);
    equal(&rt, Reach.compare(&Reach), Ordering::Equal);
    equal(&rt, Reach.fits(), true);
}

fn effort(count: u128) -> Effort
    ensures { result.count ≡ count }
{
    Effort { count }
}

#[test]
fn effort_is_one_number(rt: HostRuntime) {
    let (greatest, over) = (effort(GREATEST), effort(18_446_744_073_709_551_616));
    equal(&rt, Effort::unit(), effort(0));
    equal(&rt, greatest.extend(effort(1)), over);
    equal(&rt, (greatest.fits(), over.fits()), (true, false));
    equal(&rt, greatest.compare(&over), Ordering::Less);
    equal(&rt, over.compare(&over), Ordering::Equal);
    equal(&rt, over.compare(&greatest), Ordering::Greater);
}

// Terms, other terms, and how they compare.
const TERMS: &[([u128; 5], [u128; 5], Ordering)] = &[
    ([1, 2, 3, 4, 5], [1, 2, 3, 4, 6], Ordering::Less),
    ([1, 2, 3, 4, 6], [1, 2, 3, 4, 5], Ordering::Greater),
    ([1, 2, 3, 4, 5], [1, 2, 3, 4, 5], Ordering::Equal),
    ([1, 9, 9, 9, 9], [2, 0, 0, 0, 0], Ordering::Less),
    ([0, 0, 0, 1, 0], [0, 0, 0, 0, 9], Ordering::Greater),
];

#[test]
fn terms_are_compared_in_order(rt: HostRuntime) {
    for (one, other, order) in TERMS {
        let found = Terms::of(*one).compare(&Terms::of(*other));
        equal(&rt, found, *order);
    }
}

const SMALL: [u128; 5] = [1, 2, 3, 4, 5];

const LARGE: [u128; 5] = [10, 20, 30, 40, GREATEST];

const SUM: [u128; 5] = [11, 22, 33, 44, 18_446_744_073_709_551_620];

#[test]
fn terms_are_five_numbers(rt: HostRuntime) {
    equal(&rt, Terms::unit().parts(), [0; 5]);
    let sum = Terms::of(SMALL).extend(Terms::of(LARGE));
    equal(&rt, sum.parts(), SUM);
}

// Both parts of a pair, those of another, and how they compare.
const PAIRS: &[((u128, u128), (u128, u128), Ordering)] = &[
    ((1, 9), (2, 0), Ordering::Less),
    ((2, 0), (1, 9), Ordering::Greater),
    ((1, 0), (1, 9), Ordering::Less),
    ((1, 9), (1, 0), Ordering::Greater),
    ((1, 9), (1, 9), Ordering::Equal),
];

fn efforts(parts: (u128, u128)) -> Pair<Effort, Effort> {
    Pair {
        first: effort(parts.0),
        second: effort(parts.1),
    }
}

#[test]
fn the_first_part_of_a_pair_decides_first(rt: HostRuntime) {
    for (one, other, order) in PAIRS {
        let found = efforts(*one).compare(&efforts(*other));
        equal(&rt, found, *order);
    }
}

#[test]
fn both_parts_of_a_pair_are_added(rt: HostRuntime) {
    equal(&rt, Pair::<Terms, Effort>::unit(), pair([0; 5], 0));
    let sum = pair([1, 2, 3, 4, 5], 6).extend(pair([10, 20, 30, 40, 50], 60));
    equal(&rt, sum, pair([11, 22, 33, 44, 55], 66));
}

// Terms that are 0 but for one.
fn alone(place: usize, component: u128) -> [u128; 5]
    requires { place < 5 }
{
    let mut parts = [0; 5];
    parts[place] = component;
    parts
}

fn each_place_fits(rt: &impl Abort, component: u128, fits: bool) {
    equal(rt, effort(component).fits(), fits);
    for place in 0..5 {
        let parts = alone(place, component);
        let found = (Terms::of(parts).fits(), pair(parts, 0).fits());
        equal(rt, found, (fits, fits));
    }
    equal(rt, pair([0; 5], component).fits(), fits);
}

#[test]
fn components_fit_up_to_the_greatest(rt: HostRuntime) {
    each_place_fits(&rt, GREATEST, true);
    each_place_fits(&rt, GREATEST + 1, false);
}

#[test]
fn generic_code_uses_the_laws(rt: HostRuntime) {
    let one = pair([1, 0, 0, 0, 0], 9);
    let other = pair([1, 0, 0, 0, 1], 0);
    let added = pair([0, 7, 0, 0, 3], 4);
    equal(&rt, compare_with_sum(one, added), Ordering::Less);
    let same = compare_with_sum(one, Domain::unit());
    equal(&rt, same, Ordering::Equal);
    equal(&rt, compare_sums(one, other, added), Ordering::Less);
    equal(&rt, compare_sums(other, one, added), Ordering::Greater);
    equal(&rt, compare_sums(one, one, added), Ordering::Equal);
}
