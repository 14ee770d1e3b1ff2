//! Weights are compared and added as six components, and written as fewer numbers: the terms that there are, and the effort.
ghost use Rattle.std.specs.Prelude.{◌≡◌, ◌+◌, ◌<◌, ◌≤◌, ◌^◌, length, nat_lt, slice_index, if◌then◌else◌};
ghost use Rattle.wi_weight.specs.Weights.{EachBelow};
ghost use Rattle.wi_quantity.specs.Weighing.{components};
ghost use Rattle.wi_accept.specs.Answers.{padded};

use wi_quantity::Weight;
use wi_weight::{Effort, Pair, Terms};

/// The weight that is written with so many terms: those that there aren't are 0.
pub(crate) fn weight_of(terms: u32, numbers: &[u64]) -> Weight
    requires few { terms ≤ 5 }
    requires all { length numbers.now ≡ terms + 1 }
    ensures value { components result ≡ padded terms numbers.now }
    ensures small { EachBelow (2 ^ 64) (components result) }
{
    Pair {
        first: Terms {
            first: term_at(terms, numbers, 0),
            second: term_at(terms, numbers, 1),
            third: term_at(terms, numbers, 2),
            fourth: term_at(terms, numbers, 3),
            fifth: term_at(terms, numbers, 4),
        },
        second: Effort {
            count: u128::from(numbers[terms as usize]),
        },
    }
}

// The value of the term at a place.
fn term_at(terms: u32, numbers: &[u64], place: u32) -> u128
    requires { terms ≤ length numbers.now }
    ensures value { result ≡ if nat_lt place terms then slice_index numbers.now place else 0 }
    ensures small { result < 2 ^ 64 }
{
    if place < terms {
        u128::from(numbers[place as usize])
    } else {
        0
    }
}
