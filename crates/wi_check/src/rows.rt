//! Whether rows are closed: for each rule of each listed head the rows for what it writes are gone through, and the row that they
//! demand is looked up among those of the head, which stand together. A row's weight is read where it is looked at, so the rows
//! aren't copied.
ghost use Rattle.std.specs.Prelude.{◌≡◌, ◌^◌, ◌∷◌, [], map, find, option_map};
ghost use Rattle.std.specs.List.{flat_map, All};
ghost use Rattle.wi_weight.specs.Weights.{EachBelow, plus};
ghost use Rattle.wi_pds.specs.Closed.{Summary};
ghost use Rattle.wi_quantity.specs.Weighing.{components};
ghost use Rattle.wi_build.specs.Systems.{scale};
ghost use Rattle.wi_accept.specs.Causes.{rows_of};
ghost use Rattle.wi_accept.specs.Demands.{row, rows_at, demands, demands_at, is_within, is_met, is_open, weight_to};
ghost use Rattle.wi_check.specs.private.Rows.{AreRows, AreOwn, HaveTerms, summaries, demanded};

use crate::lists::{row_to, rows_at};
use crate::weights::weight_of;
use wi_cert::Row;
use wi_pds::{Rule, Word2};
use wi_quantity::Weight;
use wi_weight::Domain;

/// Rows of a certificate, with how many terms their weights have.
#[derive(Clone, Copy)]
pub(crate) struct Rows<'a> {
    pub terms: u32,
    pub rows: &'a [Row],
}

/// A row that there must be from a head to a target, of at most this weight.
#[derive(Clone, Copy)]
pub(crate) struct Demand {
    pub head: (u64, u32),
    pub target: u64,
    pub weight: Weight,
}

/// The rows of a head.
pub(crate) fn own_rows(rows: Rows<'_>, head: (u64, u32)) -> Rows<'_>
    requires { AreRows rows }
    ensures { AreOwn rows.entry head result }
{
    Rows {
        terms: rows.terms,
        rows: rows_at(rows.rows, head.0, head.1),
    }
}

/// The first row that there must be below the bound by rules of a head, and isn't: rule by rule, row by row.
pub(crate) fn open_by_rules(
    rows: Rows<'_>,
    own: Rows<'_>,
    bound: Option<Weight>,
    head: (u64, u32),
    rules: &[Rule<Weight>],
) -> Option<Demand>
    requires rows { AreRows rows }
    requires own { AreOwn rows head own }
    requires small { All (λ r. EachBelow (2 ^ 64) (components r.weight)) rules.now }
    ensures { option_map demanded result ≡ find (λ d. is_open scale (option_map components bound) (summaries rows.entry) d) (demands_at components (summaries rows.entry) head.0 head.1 rules.now) }
{
    for rule in rules {
        let found = open_by_rule(rows, own, bound, head, *rule);
        if found.is_some() {
            return found;
        }
    }
    None
}

// The first that a rule of a head demands.
fn open_by_rule(
    rows: Rows<'_>,
    own: Rows<'_>,
    bound: Option<Weight>,
    head: (u64, u32),
    rule: Rule<Weight>,
) -> Option<Demand>
    requires rows { AreRows rows }
    requires own { AreOwn rows head own }
    requires small { EachBelow (2 ^ 64) (components rule.weight) }
    ensures { option_map demanded result ≡ find (λ d. is_open scale (option_map components bound) (summaries rows.entry) d) (demands (summaries rows.entry) head.0 head.1 (components rule.weight) rule.to rule.word) }
{
    match rule.word {
        Word2::Empty => open_demand(own, bound, head, rule.to, rule.weight),
        Word2::One(u) => {
            let parts = rows_at(rows.rows, rule.to, u);
            open_after(own, bound, head, rule.weight, parts)
        }
        Word2::Two(u, v) => {
            let parts = rows_at(rows.rows, rule.to, u);
            open_after_two(rows, own, bound, head, rule.weight, parts, v)
        }
    }
}

// What a weight so far and two parts one after the other demand, the first of them one of these.
fn open_after_two(
    rows: Rows<'_>,
    own: Rows<'_>,
    bound: Option<Weight>,
    head: (u64, u32),
    weight: Weight,
    parts: &[Row],
    v: u32,
) -> Option<Demand>
    requires rows { AreRows rows }
    requires own { AreOwn rows head own }
    requires small { EachBelow (2 ^ 64) (components weight) }
    requires parts { HaveTerms rows.terms parts.now }
    ensures { option_map demanded result ≡ find (λ d. is_open scale (option_map components bound) (summaries rows.entry) d) (flat_map (λ r. map (λ s. row head.0 head.1 s.q (plus (plus (components weight) r.weight) s.weight)) (rows_at (summaries rows.entry) r.q v)) (rows_of rows.entry.terms parts.now)) }
{
    for part in parts {
        let half = weight.extend(weight_of(rows.terms, part.weight.as_slice()));
        let others = rows_at(rows.rows, part.q, v);
        let found = open_after(own, bound, head, half, others);
        if found.is_some() {
            return found;
        }
    }
    None
}

// What a weight so far and one of some parts demand.
fn open_after(
    rows: Rows<'_>,
    bound: Option<Weight>,
    head: (u64, u32),
    weight: Weight,
    parts: &[Row],
) -> Option<Demand>
    requires rows { AreRows rows }
    requires small { EachBelow (2 ^ 65) (components weight) }
    requires parts { HaveTerms rows.terms parts.now }
    ensures { option_map demanded result ≡ find (λ d. is_open scale (option_map components bound) (summaries rows.entry) d) (map (λ r. row head.0 head.1 r.q (plus (components weight) r.weight)) (rows_of rows.entry.terms parts.now)) }
{
    for part in parts {
        let sum = weight.extend(weight_of(rows.terms, part.weight.as_slice()));
        let found = open_demand(rows, bound, head, part.q, sum);
        if found.is_some() {
            return found;
        }
    }
    None
}

// A demand, where it is below the bound and no row meets it.
fn open_demand(
    rows: Rows<'_>,
    bound: Option<Weight>,
    head: (u64, u32),
    target: u64,
    weight: Weight,
) -> Option<Demand>
    requires { AreRows rows }
    ensures { option_map demanded result ≡ find (λ d. is_open scale (option_map components bound) (summaries rows.entry) d) (row head.0 head.1 target (components weight) ∷ []) }
{
    if is_within(bound, weight) && !is_met(rows, head, target, weight) {
        Some(Demand {
            head,
            target,
            weight,
        })
    } else {
        None
    }
}

// Whether a weight is below the bound, if there is one.
fn is_within(bound: Option<Weight>, weight: Weight) -> bool
    ensures { result ≡ is_within scale (option_map components bound) (components weight) }
{
    match bound {
        None => true,
        Some(bound) => weight.compare(&bound).is_lt(),
    }
}

// Whether there is such a row, of at most this weight.
fn is_met(rows: Rows<'_>, head: (u64, u32), target: u64, weight: Weight) -> bool
    requires { AreRows rows }
    ensures { result ≡ is_met scale (summaries rows.entry) (row head.0 head.1 target (components weight)) }
{
    match weight_to(rows, head, target) {
        Some(found) => found.compare(&weight).is_le(),
        None => false,
    }
}

/// What the row from a head to a target weighs, if there is one.
pub(crate) fn weight_to(rows: Rows<'_>, head: (u64, u32), target: u64) -> Option<Weight>
    requires { AreRows rows }
    ensures { option_map components result ≡ weight_to (summaries rows.entry) head.0 head.1 target }
{
    let row = row_to(rows.rows, head.0, head.1, target)?;
    Some(weight_of(rows.terms, row.weight.as_slice()))
}
