//! What the search found, written down for a checker: heads and pairs are moved, since they rise already; of the table's rows those
//! that weigh less than the goal are written as plain numbers, and sorted once.
ghost use Rattle.std.specs.Prelude.{◌≡◌, ◌^◌, ◌≤◌, [], IfOk, IfSome};
ghost use Rattle.std.specs.List.{All};
ghost use Rattle.std.specs.List.Sorted.{IsPermutation, IsSortedBy, IsStrictlySortedBy};
ghost use Rattle.std.specs.Option.{option_map_or};
ghost use Rattle.wi_weight.specs.Weights.{EachBelow};
ghost use Rattle.wi_quantity.specs.Weighing.{components};
ghost use Rattle.wi_pds.specs.Pairs.{pair_cmp};
ghost use Rattle.wi_cert.specs.Order.{row_below};
ghost use Rattle.wi_decide.specs.Showing.{shown_weight, claim_for, first_numbers, step_numbers, dropped_at, dropped_by, shown_by, IsSmallStep, IsSmallEnd, IsSmallRun};
ghost use Rattle.wi_decide.specs.private.Certificates.{row_by, is_below, rows_below, IsFitting};

use std::alloc::Global;
use wi_base::{Listed, NoMemory};
use wi_build::Problem;
use wi_cert::{Claim, Closed, Dropped, Numbers, Row, Shown};
use wi_labels::Header;
use wi_net::LinkId;
use wi_pds::Heads;
use wi_quantity::Weight;
use wi_saturate::Table;
use wi_trace::Answer;
use wi_weight::Domain;
use wi_world::{End, Run, Step, Word};

/// The answer to a problem as a certificate shows it; the components of its weight are at most 2^64 - 1.
pub fn shown_of(alloc: Global, problem: &Problem<'_>, answer: &Answer) -> Result<Shown, NoMemory>
    requires fits { IfSome answer.now.weight (λ w. EachBelow (2 ^ 64) (components w)) }
    requires numbers { IfSome answer.now.run IsSmallRun }
    ensures { IfOk result (λ shown. shown ≡ shown_by problem.now answer.now) }
{
    problem.keeps();
    let terms = problem.terms() as u32;
    let weight = weight_of(alloc, terms, &answer.weight)?;
    let first = first_of(alloc, &answer.run)?;
    let steps = steps_of(alloc, &answer.run)?;
    Ok(Shown {
        terms,
        claim: claim_for(answer.word),
        weight: Listed::of(weight),
        first: Listed::of(first),
        steps: Listed::of(steps),
        dropped: dropped_by(problem.query().drops, &answer.run),
    })
}

/// The heads and the pairs, and the rows of the table that weigh less than its goal, with so many terms in their weights. Where
/// there is no goal, all rows are.
pub(crate) fn closed_of(
    alloc: Global,
    terms: u32,
    heads: Heads,
    table: &Table<Weight>,
) -> Result<Closed, NoMemory>
    requires few { terms ≤ 5 }
    requires fits { All IsFitting table.now.rows }
    ensures heads { IfOk result (λ closed. closed.heads ≡ heads.heads) }
    ensures pairs { IfOk result (λ closed. closed.pairs ≡ heads.pairs) }
    ensures heads_rise { IsStrictlySortedBy pair_cmp heads.heads }
    ensures pairs_rise { IsStrictlySortedBy pair_cmp heads.pairs }
    ensures rows { IfOk result (λ closed. IsPermutation (rows_below terms table.now) closed.rows) }
    ensures sorted { IfOk result (λ closed. IsSortedBy row_below closed.rows) }
{
    let Heads { heads, pairs } = heads;
    let rows = sorted_rows(alloc, terms, table)?;
    Ok(Closed {
        heads,
        pairs,
        rows: Listed::of(rows),
    })
}

fn claim_for(word: Word) -> Claim
    ensures { result ≡ claim_for word }
{
    match word {
        Word::Yes => Claim::Yes,
        Word::No => Claim::No,
        Word::Inconclusive => Claim::Inconclusive,
    }
}

// The first terms of a weight that fits, and its effort.
fn numbers_of(terms: u32, weight: &Weight) -> Numbers
    requires few { terms ≤ 5 }
    requires fits { EachBelow (2 ^ 64) (components weight.now) }
    ensures { result ≡ shown_weight terms weight.now }
{
    let effort = weight.second.count as u64;
    let mut numbers = [
        weight.first.first as u64,
        weight.first.second as u64,
        weight.first.third as u64,
        weight.first.fourth as u64,
        weight.first.fifth as u64,
        effort,
    ];
    // The effort comes right after the terms that are shown.
    let count = terms as usize;
    numbers[count] = effort;
    Numbers::of(&numbers[..count + 1])
}

fn weight_of(alloc: Global, terms: u32, weight: &Option<Weight>) -> Result<Vec<u64>, NoMemory>
    requires few { terms ≤ 5 }
    requires fits { IfSome weight.now (λ w. EachBelow (2 ^ 64) (components w)) }
    ensures { IfOk result (λ numbers. numbers.items ≡ option_map_or (λ w. shown_weight terms w) weight.now []) }
{
    match weight {
        Some(weight) => Ok(Vec::from_slice(alloc, numbers_of(terms, weight).as_slice())?),
        None => Ok(Vec::new(alloc)),
    }
}

fn first_of(alloc: Global, run: &Option<Run>) -> Result<Vec<u32>, NoMemory>
    ensures { IfOk result (λ numbers. numbers.items ≡ option_map_or (λ r. first_numbers r.first r.header) run.now []) }
{
    match run {
        Some(run) => first_numbers(alloc, run.first, &run.header),
        None => Ok(Vec::new(alloc)),
    }
}

// A first link's number, and those of the labels there, top first.
fn first_numbers(alloc: Global, first: LinkId, header: &Header) -> Result<Vec<u32>, NoMemory>
    ensures { IfOk result (λ numbers. numbers.items ≡ first_numbers first header.now) }
{
    let mut numbers = Vec::new(alloc);
    numbers.push(first.0)?;
    for i in 0..header.len() {
        let Some((label, _)) = header.at(i) else {
            return Ok(numbers);
        };
        numbers.push(label.0)?;
    }
    Ok(numbers)
}

fn steps_of(alloc: Global, run: &Option<Run>) -> Result<Vec<(u32, u32)>, NoMemory>
    requires { IfSome run.now IsSmallRun }
    ensures { IfOk result (λ pairs. pairs.items ≡ option_map_or (λ r. step_numbers r.steps) run.now []) }
{
    match run {
        Some(run) => step_numbers(alloc, run.steps.as_slice()),
        None => Ok(Vec::new(alloc)),
    }
}

// Groups and members, counted from 1.
fn step_numbers(alloc: Global, steps: &[Step]) -> Result<Vec<(u32, u32)>, NoMemory>
    requires { All IsSmallStep steps.now }
    ensures { IfOk result (λ pairs. pairs.items ≡ step_numbers steps.now) }
{
    let mut pairs = Vec::new(alloc);
    for step in steps {
        pairs.push((step.group + 1, step.member + 1))?;
    }
    Ok(pairs)
}

// How the packet of a run is dropped, where this is asked for.
fn dropped_by(drops: bool, run: &Option<Run>) -> Option<Dropped>
    requires { IfSome run.now IsSmallRun }
    ensures { result ≡ dropped_by drops run.now }
{
    if !drops {
        return None;
    }
    match run {
        Some(run) => Some(dropped_at(run.end)),
        None => Some(Dropped::Nowhere),
    }
}

fn dropped_at(end: End) -> Dropped
    requires { IsSmallEnd end }
    ensures { result ≡ dropped_at end }
{
    match end {
        End::Arrives => Dropped::Nowhere,
        End::Inactive => Dropped::Inactive,
        End::Undefined(step) => Dropped::Undefined(step.group + 1, step.member + 1),
    }
}

// The rows of a table that weigh less than its goal, by spot, symbol and target.
fn sorted_rows(alloc: Global, terms: u32, table: &Table<Weight>) -> Result<Vec<Row>, NoMemory>
    requires few { terms ≤ 5 }
    requires fits { All IsFitting table.now.rows }
    ensures rows { IfOk result (λ rows. IsPermutation (rows_below terms table.now) rows.items) }
    ensures sorted { IfOk result (λ rows. IsSortedBy row_below rows.items) }
{
    let mut rows = rows_below(alloc, terms, table)?;
    rows.shrink_to_fit();
    rows.sort_unstable_by_key(|row| (row.p, row.g, row.q));
    Ok(rows)
}

// The rows of a table that weigh less than its goal, as it has them.
fn rows_below(alloc: Global, terms: u32, table: &Table<Weight>) -> Result<Vec<Row>, NoMemory>
    requires few { terms ≤ 5 }
    requires fits { All IsFitting table.now.rows }
    ensures { IfOk result (λ rows. rows.items ≡ rows_below terms table.now) }
{
    let best = table.best();
    let mut rows = Vec::new(alloc);
    for row in table.rows() {
        if is_below(best, &row.weight) {
            rows.push(row_by(terms, row))?;
        }
    }
    Ok(rows)
}

// Whether a weight is less than the goal's, if there is one.
fn is_below(best: Option<Weight>, weight: &Weight) -> bool
    ensures { result ≡ is_below best weight.now }
{
    match best {
        Some(best) => weight.compare(&best).is_lt(),
        None => true,
    }
}

fn row_by(terms: u32, row: &wi_saturate::Row<Weight>) -> Row
    requires few { terms ≤ 5 }
    requires fits { IsFitting row.now }
    ensures { result ≡ row_by terms row.now }
{
    Row {
        p: row.p,
        g: row.g,
        q: row.q,
        weight: numbers_of(terms, &row.weight),
    }
}
