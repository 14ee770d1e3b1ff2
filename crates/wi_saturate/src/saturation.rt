//! A sum weighs no less than its parts, so nothing that is made later is lighter than what was settled, and each row is least.
//! So the search may end at the goal's row, at the cut, or at the first weight that doesn't fit. It keeps all rules of listed
//! heads, all rows, what waits and the candidates that weren't taken.
ghost use Rattle.std.specs.Prelude.{◌≡◌, ℕ, [], ◌+◌, ◌<◌, ◌≤◌, true, false, IsSomeAnd, IfOk, IfErr, option_map, length};
ghost use Rattle.std.specs.List.{Contains};
ghost use Rattle.wi_weight.specs.Weights.{AtMost};
ghost use Rattle.wi_pds.specs.Closed.{AreClosed, Within};
ghost use Rattle.wi_saturate.specs.Rows.{IsFor};
ghost use Rattle.wi_saturate.specs.LeastTables.{AreReady, IsLeastTable};
ghost use Rattle.wi_saturate.specs.Tries.{candidates};
ghost use Rattle.wi_saturate.specs.private.Tries.{all_ways};
ghost use Rattle.wi_saturate.specs.private.Searches.{IsSearch};
ghost use Rattle.wi_saturate.specs.private.Questions.{IsAsked};
ghost use Rattle.wi_saturate.specs.Refusals.{IsRefusal};

use crate::index::Index;
use crate::refused::{LeastRefused, Overflow};
use crate::row::Row;
use crate::search::Search;
use crate::steps::Steps;
use crate::table::Table;
use crate::turn::Turn;
use std::alloc::Global;
use std::cmp::Ordering;
use std::marker::Brand;
use std::sync::ledger::{Blank, Ledger};
use wi_pds::{Heads, System};
use wi_weight::Domain;

// Whether the weight is not below the cut.
fn is_cut<W: Domain>(cut: Option<W>, weight: W) -> bool
    ensures below { result ≡ false → Within W.scale (option_map W.components cut) (W.components weight) }
    ensures above { result ≡ true → IsSomeAnd cut (λ k. AtMost W.scale (W.components k) (W.components weight)) }
{
    match cut {
        None => false,
        Some(cut) => match weight.compare(&cut) {
            Ordering::Less => false,
            _ => true,
        },
    }
}

// Whether the row is for the summary.
fn is_for<W>(row: &Row<W>, goal: (u64, u32, u64)) -> bool
    ensures is { result ≡ true → IsFor goal.0 goal.1 goal.2 row.now }
    ensures other { result ≡ false → IsFor goal.0 goal.1 goal.2 row.now → ⊥ }
{
    row.p == goal.0 && row.g == goal.1 && row.q == goal.2
}

// What is asked: the rules of listed heads, a goal and a cut.
#[derive(Drop)]
pub(crate) struct Question<'a, W> {
    pub(crate) index: &'a Index<'a, W>,
    pub(crate) goal: (u64, u32, u64),
    pub(crate) cut: Option<W>,
}

// Settles one row after the other, from none on.
fn settle<W: Domain, S: System<W>, L: Ledger, M: Ledger>(
    alloc: Global,
    sys: &S,
    asked: &Question<'_, W>,
    search: &mut Search<W>,
    steps: &mut Steps<L>,
    tries: &mut Steps<M>,
) -> Result<Table<W>, LeastRefused<W>>
    requires asked { IsAsked W.components (S.rules sys.now) asked.now }
    requires search { IsSearch W.scale W.components asked.now.index.now.rules.heads asked.now.index.now.rules.items [] [] search.old }
    ensures table { IfOk result (λ t. IsLeastTable W.scale W.components (S.rules sys.now) asked.now.index.now.rules.heads asked.now.goal (option_map W.components asked.now.cut) t.rows (option_map W.components t.best)) }
    ensures steps { IfOk result (λ t. steps.new ≡ steps.old + length t.rows) }
    ensures tried { IfOk result (λ t. tries.old + length t.rows ≤ tries.new + length search.old.frontier.heap) }
    ensures tries { IfOk result (λ t. tries.new + all_ways asked.now.index.now.rules.items [] ≤ tries.old + all_ways asked.now.index.now.rules.items t.rows) }
    ensures refusal { IfErr result (IsRefusal W.scale W.components (S.rules sys.now) asked.now.index.now.rules.heads asked.now.goal (option_map W.components asked.now.cut)) }
{
    let mut rows: Vec<Row<W>> = Vec::new(alloc);
    'turns: loop {
        let Some((place, next)) = search.next_row(sys, asked.index, &rows) else {
            return Ok(Table { rows, best: None });
        };
        if is_cut(asked.cut, next.weight) {
            return Ok(Table { rows, best: None });
        }
        if !next.weight.fits() {
            return Err(LeastRefused::Overflow(Overflow {
                head: (next.p, next.g),
                target: next.q,
                weight: next.weight,
            }));
        }
        rows.push(next)?;
        steps.tick();
        if is_for(&next, asked.goal) {
            return Ok(Table {
                rows,
                best: Some(next.weight),
            });
        }
        let last = rows.len() - 1;
        let turn = Turn {
            index: asked.index,
            rows: &rows,
            last,
            place,
        };
        search.extend(&turn, tries)?;
    }
}

// The same, by a search of its own.
fn table_of<W: Domain, S: System<W>, L: Ledger, M: Ledger>(
    alloc: Global,
    sys: &S,
    asked: &Question<'_, W>,
    steps: &mut Steps<L>,
    tries: &mut Steps<M>,
) -> Result<Table<W>, LeastRefused<W>>
    requires asked { IsAsked W.components (S.rules sys.now) asked.now }
    ensures table { IfOk result (λ t. IsLeastTable W.scale W.components (S.rules sys.now) asked.now.index.now.rules.heads asked.now.goal (option_map W.components asked.now.cut) t.rows (option_map W.components t.best)) }
    ensures steps { IfOk result (λ t. steps.new ≡ steps.old + length t.rows) }
    ensures tried { IfOk result (λ t. tries.old + length t.rows ≤ tries.new) }
    ensures tries { IfOk result (λ t. tries.new ≤ tries.old + candidates (S.rules sys.now) asked.now.index.now.rules.heads t.rows) }
    ensures refusal { IfErr result (IsRefusal W.scale W.components (S.rules sys.now) asked.now.index.now.rules.heads asked.now.goal (option_map W.components asked.now.cut)) }
{
    let mut search = Search::new(alloc, &asked.index.rules, tries)?;
    let table = settle(alloc, sys, asked, &mut search, steps, tries);
    drop(search);
    table
}

/// The least summaries of listed heads that are lighter than the goal and below the cut, and, where the goal is below the cut,
/// the goal's row as the last. Rows that weigh as much as the goal may stand before it. The goal is a state, a symbol and a
/// state.
///
/// Each turn settles a lightest row that a rule and settled rows make; which of several lightest rows comes first is not said. What a
/// rule makes of rows is found once, when the last of these rows is settled. It is put on a heap, if it is lighter than each that
/// went there for its summary; the lightest of the heap is settled next.
/// The system is asked for the rules of each head once.
///
/// What it costs: each listed head is asked for its rules once, before the first turn. Each candidate is looked up once by its
/// summary, and pushed and taken at most once, at the logarithm of the heap's length. The place of a head among the heads is
/// looked up for each rule and each rule that begins to wait, at the logarithm of the number of heads where a guess at it fails.
/// Whether a summary is settled is looked for along the rows of its head. Each rule is kept as two numbers, and what it does
/// mostly once for many rules; besides, each row, each candidate that wasn't taken, a number for each summary that was reached and
/// for each rule that waits, and their weights, of which those that were noted one after the other and are equal are kept once.
///
/// `Overflow` tells the lightest summary that doesn't fit and would have been settled. It may come where the goal's own
/// weight would fit.
pub fn least<W: Domain, S: System<W>>(
    alloc: Global,
    sys: &S,
    heads: &Heads,
    goal: (u64, u32, u64),
    cut: Option<W>,
) -> Result<Table<W>, LeastRefused<W>>
    requires closed { AreClosed (S.rules sys.now) (S.start_head sys.now) heads.now.heads heads.now.pairs }
    requires ready { AreReady W.components (S.rules sys.now) heads.now.heads }
    requires start { S.start_head sys.now ≡ (goal.0, goal.1) }
    requires asked { (p g : ℕ) → Contains heads.now.heads (p, g) → S.may_ask sys.now p g }
    ensures table { IfOk result (λ t. IsLeastTable W.scale W.components (S.rules sys.now) heads.now.heads goal (option_map W.components cut) t.rows (option_map W.components t.best)) }
    ensures refusal { IfErr result (IsRefusal W.scale W.components (S.rules sys.now) heads.now.heads goal (option_map W.components cut)) }
{
    uncounted::<W, S, Brand, Brand>(alloc, sys, heads, goal, cut, Blank::new(1), Blank::new(1))
}

// The same, by ledgers that nobody reads.
fn uncounted<W: Domain, S: System<W>, L: Ledger, M: Ledger>(
    alloc: Global,
    sys: &S,
    heads: &Heads,
    goal: (u64, u32, u64),
    cut: Option<W>,
    blank: Blank,
    other: Blank,
) -> Result<Table<W>, LeastRefused<W>>
    requires name { blank.name ≡ L.name }
    requires parts { blank.parts ≡ L.parts }
    requires some { 0 < blank.parts }
    requires other_name { other.name ≡ M.name }
    requires other_parts { other.parts ≡ M.parts }
    requires other_some { 0 < other.parts }
    requires closed { AreClosed (S.rules sys.now) (S.start_head sys.now) heads.now.heads heads.now.pairs }
    requires ready { AreReady W.components (S.rules sys.now) heads.now.heads }
    requires start { S.start_head sys.now ≡ (goal.0, goal.1) }
    requires asked { (p g : ℕ) → Contains heads.now.heads (p, g) → S.may_ask sys.now p g }
    ensures table { IfOk result (λ t. IsLeastTable W.scale W.components (S.rules sys.now) heads.now.heads goal (option_map W.components cut) t.rows (option_map W.components t.best)) }
    ensures refusal { IfErr result (IsRefusal W.scale W.components (S.rules sys.now) heads.now.heads goal (option_map W.components cut)) }
{
    let mut steps = Steps::<L>::open(blank);
    let mut tries = Steps::<M>::open(other);
    least_counted(alloc, sys, heads, goal, cut, &mut steps, &mut tries)
}

/// The same, counted: each turn adds one to `steps`, and each candidate that is put on the heap one to `tries`. Where the call is
/// refused, both may have risen.
pub fn least_counted<W: Domain, S: System<W>, L: Ledger, M: Ledger>(
    alloc: Global,
    sys: &S,
    heads: &Heads,
    goal: (u64, u32, u64),
    cut: Option<W>,
    steps: &mut Steps<L>,
    tries: &mut Steps<M>,
) -> Result<Table<W>, LeastRefused<W>>
    requires closed { AreClosed (S.rules sys.now) (S.start_head sys.now) heads.now.heads heads.now.pairs }
    requires ready { AreReady W.components (S.rules sys.now) heads.now.heads }
    requires start { S.start_head sys.now ≡ (goal.0, goal.1) }
    requires asked { (p g : ℕ) → Contains heads.now.heads (p, g) → S.may_ask sys.now p g }
    ensures table { IfOk result (λ t. IsLeastTable W.scale W.components (S.rules sys.now) heads.now.heads goal (option_map W.components cut) t.rows (option_map W.components t.best)) }
    ensures steps { IfOk result (λ t. steps.new ≡ steps.old + length t.rows) }
    ensures tried { IfOk result (λ t. tries.old + length t.rows ≤ tries.new) }
    ensures tries { IfOk result (λ t. tries.new ≤ tries.old + candidates (S.rules sys.now) heads.now.heads t.rows) }
    ensures refusal { IfErr result (IsRefusal W.scale W.components (S.rules sys.now) heads.now.heads goal (option_map W.components cut)) }
{
    let index = Index::new(alloc, sys, heads)?;
    let asked = Question {
        index: &index,
        goal,
        cut,
    };
    let table = table_of(alloc, sys, &asked, steps, tries);
    drop(index);
    table
}
