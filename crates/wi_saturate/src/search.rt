//! Whether a summary is settled is asked when a candidate is taken and not when it is offered, since only then all lighter rows
//! are there. So a heavier way to a summary stays on the heap until then, where a lighter one came later, and is left out. A
//! summary is looked for along the rows of its head.
ghost use Rattle.std.specs.Prelude.{◌≡◌, option_map, ◌+◌, ◌<◌, ◌≤◌, take, ◌++◌, ◌∷◌, ℕ, List, [], OnOk, IfOk, IfSome, IsTrue, ◌↔◌, Some, slice_get, length};
ghost use Rattle.wi_saturate.specs.declared.row.Row.{Row};
ghost use Rattle.wi_saturate.specs.declared.rules.Ruled.{Ruled};
ghost use Rattle.wi_saturate.specs.private.Candidates.{IsCandidate, IsSeen};
ghost use Rattle.wi_saturate.specs.private.Indexes.{IsIndex};
ghost use Rattle.wi_saturate.specs.private.Tries.{pop_ways, all_ways};
ghost use Rattle.wi_saturate.specs.private.Searches.{Adds, Begins, IsSound, IsRowOf, IsSearch, IsBehind, HasPops, EndsThere};
ghost use Rattle.wi_saturate.specs.private.Turns.{heads_of, rules_of, rows_of, IsTurn};

use crate::chains::Chains;
use crate::frontier::Frontier;
use crate::heap::Candidate;
use crate::index::Index;
use crate::joins::{begin_waits, end_waits, push_ones};
use crate::lightest::Lightest;
use crate::row::Row;
use crate::rules::Rules;
use crate::steps::Steps;
use crate::turn::Turn;
use crate::waits::Waits;
use std::alloc::Global;
use std::sync::ledger::Ledger;
use wi_base::NoMemory;
use wi_pds::{RuleId, System, Word2};
use wi_weight::Domain;

// Where a search stands: the candidates, the rows at the places of their heads, what waits for further rows, and the lightest of
// what waits for the same.
#[derive(Drop)]
pub(crate) struct Search<W: Domain> {
    pub(crate) frontier: Frontier<W>,
    pub(crate) rows: Chains,
    pub(crate) waits: Waits,
    pub(crate) halves: Lightest<W>,
}

// What the candidate makes.
fn row_of<W: Domain>(rules: &Rules<'_, W>, candidate: Candidate<W>) -> Row<W>
    requires { (f : Ruled W) × (slice_get rules.now.items candidate.rule ≡ Some f) × (f.head < length rules.now.heads) }
    ensures { (rows : List (Row W)) → IsSound W.components rules.now.items rows candidate → IsRowOf W.scale W.components rules.now.heads rules.now.items rows candidate result }
{
    let ruled = rules.get(candidate.rule);
    let (p, g) = rules.heads()[ruled.head];
    let draft = Row {
        p,
        g,
        q: candidate.q,
        weight: candidate.weight,
        id: RuleId { p, g, at: ruled.at },
        rule: ruled.rule,
        left: None,
        right: None,
    };
    match ruled.rule.word {
        Word2::Empty => draft,
        Word2::One(_) => Row {
            left: Some(candidate.left),
            ..draft
        },
        Word2::Two(_, _) => Row {
            left: Some(candidate.left),
            right: Some(candidate.right),
            ..draft
        },
    }
}

// Whether there is a row at the place that ends in the state `q`.
fn is_settled<W>(rows: &[Row<W>], places: &Chains, place: usize, q: u64) -> bool
    requires count { length places.now.places ≡ length rows.now }
    requires within { place < places.now.count }
    ensures { IsTrue result ↔ EndsThere rows.now places.now.places place q }
{
    let mut end = places.end(place);
    while 0 < end {
        let i = end - 1;
        if rows[i].q == q {
            return true;
        }
        end = places.end_before(i);
    }
    false
}

// The candidate of the rule at a place, if it takes its symbol off.
fn push_if_pop<W: Domain, M: Ledger>(
    frontier: &mut Frontier<W>,
    rules: &Rules<'_, W>,
    rule: usize,
    tries: &mut Steps<M>,
) -> Result<(), NoMemory>
    requires { rule < length rules.now.items }
    ensures adds { OnOk result (Adds W.scale W.components rules.now.items [] frontier.old frontier.new) }
    ensures has { OnOk result (HasPops W.scale W.components rules.now.items frontier.new rule) }
    ensures lengths { OnOk result (length frontier.new.heap + tries.old ≡ length frontier.old.heap + tries.new) }
    ensures tries { OnOk result ((f : Ruled W) → slice_get rules.now.items rule ≡ Some f → tries.new ≤ tries.old + pop_ways f.rule.word) }
{
    let ruled = rules.get(rule);
    match ruled.rule.word {
        Word2::Empty => frontier.offer(
            ruled.head,
            Candidate {
                weight: ruled.rule.weight,
                q: ruled.rule.to,
                rule,
                left: 0,
                right: 0,
            },
            tries,
        ),
        _ => Ok(()),
    }
}

// The candidates before any row: the rules that take their symbol off.
fn pops<W: Domain, M: Ledger>(
    alloc: Global,
    rules: &Rules<'_, W>,
    tries: &mut Steps<M>,
) -> Result<Frontier<W>, NoMemory>
    ensures begins { IfOk result (Begins W.scale W.components rules.now.items) }
    ensures has { IfOk result (λ frontier. (k : ℕ) → HasPops W.scale W.components rules.now.items frontier k) }
    ensures lengths { IfOk result (λ frontier. length frontier.heap + tries.old ≡ tries.new) }
    ensures tries { OnOk result (tries.new ≤ tries.old + all_ways {W = W} rules.now.items []) }
{
    let mut frontier = Frontier::new(alloc);
    for rule in 0..rules.len() {
        push_if_pop(&mut frontier, rules, rule, tries)?;
    }
    Ok(frontier)
}

impl<W: Domain> Search<W> {
    // The search before any row.
    pub(crate) fn new<M: Ledger>(
        alloc: Global,
        rules: &Rules<'_, W>,
        tries: &mut Steps<M>,
    ) -> Result<Self, NoMemory>
        ensures search { IfOk result (IsSearch W.scale W.components rules.now.heads rules.now.items [] []) }
        ensures lengths { IfOk result (λ search. length search.frontier.heap + tries.old ≡ tries.new) }
        ensures tries { OnOk result (tries.new ≤ tries.old + all_ways {W = W} rules.now.items []) }
    {
        let places = rules.heads().len();
        Ok(Search {
            frontier: pops(alloc, rules, tries)?,
            rows: Chains::new(alloc, places)?,
            waits: Waits::new(alloc, places)?,
            halves: Lightest::new(alloc),
        })
    }

    // The lightest row that a candidate makes and that isn't settled, and the place of its head.
    pub(crate) fn next_row<S: System<W>>(
        &mut self,
        sys: &S,
        index: &Index<'_, W>,
        rows: &[Row<W>],
    ) -> Option<(usize, Row<W>)>
        requires index { IsIndex W.components (S.rules sys.now) index.now }
        requires search { IsSearch W.scale W.components index.now.rules.heads index.now.rules.items rows.now rows.now self.old }
        ensures made { IfSome result (λ next. IsCandidate W.scale W.components (S.rules sys.now) index.now.rules.heads rows.now next.1) }
        ensures place { IfSome result (λ next. slice_get index.now.rules.heads next.0 ≡ Some (next.1.p, next.1.g)) }
        ensures fewer { IfSome result (λ next. length self.new.frontier.heap + 1 ≤ length self.old.frontier.heap) }
        ensures least { IsSeen W.scale W.components (S.rules sys.now) index.now.rules.heads rows.now (option_map (λ next. next.1) result) }
        ensures search { IfSome result (λ next. IsSearch W.scale W.components index.now.rules.heads index.now.rules.items rows.now (rows.now ++ next.1 ∷ []) self.new) }
    {
        while let Some(candidate) = self.frontier.heap.pop() {
            let row = row_of(&index.rules, candidate);
            let place = index.rules.get(candidate.rule).head;
            if !is_settled(rows, &self.rows, place, row.q) {
                return Some((place, row));
            }
        }
        None
    }

    // Takes in the last row: the candidates that it makes with the others.
    pub(crate) fn extend<M: Ledger>(
        &mut self,
        turn: &Turn<'_, W>,
        tries: &mut Steps<M>,
    ) -> Result<(), NoMemory>
        requires turn { IsTurn W.components turn.now }
        requires search { IsBehind W.scale W.components (heads_of turn.now) (rules_of turn.now) (rows_of turn.now) turn.now.last self.old }
        ensures search { OnOk result (IsSearch W.scale W.components (heads_of turn.now) (rules_of turn.now) (rows_of turn.now) (rows_of turn.now) self.new) }
        ensures lengths { OnOk result (length self.new.frontier.heap + tries.old ≡ length self.old.frontier.heap + tries.new) }
        ensures tries { OnOk result (tries.new + all_ways (rules_of turn.now) (take turn.now.last (rows_of turn.now)) ≤ tries.old + all_ways (rules_of turn.now) (rows_of turn.now)) }
    {
        self.rows.add(turn.place)?;
        end_waits(&mut self.frontier, turn, &self.waits, tries)?;
        push_ones(&mut self.frontier, turn, tries)?;
        let from = self.waits.items.len();
        self.waits.extend(turn, &mut self.halves)?;
        begin_waits(
            &mut self.frontier,
            turn,
            &self.rows,
            &self.waits,
            from,
            tries,
        )
    }
}
