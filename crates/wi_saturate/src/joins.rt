//! What a rule makes of rows is pushed in the turn of the last of these rows, so that it comes once. A turn goes over the rules
//! that lead to its row's head, what waits for that head, and the rows that are there already for what begins to wait: over
//! nothing else.
ghost use Rattle.std.specs.Prelude.{◌≡◌, ◌+◌, ◌<◌, ◌≤◌, ◌==◌, ℕ, OnOk, length, drop, Some, slice_get};
ghost use Rattle.std.specs.List.{sum_by, count_by};
ghost use Rattle.wi_saturate.specs.declared.row.Row.{Row};
ghost use Rattle.wi_saturate.specs.declared.rules.Ruled.{Ruled};
ghost use Rattle.wi_saturate.specs.declared.waits.Wait.{Wait};
ghost use Rattle.wi_saturate.specs.Tries.{rows_from};
ghost use Rattle.wi_saturate.specs.private.Tries.{one_ways, of_head};
ghost use Rattle.wi_saturate.specs.private.Searches.{IsOne, IsTwo, HasOne, HasTwo};
ghost use Rattle.wi_saturate.specs.private.Turns.{heads_of, rules_of, rows_of, IsTurn, IsFirstOf, ArePlaced, AreWaiting, ArePushed};

use crate::chains::Chains;
use crate::frontier::Frontier;
use crate::heap::Candidate;
use crate::steps::Steps;
use crate::turn::Turn;
use crate::waits::Waits;
use std::sync::ledger::Ledger;
use wi_base::NoMemory;
use wi_pds::Word2;
use wi_weight::Domain;

// The candidate of a rule and a row.
fn push_one<W: Domain, M: Ledger>(
    frontier: &mut Frontier<W>,
    turn: &Turn<'_, W>,
    rule: usize,
    i: usize,
    tries: &mut Steps<M>,
) -> Result<(), NoMemory>
    requires turn { IsTurn W.components turn.now }
    requires one { IsOne (rules_of turn.now) (rows_of turn.now) rule i }
    ensures pushed { OnOk result (ArePushed W.scale W.components turn.now frontier.old frontier.new tries.old tries.new) }
    ensures has { OnOk result (HasOne W.scale W.components (rules_of turn.now) (rows_of turn.now) frontier.new rule i) }
    ensures tries { OnOk result (tries.new ≤ tries.old + 1) }
{
    let ruled = turn.index.rules.get(rule);
    let row = &turn.rows[i];
    let weight = ruled.rule.weight.extend(row.weight);
    frontier.offer(
        ruled.head,
        Candidate {
            weight,
            q: row.q,
            rule,
            left: i,
            right: 0,
        },
        tries,
    )
}

// The candidate of a rule and two rows.
fn push_two<W: Domain, M: Ledger>(
    frontier: &mut Frontier<W>,
    turn: &Turn<'_, W>,
    rule: usize,
    i: usize,
    j: usize,
    tries: &mut Steps<M>,
) -> Result<(), NoMemory>
    requires turn { IsTurn W.components turn.now }
    requires two { IsTwo (rules_of turn.now) (rows_of turn.now) rule i j }
    ensures pushed { OnOk result (ArePushed W.scale W.components turn.now frontier.old frontier.new tries.old tries.new) }
    ensures has { OnOk result (HasTwo W.scale W.components (rules_of turn.now) (rows_of turn.now) frontier.new rule i j) }
    ensures tries { OnOk result (tries.new ≤ tries.old + 1) }
{
    let ruled = turn.index.rules.get(rule);
    let half = ruled.rule.weight.extend(turn.rows[i].weight);
    let second = &turn.rows[j];
    let weight = half.extend(second.weight);
    frontier.offer(
        ruled.head,
        Candidate {
            weight,
            q: second.q,
            rule,
            left: i,
            right: j,
        },
        tries,
    )
}

// The candidate of a rule and the last row, which is for its first symbol, if it writes one.
fn push_if_one<W: Domain, M: Ledger>(
    frontier: &mut Frontier<W>,
    turn: &Turn<'_, W>,
    rule: usize,
    tries: &mut Steps<M>,
) -> Result<(), NoMemory>
    requires turn { IsTurn W.components turn.now }
    requires rule { rule < length (rules_of turn.now) }
    requires first { IsFirstOf turn.now rule }
    ensures pushed { OnOk result (ArePushed W.scale W.components turn.now frontier.old frontier.new tries.old tries.new) }
    ensures has { OnOk result (HasOne W.scale W.components (rules_of turn.now) (rows_of turn.now) frontier.new rule turn.now.last) }
    ensures tries { OnOk result ((f : Ruled W) (r : Row W) → slice_get (rules_of turn.now) rule ≡ Some f → slice_get (rows_of turn.now) turn.now.last ≡ Some r →
        tries.new ≤ tries.old + one_ways r f.rule.to f.rule.word) }
{
    match turn.index.rules.get(rule).rule.word {
        Word2::One(_) => push_one(frontier, turn, rule, turn.last, tries),
        _ => Ok(()),
    }
}

// The candidates of the last row and the rules that write its symbol alone.
pub(crate) fn push_ones<W: Domain, M: Ledger>(
    frontier: &mut Frontier<W>,
    turn: &Turn<'_, W>,
    tries: &mut Steps<M>,
) -> Result<(), NoMemory>
    requires turn { IsTurn W.components turn.now }
    ensures pushed { OnOk result (ArePushed W.scale W.components turn.now frontier.old frontier.new tries.old tries.new) }
    ensures has { OnOk result ((k : ℕ) → HasOne W.scale W.components (rules_of turn.now) (rows_of turn.now) frontier.new k turn.now.last) }
    ensures tries { OnOk result ((r : Row W) → slice_get (rows_of turn.now) turn.now.last ≡ Some r →
        tries.new ≤ tries.old + sum_by (λ f. one_ways r f.rule.to f.rule.word) (rules_of turn.now)) }
{
    let mut end = turn.index.ones_end(turn.place);
    while 0 < end {
        let rule = end - 1;
        push_if_one(frontier, turn, rule, tries)?;
        end = turn.index.begins.end_before(rule);
    }
    Ok(())
}

// The candidates of the last row and what waits for it.
pub(crate) fn end_waits<W: Domain, M: Ledger>(
    frontier: &mut Frontier<W>,
    turn: &Turn<'_, W>,
    waits: &Waits,
    tries: &mut Steps<M>,
) -> Result<(), NoMemory>
    requires turn { IsTurn W.components turn.now }
    requires waits { AreWaiting turn.now waits.now }
    ensures pushed { OnOk result (ArePushed W.scale W.components turn.now frontier.old frontier.new tries.old tries.new) }
    ensures has { OnOk result ((n : ℕ) (w : Wait) → slice_get waits.now.items.items n ≡ Some w → slice_get waits.now.places.places n ≡ Some turn.now.place →
        HasTwo W.scale W.components (rules_of turn.now) (rows_of turn.now) frontier.new w.rule w.row turn.now.last) }
    ensures tries { OnOk result (tries.new ≤ tries.old + count_by (λ p. p == turn.now.place) waits.now.places.places) }
{
    let mut end = waits.places.end(turn.place);
    while 0 < end {
        let n = end - 1;
        let wait = waits.items.get(n);
        push_two(frontier, turn, wait.rule, wait.row, turn.last, tries)?;
        end = waits.places.end_before(n);
    }
    Ok(())
}

// The candidates of what waits at place `n` and the rows that it waits for.
fn push_pairs<W: Domain, M: Ledger>(
    frontier: &mut Frontier<W>,
    turn: &Turn<'_, W>,
    places: &Chains,
    waits: &Waits,
    n: usize,
    tries: &mut Steps<M>,
) -> Result<(), NoMemory>
    requires turn { IsTurn W.components turn.now }
    requires places { ArePlaced turn.now places.now }
    requires waits { AreWaiting turn.now waits.now }
    requires within { n < length waits.now.items.items }
    ensures pushed { OnOk result (ArePushed W.scale W.components turn.now frontier.old frontier.new tries.old tries.new) }
    ensures has { OnOk result ((w : Wait) (place j : ℕ) → slice_get waits.now.items.items n ≡ Some w → slice_get waits.now.places.places n ≡ Some place →
        slice_get places.now.places j ≡ Some place → HasTwo W.scale W.components (rules_of turn.now) (rows_of turn.now) frontier.new w.rule w.row j) }
    ensures tries { OnOk result ((place : ℕ) → slice_get waits.now.places.places n ≡ Some place →
        tries.new ≤ tries.old + of_head (rows_from (rows_of turn.now)) (heads_of turn.now) place) }
{
    let wait = waits.items.get(n);
    let place = waits.places.place(n);
    let mut end = places.end(place);
    while 0 < end {
        let j = end - 1;
        push_two(frontier, turn, wait.rule, wait.row, j, tries)?;
        end = places.end_before(j);
    }
    Ok(())
}

// The candidates of what waits from place `from` on, and the rows that it waits for.
pub(crate) fn begin_waits<W: Domain, M: Ledger>(
    frontier: &mut Frontier<W>,
    turn: &Turn<'_, W>,
    places: &Chains,
    waits: &Waits,
    from: usize,
    tries: &mut Steps<M>,
) -> Result<(), NoMemory>
    requires turn { IsTurn W.components turn.now }
    requires places { ArePlaced turn.now places.now }
    requires waits { AreWaiting turn.now waits.now }
    ensures pushed { OnOk result (ArePushed W.scale W.components turn.now frontier.old frontier.new tries.old tries.new) }
    ensures has { OnOk result ((n : ℕ) (w : Wait) (place j : ℕ) → from ≤ n → slice_get waits.now.items.items n ≡ Some w → slice_get waits.now.places.places n ≡ Some place →
        slice_get places.now.places j ≡ Some place → HasTwo W.scale W.components (rules_of turn.now) (rows_of turn.now) frontier.new w.rule w.row j) }
    ensures tries { OnOk result (tries.new ≤ tries.old + sum_by (of_head (rows_from (rows_of turn.now)) (heads_of turn.now)) (drop from waits.now.places.places)) }
{
    for n in from..waits.items.len() {
        push_pairs(frontier, turn, places, waits, n, tries)?;
    }
    Ok(())
}
