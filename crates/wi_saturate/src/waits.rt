//! A rule that writes two symbols needs a row for the second from where that for the first ends, and such rows may come later.
//! So the rule and its first row wait at the place of that head, if they weigh less than whatever of the rule's head waits there:
//! what a heavier one would make is made lighter. Each that waits takes two pairs of numbers, and it stays, since more rows may
//! come.
ghost use Rattle.std.specs.Prelude.{◌≡◌, ◌<◌, ◌≤◌, ◌++◌, ◌∷◌, ℕ, OnOk, IfOk, [], length, Some, slice_get, slice_index_or};
ghost use Rattle.std.specs.List.{sum_by};
ghost use Rattle.wi_saturate.specs.declared.row.Row.{Row};
ghost use Rattle.wi_saturate.specs.declared.rules.Ruled.{Ruled};
ghost use Rattle.wi_saturate.specs.private.Tries.{begun, IsMore};
ghost use Rattle.wi_saturate.specs.private.Lightest.{Lightens};
ghost use Rattle.wi_saturate.specs.private.Turns.{heads_of, rules_of, rows_of, IsTurn, IsFirstOf, AreNoted, AreWaiting, KeepsWaits, WaitsFor};

use crate::chains::Chains;
use crate::lightest::Lightest;
use crate::pairs::Pairs;
use crate::turn::Turn;
use std::alloc::Global;
use std::marker::Model;
use wi_base::NoMemory;
use wi_pds::Word2;
use wi_weight::Domain;

// A rule that writes two symbols, and a row for the first: it waits for rows for the second.
#[derive(Clone, Copy)]
pub(crate) struct Wait {
    pub(crate) rule: usize,
    pub(crate) row: usize,
}

// What waits, in the order in which it began to.
#[derive(Drop)]
pub(crate) struct WaitList {
    pairs: Pairs,
}

impl Model for WaitList {
    ghost use Rattle.std.specs.Prelude.{map};
    ghost use Rattle.wi_saturate.specs.private.WaitLists.{WaitsView, wait_of};

    ghost Value = { WaitsView };

    ghost view = { λ s. record { items = map wait_of s.pairs.items } };
}

impl WaitList {
    fn new(alloc: Global) -> Self
        ensures { result ≡ record { items = [] } }
    {
        WaitList {
            pairs: Pairs::new(alloc),
        }
    }

    // One more waits.
    fn push(&mut self, wait: Wait) -> Result<(), NoMemory>
        ensures { OnOk result (self.new ≡ record { items = self.old.items ++ wait ∷ [] }) }
    {
        self.pairs.push(wait.rule, wait.row)
    }

    // How many wait.
    pub(crate) fn len(&self) -> usize
        ensures { result ≡ length self.now.items }
    {
        self.pairs.len()
    }

    // What waits at a place of the list.
    pub(crate) fn get(&self, place: usize) -> Wait
        requires { place < length self.now.items }
        ensures { result ≡ slice_index_or self.now.items place result }
    {
        let (rule, row) = self.pairs.get(place);
        Wait { rule, row }
    }
}

// What waits, each at the place of the head that it waits for.
#[derive(Drop)]
pub(crate) struct Waits {
    pub(crate) items: WaitList,
    pub(crate) places: Chains,
}

impl Waits {
    // Nothing waits yet.
    pub(crate) fn new(alloc: Global, count: usize) -> Result<Self, NoMemory>
        ensures items { IfOk result (λ waits. waits.items.items ≡ []) }
        ensures places { IfOk result (λ waits. waits.places ≡ record { count = count; places = [] }) }
    {
        Ok(Waits {
            items: WaitList::new(alloc),
            places: Chains::new(alloc, count)?,
        })
    }

    // One more waits, at the place.
    fn add(&mut self, place: usize, rule: usize, row: usize) -> Result<(), NoMemory>
        requires { place < self.old.places.count }
        ensures items { OnOk result (self.new.items.items ≡ self.old.items.items ++ record { rule = rule; row = row } ∷ []) }
        ensures places { OnOk result (self.new.places ≡ record { count = self.old.places.count; places = self.old.places.places ++ place ∷ [] }) }
    {
        self.items.push(Wait { rule, row })?;
        self.places.add(place)
    }

    // Lets the rules wait whose first symbol the last row is for, where nothing as light waits for the same.
    pub(crate) fn extend<W: Domain>(
        &mut self,
        turn: &Turn<'_, W>,
        halves: &mut Lightest<W>,
    ) -> Result<(), NoMemory>
        requires turn { IsTurn W.components turn.now }
        requires waits { AreWaiting turn.now self.old }
        requires halves { AreNoted W.components turn.now self.old halves.old }
        ensures waits { OnOk result (AreWaiting turn.now self.new) }
        ensures halves { OnOk result (AreNoted W.components turn.now self.new halves.new) }
        ensures keeps { OnOk result (KeepsWaits self.old self.new) }
        ensures lightens { OnOk result (Lightens W.scale W.components halves.old halves.new) }
        ensures counted { OnOk result ((r : Row W) → slice_get (rows_of turn.now) turn.now.last ≡ Some r →
            IsMore (heads_of turn.now) self.old.places.places self.new.places.places (λ F. sum_by (λ f. begun F r f.rule.to f.rule.word) (rules_of turn.now))) }
        ensures last { OnOk result ((k : ℕ) → WaitsFor W.scale W.components turn.now halves.new k) }
    {
        let mut end = turn.index.twos_end(turn.place);
        while 0 < end {
            let rule = end - 1;
            self.add_rule(turn, rule, halves)?;
            end = turn.index.begins.end_before(rule);
        }
        Ok(())
    }

    // Lets the rule at a place wait, if it writes two symbols, and nothing of its head that is as light waits for the same.
    fn add_rule<W: Domain>(
        &mut self,
        turn: &Turn<'_, W>,
        rule: usize,
        halves: &mut Lightest<W>,
    ) -> Result<(), NoMemory>
        requires turn { IsTurn W.components turn.now }
        requires rule { rule < length (rules_of turn.now) }
        requires first { IsFirstOf turn.now rule }
        requires waits { AreWaiting turn.now self.old }
        requires halves { AreNoted W.components turn.now self.old halves.old }
        ensures waits { OnOk result (AreWaiting turn.now self.new) }
        ensures halves { OnOk result (AreNoted W.components turn.now self.new halves.new) }
        ensures keeps { OnOk result (KeepsWaits self.old self.new) }
        ensures lightens { OnOk result (Lightens W.scale W.components halves.old halves.new) }
        ensures has { OnOk result (WaitsFor W.scale W.components turn.now halves.new rule) }
        ensures counted { OnOk result ((f : Ruled W) (r : Row W) → slice_get (rules_of turn.now) rule ≡ Some f → slice_get (rows_of turn.now) turn.now.last ≡ Some r →
            IsMore (heads_of turn.now) self.old.places.places self.new.places.places (λ F. begun F r f.rule.to f.rule.word)) }
    {
        let ruled = turn.index.rules.get(rule);
        let Word2::Two(_, v) = ruled.rule.word else {
            return Ok(());
        };
        let row = &turn.rows[turn.last];
        let guess = self.places.last_place().wrapping_sub(1);
        let Some(place) = turn.index.rules.place_of(guess, row.q, v) else {
            return Ok(());
        };
        let half = ruled.rule.weight.extend(row.weight);
        if halves.lower(ruled.head, place as u64, half)? {
            self.add(place, rule, turn.last)?;
        }
        Ok(())
    }
}
