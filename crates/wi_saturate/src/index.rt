//! The rules that may use a row are those that lead to its head. Those that write one symbol lie in one chain, and those that
//! write two in another, since a row goes into them at different times; and no others are looked at. It takes all rules of listed
//! heads in one list, and for each rule that is added a guess at its place, and where that fails, a look-up by halves.
ghost use Rattle.std.specs.Prelude.{◌≡◌, ◌+◌, ◌<◌, ◌≤◌, ◌^◌, ◌++◌, ◌∷◌, ℕ, OnOk, IfOk, MatchOption, Some, slice_get, length, []};
ghost use Rattle.std.specs.List.{All, Contains};
ghost use Rattle.std.specs.List.Sorted.{IsStrictlySortedBy};
ghost use Rattle.wi_pds.specs.Pairs.{pair_cmp};
ghost use Rattle.wi_pds.specs.Rules.{IsOf};
ghost use Rattle.wi_saturate.specs.LeastTables.{AreReady};
ghost use Rattle.wi_saturate.specs.private.Chains.{IsEnd};
ghost use Rattle.wi_saturate.specs.private.Indexes.{ruled_from, BeginsAt, IsPlace, AreBegins, IsIndex};

use crate::chains::Chains;
use crate::rules::{Ruled, Rules};
use std::alloc::Global;
use wi_base::NoMemory;
use wi_pds::{Heads, Rule, System, Word2};
use wi_weight::Domain;

// The rules of all heads, each at the place of the head that it leads to: its state with the first symbol that it writes. Behind
// the places of all heads for rules that write one symbol come those for rules that write two, and then one for the rules that
// lead to no listed head, as those that write no symbol.
#[derive(Drop)]
pub(crate) struct Index<'a, W> {
    pub(crate) rules: Rules<'a, W>,
    pub(crate) begins: Chains,
}

// The place of the head behind so many others, or the last place of all. The guess is a place behind as many.
fn place_or_past<W: Domain>(
    rules: &Rules<'_, W>,
    before: usize,
    guess: usize,
    p: u64,
    g: u32,
) -> usize
    requires rise { IsStrictlySortedBy pair_cmp rules.now.heads }
    requires before { before ≤ length rules.now.heads }
    ensures { IsPlace rules.now.heads before p g result }
{
    let count = rules.heads().len();
    match rules.place_of(guess.wrapping_sub(before), p, g) {
        Some(place) => place + before,
        None => count + count,
    }
}

// The place of the rule, by the head that it leads to. It may be the guess.
fn begins_at<W: Domain>(rules: &Rules<'_, W>, guess: usize, rule: &Rule<W>) -> usize
    requires { IsStrictlySortedBy pair_cmp rules.now.heads }
    ensures { BeginsAt rules.now.heads rule.now.to rule.now.word result }
{
    let count = rules.heads().len();
    match rule.word {
        Word2::Empty => count + count,
        Word2::One(u) => place_or_past(rules, 0, guess, rule.to, u),
        Word2::Two(u, _) => place_or_past(rules, count, guess, rule.to, u),
    }
}

impl<'a, W: Domain> Index<'a, W> {
    // The index of the rules of the heads. The system is asked for the rules of each head once.
    pub(crate) fn new<S: System<W>>(
        alloc: Global,
        sys: &S,
        heads: &'a Heads,
    ) -> Result<Self, NoMemory>
        requires ready { AreReady W.components (S.rules sys.now) heads.now.heads }
        requires asked { (p g : ℕ) → Contains heads.now.heads (p, g) → S.may_ask sys.now p g }
        ensures index { IfOk result (IsIndex W.components (S.rules sys.now)) }
        ensures heads { IfOk result (λ index. index.rules.heads ≡ heads.now.heads) }
    {
        let listed = heads.heads.as_slice();
        let mut index = Index {
            rules: Rules::new(alloc, listed),
            begins: Chains::new(alloc, listed.len() + listed.len() + 1)?,
        };
        for head in 0..listed.len() {
            let (p, g) = listed[head];
            let rules = sys.rules_of(alloc, p, g)?;
            index.add_head(head, &rules)?;
        }
        Ok(index)
    }

    // One more than the last rule that writes one symbol and leads to the head at the place, or 0.
    pub(crate) fn ones_end(&self, place: usize) -> usize
        requires begins { AreBegins self.now.rules.heads self.now.rules.items self.now.begins }
        requires listed { place < length self.now.rules.heads }
        ensures { IsEnd self.now.begins.places place (length self.now.begins.places) result }
    {
        self.begins.end(place)
    }

    // One more than the last rule that writes two symbols and leads to the head at the place, or 0.
    pub(crate) fn twos_end(&self, place: usize) -> usize
        requires begins { AreBegins self.now.rules.heads self.now.rules.items self.now.begins }
        requires listed { place < length self.now.rules.heads }
        ensures { IsEnd self.now.begins.places (place + length self.now.rules.heads) (length self.now.begins.places) result }
    {
        self.begins.end(place + self.rules.heads().len())
    }

    // Adds the rules of the head at a place.
    fn add_head(&mut self, head: usize, rules: &[Rule<W>]) -> Result<(), NoMemory>
        requires rise { IsStrictlySortedBy pair_cmp self.old.rules.heads }
        requires count { length rules.now < 2 ^ 32 }
        requires named { (p g : ℕ) → slice_get self.old.rules.heads head ≡ Some (p, g) → All (IsOf p g) rules.now }
        requires listed { head < length self.old.rules.heads }
        requires begins { AreBegins self.old.rules.heads self.old.rules.items self.old.begins }
        ensures begins { OnOk result (AreBegins self.new.rules.heads self.new.rules.items self.new.begins) }
        ensures rules { OnOk result (self.new.rules.items ≡ self.old.rules.items ++ ruled_from head 0 rules.now) }
        ensures heads { OnOk result (self.new.rules.heads ≡ self.old.rules.heads) }
    {
        self.rules.begin_head();
        for at in 0..rules.len() {
            self.add(Ruled {
                head,
                at: at as u32,
                rule: rules[at],
            })?;
        }
        Ok(())
    }

    // The place behind that of the rule that one at this place of a head may be like: heads rise, so where that leads to one
    // head, this may lead to the next.
    fn place_after(&self, at: u32) -> usize
        requires { AreBegins self.now.rules.heads self.now.rules.items self.now.begins }
    {
        match self.rules.like(at) {
            Some(rule) => self.begins.place(rule).saturating_add(1),
            None => 0,
        }
    }

    // Adds one rule.
    fn add(&mut self, ruled: Ruled<W>) -> Result<(), NoMemory>
        requires rise { IsStrictlySortedBy pair_cmp self.old.rules.heads }
        requires begins { AreBegins self.old.rules.heads self.old.rules.items self.old.begins }
        requires named { slice_get self.old.rules.heads ruled.head ≡ Some (ruled.rule.from, ruled.rule.top) }
        ensures begins { OnOk result (AreBegins self.new.rules.heads self.new.rules.items self.new.begins) }
        ensures rules { OnOk result (self.new.rules.items ≡ self.old.rules.items ++ ruled ∷ []) }
        ensures heads { OnOk result (self.new.rules.heads ≡ self.old.rules.heads) }
    {
        let guess = self.place_after(ruled.at);
        self.begins.add(begins_at(&self.rules, guess, &ruled.rule))?;
        self.rules.push(ruled)?;
        Ok(())
    }
}
