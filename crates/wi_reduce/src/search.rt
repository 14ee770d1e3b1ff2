//! A rule that takes its symbol off leads to whatever may stand below, which may come up later. So what rules do to a symbol is
//! kept beside the pairs: the states that they go to without it, and the symbols that they put in its place. Rules themselves
//! aren't kept, since many of them do the same.
ghost use Rattle.std.specs.Prelude.{◌≡◌, ◌<◌, ◌^◌, [], OnOk};
ghost use Rattle.wi_reduce.specs.private.Kept.{followed, Has};
ghost use Rattle.wi_reduce.specs.private.Searches.{noted, noted_all, swap_noted, pair_followed, pop_followed, swap_followed};

use crate::relation::Relation;
use crate::worklist::{Worklist, add_above, add_below};
use std::alloc::Global;
use wi_base::NoMemory;
use wi_pds::{Rule, System, Word2};

/// What was found, and what is still to be followed.
#[derive(Drop)]
pub(crate) struct Search {
    /// States, each with a symbol on top.
    pub(crate) heads: Worklist<u64, u32>,
    /// Symbols, each with one that may stand right below it.
    pub(crate) pairs: Relation<u32>,
    /// Symbols, each with a state that a rule goes to that takes the symbol away.
    pub(crate) pops: Relation<u64>,
    /// Symbols, each with the lowest one that a rule writes in its place: what stands below the first may stand below the second.
    pub(crate) swaps: Relation<u32>,
}

impl Search {
    pub(crate) fn new(alloc: Global) -> Search
        ensures { result ≡ record { heads = ([], []); pairs = ([], []); pops = ([], []); swaps = ([], []) } }
    {
        Search {
            heads: Worklist::new(alloc),
            pairs: Relation::new(alloc),
            pops: Relation::new(alloc),
            swaps: Relation::new(alloc),
        }
    }

    /// How many keys were followed. The count bounds how often the search goes on.
    pub(crate) fn followed(&self) -> u128
        ensures count { result ≡ followed self.now }
        ensures bound { result < 2 ^ 66 }
    {
        self.heads.followed() as u128
            + self.pairs.followed() as u128
            + self.pops.followed() as u128
            + self.swaps.followed() as u128
    }

    // Notes that u is written in the place of g. A symbol hands nothing on to itself.
    fn note_swap(&mut self, g: u32, u: u32) -> Result<(), NoMemory>
        ensures { OnOk result (self.new ≡ swap_noted self.old g u) }
    {
        if g == u {
            return Ok(());
        }
        self.swaps.add(g, u)
    }

    // Notes what a rule over g leads to that goes to a state and writes a word.
    fn note(&mut self, g: u32, to: u64, word: Word2) -> Result<(), NoMemory>
        ensures { OnOk result (self.new ≡ noted self.old g to word) }
    {
        match word {
            Word2::Empty => self.pops.add(g, to),
            Word2::One(u) => {
                self.heads.add((to, u))?;
                self.note_swap(g, u)
            }
            Word2::Two(u, v) => {
                self.heads.add((to, u))?;
                self.pairs.add(u, v)?;
                self.note_swap(g, v)
            }
        }
    }

    // Notes what each of some rules over g leads to.
    fn note_all<W: Copy>(&mut self, g: u32, rules: &[Rule<W>]) -> Result<(), NoMemory>
        ensures { OnOk result (self.new ≡ noted_all self.old g rules.now) }
    {
        for rule in rules {
            self.note(g, rule.to, rule.word)?;
        }
        Ok(())
    }

    // Notes what the rules of the head (p, g) lead to, which was found: rules are asked for of no other head.
    pub(crate) fn follow_head<W: Copy, S: System<W>>(
        &mut self,
        alloc: Global,
        sys: &S,
        p: u64,
        g: u32,
    ) -> Result<(), NoMemory>
        requires found { Has self.old.heads (p, g) }
        requires asked { S.may_ask sys.now p g }
        ensures { OnOk result (self.new ≡ noted_all self.old g (S.rules sys.now p g)) }
    {
        let rules = sys.rules_of(alloc, p, g)?;
        self.note_all(g, rules.as_slice())
    }

    // What the pair of g and x leads to: x under whatever a rule over g leaves.
    pub(crate) fn follow_pair(&mut self, g: u32, x: u32) -> Result<(), NoMemory>
        ensures { OnOk result (self.new ≡ pair_followed self.old g x) }
    {
        add_above(&mut self.heads, self.pops.seconds(g), x)?;
        self.pairs.add_above(self.swaps.seconds(g), x)
    }

    // What a pop of g to a state leads to: that state with whatever may stand below g.
    pub(crate) fn follow_pop(&mut self, g: u32, to: u64) -> Result<(), NoMemory>
        ensures { OnOk result (self.new ≡ pop_followed self.old g to) }
    {
        add_below(&mut self.heads, to, self.pairs.seconds(g))
    }

    // What v in the place of g leads to: v over whatever may stand below g.
    pub(crate) fn follow_swap(&mut self, g: u32, v: u32) -> Result<(), NoMemory>
        ensures { OnOk result (self.new ≡ swap_followed self.old g v) }
    {
        self.pairs.hand_on(g, v)
    }
}
