//! The rules of all heads. A rule is kept as the place of its head and the number of its right-hand side, since rules of many heads
//! do the same.
ghost use Rattle.std.specs.Prelude.{◌≡◌, ◌<◌, ◌++◌, ◌∷◌, [], IfSome, MatchOption, Some, OnOk, length, slice_get, slice_index_or};
ghost use Rattle.std.specs.List.{Contains};
ghost use Rattle.std.specs.List.Sorted.{IsStrictlySortedBy};
ghost use Rattle.wi_pds.specs.Pairs.{pair_cmp};

use crate::pairs::Pairs;
use crate::sides::{Side, Sides, with_top, without_top};
use std::alloc::Global;
use std::marker::Model;
use wi_base::NoMemory;
use wi_pds::Rule;
use wi_weight::Domain;

// A rule, with the place of its head among the heads, and its place among the rules of that head.
#[derive(Clone, Copy)]
pub(crate) struct Ruled<W> {
    pub(crate) head: usize,
    pub(crate) at: u32,
    pub(crate) rule: Rule<W>,
}

// Rules of heads, in the order in which they were added.
#[derive(Drop)]
pub(crate) struct Rules<'a, W> {
    heads: &'a [(u64, u32)],
    // of each rule the place of its head, and the number of its side
    links: Pairs,
    sides: Sides<W>,
    // Where the rules of the head before the last begin, and those of the last one.
    before: usize,
    last: usize,
}

impl<'a, W> Model for Rules<'a, W> {
    ghost use Rattle.std.specs.Prelude.{map};
    ghost use Rattle.std.specs.List.{All};
    ghost use Rattle.wi_saturate.specs.private.Rulings.{RulesView, rule_of, IsLink};

    ghost Value = { RulesView W };

    ghost view = { λ s. record { heads = s.heads.now; items = map (rule_of s.heads.now s.sides) s.links.items } };

    ghost invariant = { λ s. All (IsLink s.heads.now s.sides) s.links.items };
}

impl<'a, W: Domain> Rules<'a, W> {
    // No rule yet.
    pub(crate) fn new(alloc: Global, heads: &'a [(u64, u32)]) -> Self
        ensures { result ≡ record { heads = heads.now; items = [] } }
    {
        Rules {
            heads,
            links: Pairs::new(alloc),
            sides: Sides::new(alloc),
            before: 0,
            last: 0,
        }
    }

    // The next rules are of a further head.
    pub(crate) fn begin_head(&mut self)
        ensures { self.new ≡ self.old }
    {
        self.before = self.last;
        self.last = self.links.len();
    }

    // A rule that one at this place of a head may be like: that at the same place of the head before, or the last one.
    pub(crate) fn like(&self, at: u32) -> Option<usize>
        ensures { IfSome result (λ place. place < length self.now.items) }
    {
        let last = self.links.len().checked_sub(1)?;
        Some(last.min(self.before.saturating_add(at as usize)))
    }

    // Adds a rule, which names its head.
    pub(crate) fn push(&mut self, ruled: Ruled<W>) -> Result<(), NoMemory>
        requires { slice_get self.old.heads ruled.head ≡ Some (ruled.rule.from, ruled.rule.top) }
        ensures { OnOk result (self.new ≡ record { heads = self.old.heads; items = self.old.items ++ ruled ∷ [] }) }
    {
        let Ruled { head, at, rule } = ruled;
        let guess = match self.like(at) {
            Some(place) => self.links.get(place).1,
            None => 0,
        };
        let (word, keeps_top) = without_top(rule.top, rule.word);
        let side = Side {
            weight: rule.weight,
            to: rule.to,
            tag: rule.tag,
            at,
            word,
            keeps_top,
        };
        let number = self.sides.number_of(guess, side)?;
        self.links.push(head, number)?;
        Ok(())
    }

    // The heads that rules are of.
    pub(crate) fn heads(&self) -> &'a [(u64, u32)]
        ensures { result.now ≡ self.now.heads }
    {
        self.heads
    }

    // The place of the head, where it is listed. The guess is tried before the head is looked for.
    pub(crate) fn place_of(&self, guess: usize, p: u64, g: u32) -> Option<usize>
        requires { IsStrictlySortedBy pair_cmp self.now.heads }
        ensures { MatchOption result (Contains self.now.heads (p, g) → ⊥) (λ place. slice_get self.now.heads place ≡ Some (p, g)) }
    {
        if let Some((from, top)) = self.heads.get(guess) {
            if *from == p && *top == g {
                return Some(guess);
            }
        }
        self.heads.binary_search(&(p, g)).ok()
    }

    // How many rules there are.
    pub(crate) fn len(&self) -> usize
        ensures { result ≡ length self.now.items }
    {
        self.links.len()
    }

    // The rule at a place.
    pub(crate) fn get(&self, place: usize) -> Ruled<W>
        requires { place < length self.now.items }
        ensures { result ≡ slice_index_or self.now.items place result }
    {
        let (head, number) = self.links.get(place);
        let (from, top) = self.heads[head];
        let side = self.sides.get(number);
        Ruled {
            head,
            at: side.at,
            rule: Rule {
                weight: side.weight,
                from,
                to: side.to,
                tag: side.tag,
                top,
                word: with_top(top, side.word, side.keeps_top),
            },
        }
    }
}
