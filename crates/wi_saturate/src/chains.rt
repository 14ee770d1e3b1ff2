//! A list for each place would be an allocation for each. Here all items are in one list, each with the item before it at its
//! place: that takes a number for each place and a pair for each item, and the items of a place are gone over from the last to
//! the first.
ghost use Rattle.std.specs.Prelude.{◌≡◌, ◌+◌, ◌<◌, [], ◌∷◌, ◌++◌, ℕ, IfOk, OnOk, Some, slice_get, length};
ghost use Rattle.wi_saturate.specs.private.Chains.{ChainsView, IsEnd};

use crate::pairs::Pairs;
use std::alloc::Global;
use std::marker::Model;
use wi_base::NoMemory;

// Items at places. The items of a place are found from the last to the first.
#[derive(Drop)]
pub(crate) struct Chains {
    // for each place, one more than its last item, or 0
    ends: Vec<usize>,
    // of each item its place, and one more than the last item before it at that place, or 0
    links: Pairs,
}

impl Model for Chains {
    ghost use Rattle.std.specs.Prelude.{map, length};
    ghost use Rattle.wi_saturate.specs.private.Chains.{ChainsView, AreEnds, AreLinks};

    ghost Value = { ChainsView };

    ghost view = { λ s. record { count = length s.ends.items; places = map (λ l. l.0) s.links.items } };

    ghost invariant = { λ s. AreEnds (map (λ l. l.0) s.links.items) s.ends.items × AreLinks (map (λ l. l.0) s.links.items) (map (λ l. l.1) s.links.items) };
}

impl Chains {
    // No item yet, at any of so many places.
    pub(crate) fn new(alloc: Global, count: usize) -> Result<Self, NoMemory>
        ensures { IfOk result (λ chains. chains ≡ record { count = count; places = [] }) }
    {
        let ends = vec![in alloc; 0; count]?;
        Ok(Chains {
            ends,
            links: Pairs::new(alloc),
        })
    }

    // One more item, at the place.
    pub(crate) fn add(&mut self, place: usize) -> Result<(), NoMemory>
        requires { place < self.old.count }
        ensures { OnOk result (self.new ≡ record { count = self.old.count; places = self.old.places ++ place ∷ [] }) }
    {
        let end = self.ends[place];
        self.links.push(place, end)?;
        self.ends[place] = self.links.len();
        Ok(())
    }

    // The place of the last item, or 0.
    pub(crate) fn last_place(&self) -> usize {
        match self.links.len().checked_sub(1) {
            Some(last) => self.links.get(last).0,
            None => 0,
        }
    }

    // The place of the item.
    pub(crate) fn place(&self, item: usize) -> usize
        requires { item < length self.now.places }
        ensures { slice_get self.now.places item ≡ Some result }
    {
        self.links.get(item).0
    }

    // One more than the last item at the place, or 0.
    pub(crate) fn end(&self, place: usize) -> usize
        requires { place < self.now.count }
        ensures { IsEnd self.now.places place (length self.now.places) result }
    {
        self.ends[place]
    }

    // One more than the last item before this one at its place, or 0.
    pub(crate) fn end_before(&self, item: usize) -> usize
        requires { item < length self.now.places }
        ensures { (place : ℕ) → slice_get self.now.places item ≡ Some place → IsEnd self.now.places place item result }
    {
        self.links.get(item).1
    }
}
