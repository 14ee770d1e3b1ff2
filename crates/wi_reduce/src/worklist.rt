//! What is still to be followed is the end of one list, so nothing is moved or taken out; whether a key was found is known beside
//! it. Keys come in the order in which they were found, and are sorted once, at the end.
ghost use Rattle.std.specs.Prelude.{◌≡◌, ◌++◌, ◌∷◌, [], List, length, map, nat_eq, OnOk, MatchOption};
ghost use Rattle.std.specs.List.Sorted.{IsPermutation, IsSorted};
ghost use Rattle.std.specs.List.{IsDistinct};
ghost use Rattle.wi_reduce.specs.private.Worklists.{added, added_all, by_parts, eq_by_parts, IsTaken};

use crate::bits::{Bits, Number};
use std::alloc::Global;
use std::hash::Hash;
use std::marker::Model;
use wi_base::NoMemory;

/// The keys that were found, each once, in the order in which they were found. The first of them were followed.
#[derive(Drop)]
pub(crate) struct Worklist<A: Number + Hash, B: Number + Hash> {
    known: Bits<A, B>,
    found: Vec<(A, B)>,
    followed: usize,
}

/// The keys that were followed, and those that are still to be followed.
impl<A: Number + Hash, B: Number + Hash> Model for Worklist<A, B> {
    ghost use Rattle.std.specs.Prelude.{List, ◌≤◌, ◌≡◌, take, drop, length};
    ghost use Rattle.std.specs.List.{IsDistinct, list_any};
    ghost use Rattle.std.specs.Coded.{coded×, coded_list};
    ghost use Rattle.wi_reduce.specs.private.Worklists.{eq_by_parts};
    ghost use Rattle.wi_reduce.specs.private.Bits.{has_bit};

    ghost Value = { List (A × B) × List (A × B) };

    ghost coded = { coded× (coded_list (coded× A.code B.code)) (coded_list (coded× A.code B.code)) };

    ghost view = { λ w. (take w.followed w.found.items, drop w.followed w.found.items) };

    ghost invariant = { λ w. (w.followed ≤ length w.found.items) × IsDistinct (eq_by_parts A.eq B.eq) w.found.items × ((q : A × B) → has_bit A.eq B.eq B.part B.rest w.known.words q ≡ list_any (eq_by_parts A.eq B.eq q) w.found.items) };
}

impl<A: Number + Hash + Drop, B: Number + Hash + Drop> Worklist<A, B> {
    pub(crate) fn new(alloc: Global) -> Self
        ensures { result ≡ ([], []) }
    {
        Worklist {
            known: Bits::new(alloc),
            found: Vec::new(alloc),
            followed: 0,
        }
    }

    /// Adds a key; a new one is to be followed.
    pub(crate) fn add(&mut self, key: (A, B)) -> Result<(), NoMemory>
        ensures added { OnOk result (self.new ≡ added (eq_by_parts A.eq B.eq) self.old key) }
        ensures followed { self.new.0 ≡ self.old.0 }
    {
        self.found.reserve(1)?;
        if self.known.add(key)? {
            self.found.push(key)?;
        }
        Ok(())
    }

    /// The key that is to be followed next.
    pub(crate) fn first(&self) -> Option<(A, B)>
        ensures { MatchOption result (self.now.1 ≡ []) (λ key. (later : List (A × B)) × (self.now.1 ≡ key ∷ later)) }
    {
        self.found.get(self.followed).copied()
    }

    /// Takes the key that is to be followed next.
    pub(crate) fn next(&mut self) -> Option<(A, B)>
        ensures { MatchOption result ((self.new ≡ self.old) × (self.old.1 ≡ [])) (IsTaken self.old self.new) }
    {
        let key = self.first()?;
        self.followed += 1;
        Some(key)
    }

    /// How many keys were followed.
    pub(crate) fn followed(&self) -> usize
        ensures { result ≡ length self.now.0 }
    {
        self.followed
    }

    /// The keys that were found, in order.
    pub(crate) fn into_sorted(self) -> Vec<(A, B)>
    where
        A: Ord,
        B: Ord,
        ensures keys { IsPermutation (self.0 ++ self.1) result.items }
        ensures distinct { IsDistinct (eq_by_parts A.eq B.eq) result.items }
        ensures rise { IsSorted (by_parts A.cmp B.cmp) result.items }
    {
        let mut keys = self.found;
        keys.shrink_to_fit();
        keys.sort_unstable();
        keys
    }
}

/// Adds each of some first parts with one second part.
pub(crate) fn add_above<T: Number + Hash + Drop>(
    keys: &mut Worklist<T, u32>,
    uppers: &[T],
    lower: u32,
) -> Result<(), NoMemory>
    ensures added { OnOk result (keys.new ≡ added_all (eq_by_parts T.eq nat_eq) keys.old (map (λ upper. (upper, lower)) uppers.now)) }
    ensures followed { keys.new.0 ≡ keys.old.0 }
{
    for upper in uppers {
        keys.add((*upper, lower))?;
    }
    Ok(())
}

/// Adds one first part with each of some second parts.
pub(crate) fn add_below<T: Number + Hash + Drop>(
    keys: &mut Worklist<T, u32>,
    upper: T,
    lowers: &[u32],
) -> Result<(), NoMemory>
    ensures added { OnOk result (keys.new ≡ added_all (eq_by_parts T.eq nat_eq) keys.old (map (λ lower. (upper, lower)) lowers.now)) }
    ensures followed { keys.new.0 ≡ keys.old.0 }
{
    for lower in lowers {
        keys.add((upper, *lower))?;
    }
    Ok(())
}
