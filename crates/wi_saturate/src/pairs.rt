//! Pairs of numbers of 32 bits take half the bytes of whole ones, and there may be millions of them. From the first number on
//! that has more bits, pairs are kept whole, so that none is refused. It costs a test at each look-up.
ghost use Rattle.std.specs.Prelude.{◌≡◌, ◌<◌, ◌++◌, ◌∷◌, [], OnErr, OnOk, length, slice_index_or};

use std::alloc::Global;
use std::marker::Model;
use wi_base::NoMemory;

// Pairs of numbers. They are kept in 32 bits each until a number comes that doesn't fit; from then on they are kept whole.
#[derive(Drop)]
pub(crate) struct Pairs {
    narrow: Vec<(u32, u32)>,
    wide: Vec<(usize, usize)>,
}

impl Model for Pairs {
    ghost use Rattle.std.specs.Prelude.{◌++◌};
    ghost use Rattle.wi_saturate.specs.private.Chains.{PairsView};

    ghost Value = { PairsView };

    ghost view = { λ s. record { items = s.narrow.items ++ s.wide.items } };
}

impl Pairs {
    pub(crate) fn new(alloc: Global) -> Self
        ensures { result ≡ record { items = [] } }
    {
        Pairs {
            narrow: Vec::new(alloc),
            wide: Vec::new(alloc),
        }
    }

    // Adds a pair at the end.
    pub(crate) fn push(&mut self, first: usize, second: usize) -> Result<(), NoMemory>
        ensures ok { OnOk result (self.new ≡ record { items = self.old.items ++ (first, second) ∷ [] }) }
        ensures err { OnErr result (self.new ≡ self.old) }
    {
        if self.wide.is_empty() {
            if let (Ok(a), Ok(b)) = (u32::try_from(first), u32::try_from(second)) {
                self.narrow.push((a, b))?;
                return Ok(());
            }
        }
        self.wide.push((first, second))?;
        Ok(())
    }

    // How many pairs there are.
    pub(crate) fn len(&self) -> usize
        ensures { result ≡ length self.now.items }
    {
        self.narrow.len() + self.wide.len()
    }

    // The pair at a place.
    pub(crate) fn get(&self, place: usize) -> (usize, usize)
        requires { place < length self.now.items }
        ensures { result ≡ slice_index_or self.now.items place result }
    {
        match self.narrow.get(place) {
            Some((first, second)) => (*first as usize, *second as usize),
            None => self.wide[place - self.narrow.len()],
        }
    }
}
