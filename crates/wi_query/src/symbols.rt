//! A mark for each label or link makes each test one look-up, whatever the atom was. It takes a byte for each, so up to 20,000
//! bytes a set.
ghost use Rattle.std.specs.Prelude.{◌≡◌};

use std::alloc::Global;
use std::marker::Model;
use wi_regex::{Atom, NoMemory, Symbol};

/// A set of a network's labels or links, by their numbers: a mark for each.
#[derive(Drop)]
pub struct SymbolSet {
    marks: Vec<bool>,
}

impl Model for SymbolSet {
    ghost use Rattle.std.specs.Prelude.{List, Bool};

    ghost Value = { List Bool };

    ghost view = { λ s. s.marks.items };
}

impl SymbolSet {
    /// The set with these marks.
    pub(crate) fn of(marks: Vec<bool>) -> SymbolSet
        ensures { result ≡ marks.items }
    {
        SymbolSet { marks }
    }
}

impl Atom for SymbolSet {
    ghost use Rattle.wi_query.specs.Sets.{holds};

    ghost set = { holds };

    fn holds(&self, symbol: Symbol) -> bool {
        match self.marks.get(symbol.0 as usize) {
            Some(mark) => *mark,
            None => false,
        }
    }

    fn twin(&self, alloc: Global) -> Result<SymbolSet, NoMemory> {
        let marks = Vec::from_slice(alloc, self.marks.as_slice())?;
        Ok(SymbolSet { marks })
    }
}
