//! What comes after or before a state by a symbol is found along one row while it is asked for, so that it takes no list and no
//! memory. Forwards each state of the row costs a look into its atom's set; backwards one look serves for the whole row.
ghost use Rattle.std.specs.Prelude.{◌≡◌};
ghost use Rattle.wi_nfa.specs.Rows.{reads_at};

use wi_regex::{Atom, Symbol};

/// States in rising order. It takes no memory.
#[derive(Drop)]
pub struct States<'a, A: Atom> {
    left: &'a [u32],
    atoms: &'a [A],
    symbol: Symbol,
    // Whether all of those left are given, and not only those that the symbol leads to.
    every: bool,
}

/// Whether the symbol is in the atom of state q.
pub(crate) fn enters<A: Atom>(atoms: &[A], q: u32, symbol: Symbol) -> bool
    ensures { result ≡ reads_at A.set atoms.now q symbol.0 }
{
    match atoms.get(q.saturating_sub(1) as usize) {
        Some(atom) => atom.holds(symbol),
        None => false,
    }
}

impl<'a, A: Atom> States<'a, A> {
    ghost use Rattle.std.specs.Prelude.{◌≡◌, true, false};
    ghost use Rattle.wi_nfa.specs.Left.{states_left, kept};

    /// Those of the states that the symbol leads to.
    pub(crate) fn among(left: &'a [u32], atoms: &'a [A], symbol: Symbol) -> States<'a, A>
        ensures { states_left A.set result ≡ kept A.set false atoms.now symbol.0 left.now }
    {
        States {
            left,
            atoms,
            symbol,
            every: false,
        }
    }

    /// All of the states.
    pub(crate) fn all(left: &'a [u32], atoms: &'a [A], symbol: Symbol) -> States<'a, A>
        ensures { states_left A.set result ≡ kept A.set true atoms.now symbol.0 left.now }
    {
        States {
            left,
            atoms,
            symbol,
            every: true,
        }
    }
}

impl<'a, A: Atom> Iterator for States<'a, A> {
    ghost use Rattle.std.specs.Iterator.{YieldsFirst, item_count};
    ghost use Rattle.wi_nfa.specs.Left.{states_left};

    type Item = u32;

    ghost next_gives = { YieldsFirst (λ s. states_left A.set s) };

    ghost remaining = { item_count (λ s. states_left A.set s) };

    fn next(&mut self) -> Option<u32> {
        while let Some((first, rest)) = self.left.split_first() {
            self.left = rest;
            if self.every || enters(self.atoms, *first, self.symbol) {
                return Some(*first);
            }
        }
        None
    }
}
