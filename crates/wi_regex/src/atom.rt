//! An atom is a set and not one symbol, so that "any label" is one position of an expression and not thousands. What a set is,
//! is left to whoever makes expressions. An automaton has copies of them, so beside its expression each set is there twice.
ghost use Rattle.std.specs.Prelude.{◌≡◌, ℕ, Bool, IfOk};

use crate::no_memory::NoMemory;
use std::alloc::Global;

/// The number of a label or of a link in its network.
#[derive(Clone, Copy, PartialEq, Eq, Hash, Debug)]
pub struct Symbol(pub u32);

/// A set of symbols, any one of which stands at its place in a word.
pub trait Atom: Drop {
    /// The set.
    ghost set: { Self → ℕ → Bool };

    /// Whether the symbol is in the set. It takes no memory.
    fn holds(&self, symbol: Symbol) -> bool
        ensures { result ≡ set self.now symbol.0 };

    /// An atom that holds the same symbols.
    fn twin(&self, alloc: Global) -> Result<Self, NoMemory>
        ensures { IfOk result (λ t. (x : ℕ) → set t x ≡ set self.now x) };
}
