//! Rules are asked for head by head, so that a system may make them when they are wanted, and no list of all has to be there.
//! It says of which heads it may be asked, so that asking for no others is a part of a search's contract. Each answer is a list
//! of its own.
ghost use Rattle.std.specs.Prelude.{◌≡◌, ℕ, List, IfOk};
ghost use Rattle.std.specs.List.{All};
ghost use Rattle.wi_pds.specs.declared.rule.Rule.{Rule};
ghost use Rattle.wi_pds.specs.Rules.{IsOf};

use crate::rule::Rule;
use std::alloc::Global;
use wi_base::NoMemory;

/// A pushdown system: the head that it starts at, and a list of rules for each head, a state and a symbol.
pub trait System<W: Copy> {
    /// The state and the symbol that runs start with.
    ghost start_head: { Self → ℕ × ℕ };

    /// The rules of a head, in order.
    ghost rules: { Self → ℕ → ℕ → List (Rule W) };

    /// The heads whose rules may be asked for.
    ghost may_ask: { Self → ℕ → ℕ → Type 0 };

    /// The head that runs start at. It takes no memory.
    fn start(&self) -> (u64, u32)
        ensures { result ≡ start_head self.now };

    /// The rules of the head (p, g), in order. It has none where the system knows nothing of the head.
    fn rules_of(&self, alloc: Global, p: u64, g: u32) -> Result<Vec<Rule<W>>, NoMemory>
        requires { may_ask self.now p g }
        ensures { IfOk result (λ list. list.items ≡ rules self.now p g) };

    /// Each rule names the head that it is of.
    ghost names_head: { (s : Self) (p g : ℕ) → All (IsOf p g) (rules s p g) };
}
