//! The automata's next and earlier states are asked for in these two calls alone, so that what has to hold of an automaton and
//! a state is said once. They come one by one, and take no memory.
ghost use Rattle.std.specs.Prelude.{◌≡◌, ◌<◌};
ghost use Rattle.wi_nfa.specs.Left.{states_left};
ghost use Rattle.wi_nfa.specs.Rows.{automaton_of};
ghost use Rattle.wi_query.specs.Sets.{holds};
ghost use Rattle.wi_build.specs.Encodings.{after, before};

use wi_nfa::States;
use wi_query::{Expression, SymbolSet};
use wi_regex::Symbol;

/// The states that come after one by a symbol.
pub(crate) fn after(expression: &Expression, state: u32, symbol: u32) -> States<'_, SymbolSet>
    requires { state < (automaton_of holds expression.now.nfa).states }
    ensures { states_left holds result ≡ after expression.now state symbol }
{
    expression.keeps();
    expression.nfa().next(state, Symbol(symbol))
}

/// The states that come before one by a symbol.
pub(crate) fn before(expression: &Expression, state: u32, symbol: u32) -> States<'_, SymbolSet>
    requires { state < (automaton_of holds expression.now.nfa).states }
    ensures { states_left holds result ≡ before expression.now state symbol }
{
    expression.keeps();
    expression.nfa().before(state, Symbol(symbol))
}
