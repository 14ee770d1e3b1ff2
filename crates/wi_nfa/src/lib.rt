//! Position automata of regular expressions (Glushkov 1961): state 0 is the start, and state i stands for atom i of the
//! expression, counted from the left.
#![tactic(auto)]

mod ends;
mod laws;
mod marks;
mod nfa;
mod states;
mod tables;

pub use laws::{
    accepts_what_matches, limits_have_these_numbers, rising_lists_are_equal, start_is_never_entered,
};
pub use nfa::{Nfa, NfaRefused, POSITION_LIMIT};
pub use states::States;
