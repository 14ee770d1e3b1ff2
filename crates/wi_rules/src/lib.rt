//! A network and a query as a pushdown system (AalWiNes, CoNEXT 2020; Schwoon 2002): the rules of each head, and what their
//! goal runs are. Definitions alone, and laws over them.
#![tactic(auto)]

mod laws;
mod spot;

pub use laws::{goal_runs_are_moving_runs, goals_are_matches, rules_tell_runs, spots_have_numbers};
pub use spot::{Origin, Spot};
