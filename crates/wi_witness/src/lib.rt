//! A run to the goal from a table of least summaries, as the names of its rules.
#![tactic(auto)]

mod refused;
mod unfolding;

pub use refused::UnfoldRefused;
pub use unfolding::unfold;
