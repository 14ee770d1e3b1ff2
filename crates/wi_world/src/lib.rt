//! The moving world: a packet travels while links fail and are repaired. Definitions alone, and laws over them.
#![tactic(auto)]

mod answer;
mod laws;
mod run;
mod world;

pub use answer::{Verdict, Word};
pub use laws::{
    fitting_runs_are_traces, moving_runs_are_possible_runs, traces_are_moving_runs,
    without_failures,
};
pub use run::{End, Quantity, Run, Step};
pub use world::{Event, State};
