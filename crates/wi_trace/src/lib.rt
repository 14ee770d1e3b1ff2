//! Runs, replayed without any search; what they need to fail, and the verdict on that.
#![tactic(auto)]

mod answer;
mod cause;
mod hop;
mod judge;
mod laws;
mod replays;
mod sets;
mod start;

pub use answer::Answer;
pub use cause::{Cause, ReplayRefused};
pub use hop::{Location, follow, groups_of, hop_under, hop_within, member_at, twin_of};
pub use judge::{end_needs, needs, verdict};
pub use laws::{a_run_without_a_fault_is_a_trace, a_run_without_a_moving_fault_is_possible};
pub use replays::{Trace, moving_fault, replay, replay_moving};
pub use sets::{insert_all, nth};
pub use start::is_start;
pub use wi_world::{End, Run, Step, Verdict, Word};
