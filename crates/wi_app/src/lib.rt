//! The one call that does all that the program does.
#![tactic(auto)]

mod answer;
mod app;
mod audit;
mod laws;

pub use app::run;
pub use laws::{
    a_no_of_loss_is_survival, what_exact_writes_is_accepted, what_is_written_is_accepted,
};
