//! How a command ends: what is printed, or why nothing is, with the exit status and with what is said.
#![tactic(auto)]

mod printed;
mod refusal;

pub use printed::{Printed, print, say_unprinted};
pub use refusal::{Refusal, cannot_read, cannot_write, say, status_of};
