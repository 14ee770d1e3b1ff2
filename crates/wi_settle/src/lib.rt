//! One question for many outages: a search tells of all outages off its way, or of all that take no more out than it let fail, and
//! only what is left is asked for one outage at a time.
#![tactic(auto)]

mod asking;
mod during;
mod found;
mod free;
mod lookup;
mod sets;
mod settled;
mod settling;
mod used;

pub use during::ask_during;
pub use found::Found;
pub use lookup::settled_for;
pub use settled::{Settled, Witness};
pub use settling::settle;
