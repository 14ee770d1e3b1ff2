//! Regular expressions over symbols, and what they match.
#![tactic(auto)]

mod atom;
mod laws;
mod no_memory;
mod regex;

pub use atom::{Atom, Symbol};
pub use laws::star_splits_off;
pub use no_memory::NoMemory;
pub use regex::Regex;
