//! Networks that are made: rings of any size, to try the program on.
#![tactic(auto)]

mod groups;
mod laws;
mod links;
mod making;
mod names;
mod parts;
mod ring;
mod rows;
mod texts;

pub use laws::the_texts_have_no_fault;
pub use making::{Generated, generate};
