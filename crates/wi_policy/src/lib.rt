//! Policies: questions over a network with the answers that they are to have, read from a file of lines.
#![tactic(auto)]

mod bounds;
mod laws;
mod line;
mod policy;
mod read;

pub use laws::a_file_has_its_policies_or_one_fault;
pub use policy::{LineFault, PoliciesRefused, Policy, asked_by};
pub use read::read_policies;
