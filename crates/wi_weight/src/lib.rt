//! Weights of runs: what a weight is, the laws that each kind of weight keeps, and four kinds.
#![tactic(auto)]

mod domain;
mod kinds;

pub use domain::Domain;
pub use kinds::{Effort, Pair, Reach, Terms};
