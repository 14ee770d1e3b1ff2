//! The checker of certificates and of trees: it believes nothing of the search that wrote them, and accepts only true answers.
#![tactic(auto)]

mod bounded;
mod checker;
mod closing;
mod heads;
mod lists;
mod matched;
mod rows;
mod run;
mod shown;
mod tree;
mod weighed;
mod weights;

pub use checker::{Accepted, check};
pub use tree::check_tree;
