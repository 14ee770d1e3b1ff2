//! Queries: what is asked of a network. Each text is a query of it, or has its first fault.
#![tactic(auto)]

mod atoms;
mod bounds;
mod expression;
mod fault;
mod given;
mod laws;
mod names;
mod parts;
mod query;
mod strict;
mod symbols;
mod tree;

pub use expression::Expression;
pub use fault::QueryFault;
pub use given::read_given;
pub use laws::{
    a_query_has_no_fault, a_strict_query_has_no_fault, a_text_asks_one_thing,
    limits_have_these_numbers, signs_have_one_tree,
};
pub use query::{Query, read_query};
pub use strict::{StrictFault, read_strictly};
pub use symbols::SymbolSet;
