//! Least summaries of a weighted pushdown system, by saturation.
//! Schwoon 2002, "Model-Checking Pushdown Systems", chapter 3; the order of settling is our own.
//!
//! A summary is a state p, a symbol g and a state q such that some run leads from p with g alone to q with nothing.
//! Its least weight is that of the lightest such run.
//!
//! Rows are settled one by one, the lightest first. What a rule and settled rows make is a candidate for the next one, and lies
//! on a heap, if nothing as light was found for its summary. A row that is settled meets the rules that lead to its head, which an index finds, and the rules that have a row
//! for their first symbol and wait for its head as that of their second. Rules, rows and what waits are numbered, and each lies
//! at the place of a head among the listed ones, in a chain from the last to the first.
#![tactic(auto)]

mod chains;
mod frontier;
mod heap;
mod index;
mod joins;
mod laws;
mod lightest;
mod pairs;
mod refused;
mod row;
mod rules;
mod saturation;
mod search;
mod sides;
mod steps;
mod table;
mod turn;
mod waits;
mod weights;

pub use heap::{Candidate, Heap};
pub use laws::rows_below_a_weight_are_closed;
pub use refused::{LeastRefused, Overflow};
pub use row::Row;
pub use saturation::{least, least_counted};
pub use steps::Steps;
pub use table::Table;
