//! Quantities: weights texts, and what links, hops and ends weigh.
#![tactic(auto)]

mod fault;
mod laws;
mod read;
mod share;
mod vector;
mod written;

pub use fault::WeightFault;
pub use laws::{
    a_text_is_read_one_way, a_text_means_one_vector, a_text_with_a_meaning_has_no_fault,
    runs_weigh_the_sum_of_their_shares,
};
pub use read::read_weights;
pub use share::{Weight, end_weight, first_weight, hop_weight, step_weight};
pub use vector::{Part, Vector};
