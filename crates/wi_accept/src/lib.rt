//! What a certificate is refused for, as definitions below both the search that makes certificates and the checker that judges
//! them, with the laws that tie them to what an answer means. It has no code that runs.
#![tactic(auto)]

mod follower;
mod laws;

pub use follower::Follower;
pub use laws::{
    a_certificate_has_one_first_refusal, a_tree_has_one_first_refusal, an_accepted_answer_holds,
    an_accepted_trees_answer_holds, makers_certificates_are_accepted,
    makers_certificates_close_alike, makers_trees_are_accepted, readings_accept_the_same,
    readings_accept_the_same_trees, unused_terms_weigh_nothing,
};
