//! A network and a query as a pushdown system (AalWiNes, CoNEXT 2020): the rules of each head as they are asked for, or all of
//! them in a list.
#![tactic(auto)]

mod first;
mod head;
mod laws;
mod layout;
mod lazy;
mod listed;
mod needs;
mod problem;
mod states;
mod tag;
mod travel;
mod weights;

pub use laws::{
    a_no_of_loss_is_survival, goal_runs_answer_the_query, goal_runs_are_matching_runs,
    heads_have_few_rules, lists_have_the_rules, problems_have_encodings,
    readings_have_the_same_rules, rules_are_few_and_fit, systems_have_the_rules, weights_fit,
};
pub use layout::Layout;
pub use lazy::LazySystem;
pub use listed::build;
pub use problem::Problem;
pub use wi_rules::{Origin, Spot};
