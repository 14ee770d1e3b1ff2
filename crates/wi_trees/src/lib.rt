//! Branches of what may fail, each with more links known down or up than the last; trees of branches, and the answers without
//! doubt that a tree shows: definitions, and laws over them. What runs here makes the bounds of a branch.
#![tactic(auto)]

mod branches;
mod laws;

pub use branches::{with_down, with_up};
pub use laws::{
    branch_runs_are_moving_runs, branch_sets_are_allowed_sets, children_are_branches,
    nodes_are_a_tree, runs_that_do_not_fit_split, runs_that_fit_a_branch,
    splits_leave_fewer_groups_free, trees_answer,
};
