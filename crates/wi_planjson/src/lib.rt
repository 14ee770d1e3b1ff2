//! Plans in JSON: over a network each file has a plan, or a first fault with its place; and each plan has a text.
#![tactic(auto)]

mod bypasses;
mod laws;
mod paths;
mod plan;
mod refused;
mod routes;
mod shape;
mod written;

pub use laws::a_line_feed_changes_no_plan;
pub use plan::{read_draft, read_plan};
pub use refused::{Place, PlanRefused};
pub use written::write_plan;
