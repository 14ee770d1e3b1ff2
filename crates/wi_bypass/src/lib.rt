//! The bypasses that a plan lacks (facility backup, RFC 4090, 3.2): a least detour for each inner link of its paths that has none, and
//! which inner links are left without protection.
#![tactic(auto)]

mod inner;
mod laws;
mod marks;
mod missing;
mod whole;

pub use laws::a_plan_without_unprotected_links_survives;
pub use missing::{Found, bypasses};
pub use whole::with_found;
