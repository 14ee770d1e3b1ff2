//! Detours: least ways around a link, no link of which fails with it. A least detour is a least summary of a small pushdown system
//! (Schwoon 2002, chapter 3), so that there is no search here.
#![tactic(auto)]

mod around;
mod graph;
mod least;

pub use graph::Graph;
pub use least::detour;
