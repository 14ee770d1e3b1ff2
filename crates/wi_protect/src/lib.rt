//! Tables for label-switched paths with facility backup (RFC 4090): the network that a plan of paths and bypasses asks for,
//! and where its packets go.
#![tactic(auto)]

mod detours;
mod labels;
mod laws;
mod network;
mod refused;
mod rows;

pub use laws::{labels_are_named, protected_paths};
pub use network::protect;
pub use refused::ProtectRefused;
