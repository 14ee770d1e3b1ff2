//! Networks in JSON: each file is a network, or has a first fault with its place.
#![tactic(auto)]

mod fault;
mod file;
mod labels;
mod laws;
mod links;
mod operations;
mod room;
mod routers;
mod shape;
mod tables;
mod written;

pub use fault::{LinkPart, MemberPart, NetFault, Place, TablePart};
pub use file::{NETWORK_LIMIT, read_network};
pub use laws::{a_line_feed_changes_nothing, limits_have_these_numbers};
pub use written::{network_members, write_network};
