//! Networks: routers, links in risk groups, labels and tables; sets of failed links; and a builder that takes a network
//! part by part.
#![tactic(auto)]

mod bounds;
mod builder;
mod fails;
mod groups;
mod laws;
mod limits;
mod links;
mod names;
mod network;
mod parts;
mod refused;
mod risk_groups;
mod table;
mod tables;

pub use bounds::Bounds;
pub use builder::{NetworkBuilder, is_name};
pub use fails::FailSet;
pub use groups::first_active;
pub use laws::limits_have_these_numbers;
pub use limits::{LABEL_LIMIT, LINK_LIMIT, MEMBER_LIMIT, OPERATION_LIMIT, ROUTER_LIMIT, ROW_LIMIT};
pub use network::{Counts, Network};
pub use parts::{Group, Link, LinkId, Member, NameId, RouterId, TableRow};
pub use refused::{BuildRefused, Field, Limited};
