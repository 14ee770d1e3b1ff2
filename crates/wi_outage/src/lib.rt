//! Outages: the links that are down at once while a risk group, or a router, is taken out for a maintenance; and what one answer
//! tells of other outages, so that few have to be asked for by a search.
#![tactic(auto)]

mod groups;
mod laws;
mod outage;
mod routers;
mod sets;
mod survival;

pub use groups::group_outages;
pub use laws::{
    a_no_at_one_more_survives, a_run_survives_an_outage, outages_keep_bounds,
    what_is_found_is_kept_up,
};
pub use outage::Outage;
pub use routers::router_outages;
pub use sets::are_apart;
pub use survival::is_survived;
