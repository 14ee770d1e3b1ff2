//! Tests of headers, of networks, of network files, of plans in them, of headers on the wire and of outages that need only what
//! `wi_labels`, `wi_net`, `wi_netjson`, `wi_planjson`, `wi_wire` and `wi_outage` offer to all: here they don't make those crates be
//! proved a second time, since a crate that has tests is.
#![tactic(auto)]

#[cfg(test)]
mod building;
#[cfg(test)]
mod common;
#[cfg(test)]
mod faults;
#[cfg(test)]
mod headers;
#[cfg(test)]
mod limits;
#[cfg(test)]
mod networks;
#[cfg(test)]
mod outages;
#[cfg(test)]
mod plans;
#[cfg(test)]
mod risks;
#[cfg(test)]
mod sets;
#[cfg(test)]
mod texts;
#[cfg(test)]
mod wire;
