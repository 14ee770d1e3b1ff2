//! Tests of what stands on the moving world: what runs weigh, how they are replayed and judged, and how scripts are read and played.
//! They need no more than the public interface of the three crates, and stand in a crate of their own because a crate with tests is
//! proved once without them and once with them.
#![tactic(auto)]

#[cfg(test)]
mod common;
#[cfg(test)]
mod quantity;
#[cfg(test)]
mod script;
#[cfg(test)]
mod trace;
