//! Tests of the search on pushdown systems: of the systems themselves, of their reachable heads, of their least summaries, of the
//! runs that are unfolded from these, of the detours that are found by them, and of the bypasses that these are for a plan. They need
//! no more than the public interface of the six crates, and stand in a crate of their own because a crate with tests is proved once
//! without them and once with them.
#![tactic(auto)]

#[cfg(test)]
mod bypasses;
#[cfg(test)]
mod detours;
#[cfg(test)]
mod pds;
#[cfg(test)]
mod reduce;
#[cfg(test)]
mod saturate;
#[cfg(test)]
mod systems;
#[cfg(test)]
mod tables;
#[cfg(test)]
mod witness;
