//! Tests of exact answers. They need no more than the public interface, and stand in a crate of their own because a crate with
//! tests is proved once without them and once with them.
#![tactic(auto)]

#[cfg(test)]
mod audits;
#[cfg(test)]
mod exact;
#[cfg(test)]
mod large;
#[cfg(test)]
mod settling;
#[cfg(test)]
mod tolerance;
