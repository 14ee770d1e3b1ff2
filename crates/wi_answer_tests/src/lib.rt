//! Tests of the way from a query to its answer: rules, decisions, reports. They need no more than the public interface, and
//! stand in a crate of their own because a crate with tests is proved once without them and once with them.
#![tactic(auto)]

#[cfg(test)]
mod build;
#[cfg(test)]
mod common;
#[cfg(test)]
mod decide;
#[cfg(test)]
mod report;
#[cfg(test)]
mod searching;
