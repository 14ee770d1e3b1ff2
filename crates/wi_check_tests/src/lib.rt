//! Tests of the checker: certificates that the search writes are accepted, and changed ones are told by their first cause. They need
//! no more than the public interface, and stand in a crate of their own because a crate with tests is proved once without them and
//! once with them.
#![tactic(auto)]

#[cfg(test)]
mod asked;
#[cfg(test)]
mod changed;
#[cfg(test)]
mod made;
