//! Tests of the libraries that know no network: of what all stand on, of weights, and of the texts of certificates. They need no
//! more than the public interface, and stand in a crate of their own because a crate with tests is proved once without them and once
//! with them.
#![tactic(auto)]

#[cfg(test)]
mod base;
#[cfg(test)]
mod cert;
#[cfg(test)]
mod common;
#[cfg(test)]
mod weight;
