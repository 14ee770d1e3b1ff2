//! Tests of the program, over files and streams in memory: its worked answers, its faults and what stands after a call that fails.
//! They need no more than `run`, and stand in a crate of their own because a crate with tests is proved once without them and once
//! with them.
#![tactic(auto)]

#[cfg(test)]
mod answers;
#[cfg(test)]
mod audits;
#[cfg(test)]
mod bypasses;
#[cfg(test)]
mod called;
#[cfg(test)]
mod certificates;
#[cfg(test)]
mod doubles;
#[cfg(test)]
mod drawings;
#[cfg(test)]
mod drops;
#[cfg(test)]
mod edges;
#[cfg(test)]
mod exact;
#[cfg(test)]
mod faults;
#[cfg(test)]
mod outages;
#[cfg(test)]
mod packets;
#[cfg(test)]
mod plays;
#[cfg(test)]
mod protect;
#[cfg(test)]
mod returns;
#[cfg(test)]
mod ring;
#[cfg(test)]
mod rings;
#[cfg(test)]
mod samples;
#[cfg(test)]
mod tolerate;
