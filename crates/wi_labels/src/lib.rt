//! Labels, the operations on them, and headers: stacks of labels, top first (RFC 3031, sections 3.9 to 3.11).
#![tactic(auto)]

mod header;
mod label;
mod no_memory;
mod ops;
mod rewrite;

pub use header::{Applied, Header, operations_keep_valid};
pub use label::{Class, Label};
pub use no_memory::NoMemory;
pub use ops::{Op, Ops};
