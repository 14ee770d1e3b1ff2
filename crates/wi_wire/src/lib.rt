//! Label stacks as they are on the wire (RFC 3032, section 2.1), and the labels of a network as values there.
#![tactic(auto)]

mod entry;
mod laws;
mod refused;
mod stack;
mod values;

pub use entry::Entry;
pub use laws::{bytes_begin_with_one_stack, entries_give_the_header_again};
pub use refused::{NoValue, StackRefused};
pub use stack::{read_stack, write_stack};
pub use values::{entries_of, header_of};
