//! What every other crate stands on: the edges of the program as traits, decimals, and lists in public structs.
#![tactic(auto)]

mod decimal;
mod failed_call;
mod list;
mod memory_shelf;
mod memory_sink;
mod no_memory;
mod shelf;
mod sink;

pub use decimal::{read_decimal, write_decimal};
pub use failed_call::{FailedCall, room_to_note};
pub use list::Listed;
pub use memory_shelf::MemoryShelf;
pub use memory_sink::{FailingPut, MemorySink};
pub use no_memory::NoMemory;
pub use shelf::{CallKind, FetchRefused, Shelf, StoreRefused};
pub use sink::{PutRefused, Sink};
