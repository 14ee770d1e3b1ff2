//! The real edge: files of the system as a shelf, and a standard stream as a sink.
#![tactic(auto)]

mod file_shelf;
mod store;
mod stream_sink;
#[cfg(test)]
mod tests;
mod transfer;

pub use file_shelf::FileShelf;
pub use stream_sink::StreamSink;
