//! No contract can say what a stream took, so this sink tells nothing, and counts the calls that failed. A piece is written
//! whole in its own call, and nothing of it is kept.
ghost use Rattle.std.specs.Prelude.{◌≡◌, ℕ, [], false};

use crate::transfer::write_whole;
use std::io::Write;
use std::marker::Model;
use wi_base::{PutRefused, Sink};

/// A stream that bytes are written to at once. It doesn't tell what was written, and counts its failed calls.
#[derive(Drop)]
pub struct StreamSink<W: Write + Drop> {
    to: W,
    faults: u64,
}

impl<W: Write + Drop> Model for StreamSink<W> {
    ghost use Rattle.std.specs.Prelude.{ℕ};

    ghost Value = { ℕ };

    ghost view = { λ s. s.faults };
}

impl<W: Write + Drop> StreamSink<W> {
    /// No call has failed yet.
    pub fn new(to: W) -> StreamSink<W>
        ensures { result ≡ 0 }
    {
        StreamSink { to, faults: 0 }
    }

    /// How many calls failed, up to `u64::MAX`.
    pub fn faults(&self) -> u64
        ensures { result ≡ self.now }
    {
        self.faults
    }
}

impl<W: Write + Drop> Sink for StreamSink<W> {
    ghost seen = { λ s. record { told = false; written = []; faults = s } };

    fn put(&mut self, piece: &[u8]) -> Result<(), PutRefused> {
        match write_whole(&mut self.to, piece) {
            Ok(()) => Ok(()),
            Err(_) => {
                self.faults = self.faults.saturating_add(1);
                Err(PutRefused::Failed)
            }
        }
    }
}
