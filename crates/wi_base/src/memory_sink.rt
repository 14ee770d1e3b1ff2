//! Contracts can speak of what was written only over a sink that tells it, and this one does. It also fails at the calls whose
//! numbers it was given, after as many bytes as was said, so that a call that fails halfway can be tried. It keeps all that was
//! written.
ghost use Rattle.std.specs.Prelude.{◌≡◌, ℕ, ◌+◌, ◌-◌, ◌^◌, min, [], ◌++◌, take, true, List, None, ◌⊎◌, OnOk, OnErr, IfSome, IsErrOf};
ghost use Rattle.wi_base.specs.Sink.{Counts};
ghost use Rattle.wi_base.specs.MemorySink.{failing_at};

use crate::no_memory::NoMemory;
use crate::sink::{PutRefused, Sink};
use std::alloc::Global;
use std::marker::Model;

/// A call of `put` that is to fail: its number, from 0, and how many bytes of its piece it writes before
/// it fails. Where the piece is shorter it writes all of it.
#[derive(Clone, Copy, PartialEq, Eq, Debug)]
pub struct FailingPut {
    pub call: u64,
    pub taken: usize,
}

/// Bytes in memory. It tells what was written. Calls of `put` are numbered from 0.
#[derive(Drop)]
pub struct MemorySink {
    bytes: Vec<u8>,
    faults: u64,
    failing: Vec<FailingPut>,
    calls: u64,
}

impl Model for MemorySink {
    ghost use Rattle.wi_base.specs.MemorySink.{Written};

    ghost Value = { Written };

    ghost view = { λ s. record { bytes = s.bytes.items; faults = s.faults; failing = s.failing.items; calls = s.calls } };
}

impl MemorySink {
    /// Nothing written, and no call that is to fail.
    pub fn new(alloc: Global) -> MemorySink
        ensures { result ≡ record { bytes = []; faults = 0; failing = []; calls = 0 } }
    {
        MemorySink::failing(alloc, Vec::new(alloc))
    }

    /// Nothing written, and a list of the calls that are to fail. Of two with one number the first counts.
    pub fn failing(alloc: Global, puts: Vec<FailingPut>) -> MemorySink
        ensures { result ≡ record { bytes = []; faults = 0; failing = puts.items; calls = 0 } }
    {
        MemorySink {
            bytes: Vec::new(alloc),
            faults: 0,
            failing: puts,
            calls: 0,
        }
    }

    /// The bytes written so far.
    pub fn written(&self) -> &[u8]
        ensures { result.now ≡ self.now.bytes }
    {
        self.bytes.as_slice()
    }

    /// How many calls failed, up to `u64::MAX`.
    pub fn faults(&self) -> u64
        ensures { result ≡ self.now.faults }
    {
        self.faults
    }
}

// How a call is to fail, if it is.
fn failing_at(failing: &[FailingPut], call: u64) -> Option<FailingPut>
    ensures { result ≡ failing_at failing.now call }
{
    failing.iter().find(|put| put.call == call).copied()
}

// Writes all of a piece, or nothing of it.
fn append(bytes: &mut Vec<u8>, piece: &[u8]) -> Result<(), PutRefused>
    ensures ok { OnOk result (bytes.new.items ≡ bytes.old.items ++ piece.now) }
    ensures err { OnErr result (bytes.new.items ≡ bytes.old.items) }
    ensures cause { IsErrOf result PutRefused.Failed → ⊥ }
{
    match bytes.extend_from_slice(piece) {
        Ok(()) => Ok(()),
        Err(_) => Err(PutRefused::Memory),
    }
}

impl Sink for MemorySink {
    ghost seen = { λ s. record { told = true; written = s.bytes; faults = s.faults } };

    fn put(&mut self, piece: &[u8]) -> Result<(), PutRefused>
        ensures ok { OnOk result (self.new.bytes ≡ self.old.bytes ++ piece.now) }
        ensures failed { IsErrOf result PutRefused.Failed → ((n : ℕ) × (self.new.bytes ≡ self.old.bytes ++ take n piece.now)) }
        ensures memory { IsErrOf result PutRefused.Memory → self.new.bytes ≡ self.old.bytes }
        ensures faults { Counts result self.old.faults self.new.faults }

        // What is to fail fails, unless memory runs out, and nothing else does.
        ensures to_fail { IfSome (failing_at self.old.failing self.old.calls) (λ f. IsErrOf result PutRefused.Memory ⊎ (IsErrOf result PutRefused.Failed × (self.new.bytes ≡ self.old.bytes ++ take f.taken piece.now))) }
        ensures counted { IsErrOf result PutRefused.Failed → self.new.faults ≡ min (self.old.faults + 1) (2 ^ 64 - 1) }
        ensures sure { failing_at self.old.failing self.old.calls ≡ None → IsErrOf result PutRefused.Failed → ⊥ }
        ensures list { self.new.failing ≡ self.old.failing }
        ensures calls { self.new.calls ≡ min (self.old.calls + 1) (2 ^ 64 - 1) }
    {
        let call = self.calls;
        self.calls = call.saturating_add(1);
        match failing_at(&self.failing, call) {
            None => append(&mut self.bytes, piece),
            Some(put) => {
                append(&mut self.bytes, &piece[..put.taken.min(piece.len())])?;
                self.faults = self.faults.saturating_add(1);
                Err(PutRefused::Failed)
            }
        }
    }
}
