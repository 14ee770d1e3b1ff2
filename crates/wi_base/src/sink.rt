//! A call that fails may have written a front of its piece, since streams do. A sink counts its failed calls, since a body that
//! always answers `Failed` would otherwise keep every contract: it costs one number, which stops at its greatest value.
ghost use Rattle.std.specs.Prelude.{◌≡◌, ℕ, true, ◌++◌, take, OnOk, IsErrOf};
ghost use Rattle.wi_base.specs.Sink.{Counts, SinkSeen};

/// Why a piece wasn't written whole.
#[derive(Clone, Copy, PartialEq, Eq, Debug)]
pub enum PutRefused {
    /// The call failed, and the sink has counted it. A front of the piece was written.
    Failed,
    /// Memory ran out. Nothing was written.
    Memory,
}

/// Where bytes are written. A sink may tell what was written; a standard stream doesn't. Each counts its failed calls.
pub trait Sink {
    /// What is seen of the sink.
    ghost seen: { Self → SinkSeen };

    /// Writes a piece after what was written before.
    fn put(&mut self, piece: &[u8]) -> Result<(), PutRefused>
        ensures told { (seen self.new).told ≡ (seen self.old).told }
        ensures ok { (seen self.old).told ≡ true → OnOk result ((seen self.new).written ≡ (seen self.old).written ++ piece.now) }
        ensures failed { (seen self.old).told ≡ true → IsErrOf result PutRefused.Failed → ((n : ℕ) × ((seen self.new).written ≡ (seen self.old).written ++ take n piece.now)) }
        ensures memory { (seen self.old).told ≡ true → IsErrOf result PutRefused.Memory → (seen self.new).written ≡ (seen self.old).written }
        ensures faults { Counts result (seen self.old).faults (seen self.new).faults };
}
