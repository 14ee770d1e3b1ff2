//! Want of memory is merged with no other cause: all others can then be exact, and this one alone is free. The two errors of
//! std become one here, so that `?` serves for both; a value that there was no room for is let go.
use std::alloc::{AllocError, AllocFailed};

/// Memory ran out. What was lent is as before, unless the call says otherwise.
#[derive(Clone, Copy, PartialEq, Eq, Debug)]
pub enum NoMemory {
    Memory,
}

impl From<AllocError> for NoMemory {
    ghost use Rattle.std.specs.Prelude.{◌≡◌};
    ghost use Rattle.wi_base.specs.declared.no_memory.NoMemory.{NoMemory};

    ghost from_gives = { λ _ r. r ≡ NoMemory.Memory };

    fn from(_error: AllocError) -> Self {
        NoMemory::Memory
    }
}

impl<T: Drop> From<AllocFailed<T>> for NoMemory {
    ghost use Rattle.std.specs.Prelude.{◌≡◌};
    ghost use Rattle.wi_base.specs.declared.no_memory.NoMemory.{NoMemory};

    ghost from_gives = { λ _ r. r ≡ NoMemory.Memory };

    fn from(_error: AllocFailed<T>) -> Self {
        NoMemory::Memory
    }
}
