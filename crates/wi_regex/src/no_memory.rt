//! Want of memory has a type of its own here, since this crate stands on no other of the repository. Callers turn it into
//! theirs.
use std::alloc::{AllocError, AllocFailed};

/// Memory ran out. What was lent is as before, unless the call says otherwise.
#[derive(Clone, Copy, PartialEq, Eq, Debug)]
pub enum NoMemory {
    Memory,
}

impl From<AllocError> for NoMemory {
    ghost use Rattle.std.specs.Prelude.{◌≡◌};
    ghost use Rattle.wi_regex.specs.declared.no_memory.NoMemory.{NoMemory};

    ghost from_gives = { λ _ r. r ≡ NoMemory.Memory };

    fn from(_error: AllocError) -> Self {
        NoMemory::Memory
    }
}

impl<T: Drop> From<AllocFailed<T>> for NoMemory {
    ghost use Rattle.std.specs.Prelude.{◌≡◌};
    ghost use Rattle.wi_regex.specs.declared.no_memory.NoMemory.{NoMemory};

    ghost from_gives = { λ _ r. r ≡ NoMemory.Memory };

    fn from(_error: AllocFailed<T>) -> Self {
        NoMemory::Memory
    }
}
