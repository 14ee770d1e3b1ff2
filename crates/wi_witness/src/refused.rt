//! A run may be far longer than the table that it is unfolded from. So one over the limit is refused before any of it is made,
//! and its effort is told.
use wi_base::NoMemory;

/// Why a run is not shown.
#[derive(Clone, Copy, Debug, PartialEq, Eq)]
pub enum UnfoldRefused {
    /// The goal's effort is over the limit.
    TooLong { effort: u128 },
    /// Memory ran out.
    Memory,
}

impl From<NoMemory> for UnfoldRefused {
    ghost use Rattle.std.specs.Prelude.{◌≡◌};
    ghost use Rattle.wi_witness.specs.declared.refused.UnfoldRefused.{UnfoldRefused};

    ghost from_gives = { λ _ r. r ≡ UnfoldRefused.Memory };

    fn from(_error: NoMemory) -> Self {
        UnfoldRefused::Memory
    }
}
