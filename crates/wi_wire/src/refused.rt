//! A refusal carries what its text names, and no text, so it takes no memory.
use wi_base::NoMemory;
use wi_labels::Label;

/// Why bytes are no stack. Entries count from 0, the top.
#[derive(Clone, Copy, PartialEq, Eq, Debug)]
pub enum StackRefused {
    Memory,
    /// Fewer than four bytes are left for this entry, and none before it was the bottom one.
    Cut(usize),
    /// This entry's label is reserved.
    Reserved(usize, u32),
}

impl From<NoMemory> for StackRefused {
    ghost use Rattle.std.specs.Prelude.{◌≡◌};
    ghost use Rattle.wi_wire.specs.declared.refused.StackRefused.{StackRefused};

    ghost from_gives = { λ _ r. r ≡ StackRefused.Memory };

    fn from(_error: NoMemory) -> Self {
        StackRefused::Memory
    }
}

/// Why a header has no entries.
#[derive(Clone, Copy, PartialEq, Eq, Debug)]
pub enum NoValue {
    Memory,
    /// The first label from the top whose name gives no value.
    Label(Label),
}

impl From<NoMemory> for NoValue {
    ghost use Rattle.std.specs.Prelude.{◌≡◌};
    ghost use Rattle.wi_wire.specs.declared.refused.NoValue.{NoValue};

    ghost from_gives = { λ _ r. r ≡ NoValue.Memory };

    fn from(_error: NoMemory) -> Self {
        NoValue::Memory
    }
}
