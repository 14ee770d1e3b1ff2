//! Only labels can be taken or too many: rows and members are few where labels are, so no refusal is of them.
use wi_base::NoMemory;

/// Why a plan's network can't be made. The limits on rows and members are never met: there are at most three rows for each
/// new label, and two members for each row.
#[derive(Clone, Copy, PartialEq, Eq, Debug)]
pub enum ProtectRefused {
    Memory,
    /// The network has a label of a new label's name.
    TakenLabel,
    /// There would be more than 20,000 labels.
    TooManyLabels,
}

impl From<NoMemory> for ProtectRefused {
    ghost use Rattle.std.specs.Prelude.{◌≡◌};
    ghost use Rattle.wi_protect.specs.declared.refused.ProtectRefused.{ProtectRefused};

    ghost from_gives = { λ _ r. r ≡ ProtectRefused.Memory };

    fn from(_error: NoMemory) -> Self {
        ProtectRefused::Memory
    }
}
