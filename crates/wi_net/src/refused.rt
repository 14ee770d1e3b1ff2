//! A refusal carries the field at fault, since a reader of files has to name its place. All refusals are `Copy`, and take no
//! memory.
use std::alloc::{AllocError, AllocFailed};
use wi_base::NoMemory;

/// The field at fault, of what is handed in.
#[derive(Clone, Copy, PartialEq, Eq, Debug)]
pub enum Field {
    /// A router or a label; in a table one of its labels.
    Name,
    From,
    Out,
    To,
    In,
    /// The name of a link's risk group.
    Group,
}

/// What there may be only so many of.
#[derive(Clone, Copy, PartialEq, Eq, Debug)]
pub enum Limited {
    Routers,
    Labels,
    Links,
    Rows,
    /// Of all rows.
    Members,
    /// Of one member.
    Operations,
}

/// Why a call of the builder is refused. The builder is then as before.
#[derive(Clone, Copy, PartialEq, Eq, Debug)]
pub enum BuildRefused {
    Memory,
    /// A router's name, a label's name, or a table's link and label came before.
    Repeated,
    /// There is no such router, link or label; or a label's class isn't its own; or a link leaves another router.
    Unknown(Field),
    /// Another link has this end.
    Taken(Field),
    EmptyGroup,
    /// There are so many already, and no more may be added.
    Limit(Limited, u32),
    /// A name has 1 to 32 bytes and neither a control character nor a quotation mark.
    BadName(Field),
}

impl From<NoMemory> for BuildRefused {
    ghost use Rattle.std.specs.Prelude.{◌≡◌};
    ghost use Rattle.wi_net.specs.declared.refused.BuildRefused.{BuildRefused};

    ghost from_gives = { λ _ r. r ≡ BuildRefused.Memory };

    fn from(_error: NoMemory) -> Self {
        BuildRefused::Memory
    }
}

impl From<AllocError> for BuildRefused {
    ghost use Rattle.std.specs.Prelude.{◌≡◌};
    ghost use Rattle.wi_net.specs.declared.refused.BuildRefused.{BuildRefused};

    ghost from_gives = { λ _ r. r ≡ BuildRefused.Memory };

    fn from(_error: AllocError) -> Self {
        BuildRefused::Memory
    }
}

impl<T: Drop> From<AllocFailed<T>> for BuildRefused {
    ghost use Rattle.std.specs.Prelude.{◌≡◌};
    ghost use Rattle.wi_net.specs.declared.refused.BuildRefused.{BuildRefused};

    ghost from_gives = { λ _ r. r ≡ BuildRefused.Memory };

    fn from(_error: AllocFailed<T>) -> Self {
        BuildRefused::Memory
    }
}
