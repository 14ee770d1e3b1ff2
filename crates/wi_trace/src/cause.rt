//! The causes of both replays are one type, since the walk and the order of causes are one; each replay has some that it never
//! gives. A refusal is `Copy` and takes no memory.
use wi_base::NoMemory;
use wi_net::LinkId;

/// Why a step or an end isn't allowed. Where there are several causes, the first in this order is given.
#[derive(Clone, Copy, PartialEq, Eq, Debug)]
pub enum Cause {
    /// The first link or a label with its class isn't in the network, the header isn't valid, or the first link is failed.
    BadStart,
    /// The entry has no group of this number.
    NoGroup,
    /// The group has no member of this number.
    NoMember,
    /// Under one set: another group is the first that has a link outside it, or none is.
    NotFirstActive,
    /// In the moving world: so many risk groups, besides those known to be down, must fail before the group is used, and
    /// that is too many.
    TooManyBefore(usize),
    /// In the moving world: this link must fail before the group is used, and is known to be up. It is the least such link.
    NeedsUp(LinkId),
    /// Under one set: the member's link is failed.
    LinkFailed,
    /// In the moving world: the member's link is among those that must fail before the group is used, or known to be down.
    LinkBefore,
    /// This operation of the member, from 0, is the first that isn't defined.
    Undefined(usize),
    /// Of an end without an active group: this group, from 0, is the first that has a link outside the set.
    Active(usize),
    /// Of an end at a member: its operations are defined.
    Defined,
}

/// Why a run isn't replayed.
#[derive(Clone, Copy, PartialEq, Eq, Debug)]
pub enum ReplayRefused {
    /// The first step that isn't allowed, and its first cause. Steps count from 1, the start is step 0, and the end is the step
    /// after the last.
    Fault { step: usize, cause: Cause },
    Memory,
}

impl From<NoMemory> for ReplayRefused {
    ghost use Rattle.std.specs.Prelude.{◌≡◌};
    ghost use Rattle.wi_trace.specs.declared.cause.ReplayRefused.{ReplayRefused};

    ghost from_gives = { λ _ r. r ≡ ReplayRefused.Memory };

    fn from(_error: NoMemory) -> Self {
        ReplayRefused::Memory
    }
}
