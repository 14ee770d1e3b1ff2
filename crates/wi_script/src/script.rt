//! Causes of reading and of playing are one type, since both are told of a line, in one form. They stand in the order in which
//! they are looked for. A refusal is `Copy` and takes no memory.
use wi_base::{Listed, NoMemory};
use wi_labels::Header;
use wi_net::LinkId;
use wi_world::Event;

/// Where a packet is at first, and what happens then.
#[derive(Drop)]
pub struct Script {
    pub first: LinkId,
    /// A valid header.
    pub header: Header,
    pub events: Listed<Event>,
}

/// Why a line of a script is refused. Where there are several causes, the first in this order is given.
#[derive(Clone, Copy, PartialEq, Eq, Debug)]
pub enum ScriptCause {
    /// The line isn't of the form of an event, or isn't UTF-8, or has no line feed, or isn't there.
    NotAnEvent,
    /// A link or a label isn't in the network.
    UnknownName,
    /// The header of the first line isn't valid.
    BadHeader,
    /// The link that is to fail is failed.
    AlreadyFailed,
    /// The link that is to be repaired isn't failed.
    NotFailed,
    /// As many risk groups are failed as may be.
    TooManyFailed,
    /// The entry has no group of this number.
    NoSuchGroup,
    /// The group has no member of this number.
    NoSuchMember,
    /// Another group is the first that has a link which isn't failed, or none is.
    NotFirstActive,
    /// The member's link is failed.
    LinkFailed,
    /// This operation of the member, from 0, is the first that isn't defined.
    Undefined(usize),
}

/// Why a script isn't read or played.
#[derive(Clone, Copy, PartialEq, Eq, Debug)]
pub enum ScriptRefused {
    /// The first line with a fault, from 1, and its first cause.
    BadLine(usize, ScriptCause),
    Memory,
}

impl From<NoMemory> for ScriptRefused {
    ghost use Rattle.std.specs.Prelude.{◌≡◌};
    ghost use Rattle.wi_script.specs.declared.script.ScriptRefused.{ScriptRefused};

    ghost from_gives = { λ _ r. r ≡ ScriptRefused.Memory };

    fn from(_error: NoMemory) -> Self {
        ScriptRefused::Memory
    }
}
