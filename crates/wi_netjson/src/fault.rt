//! A fault names one place, as numbers and words of the format, so that it is `Copy` and takes no memory; its text is made
//! only where it is shown.
use std::alloc::AllocFailed;
use thiserror::Error;
use wi_labels::Class;

/// A place in a network file. Numbers count from 0.
#[derive(Clone, Copy, Debug, Error)]
pub enum Place {
    #[error("file")]
    File,
    #[error("format")]
    Format,
    #[error("routers")]
    Routers,
    #[error("routers[{0}]")]
    Router(usize),
    #[error("labels")]
    Labels,
    #[error("labels.{word}", word = class_word(.0))]
    LabelList(Class),
    #[error("labels.{word}[{1}]", word = class_word(.0))]
    LabelName(Class, usize),
    #[error("links")]
    Links,
    #[error("links[{0}]")]
    Link(usize),
    #[error("links[{0}].{1}")]
    LinkPart(usize, LinkPart),
    #[error("tables")]
    Tables,
    #[error("tables[{0}]")]
    Table(usize),
    #[error("tables[{0}].{1}")]
    TablePart(usize, TablePart),
    #[error("tables[{0}].groups[{1}]")]
    Group(usize, usize),
    #[error("tables[{0}].groups[{1}][{2}]")]
    Member(usize, usize, usize),
    #[error("tables[{0}].groups[{1}][{2}].{3}")]
    MemberPart(usize, usize, usize, MemberPart),
    #[error("tables[{0}].groups[{1}][{2}].ops[{3}]")]
    Operation(usize, usize, usize, usize),
}

/// A part of a link.
#[derive(Clone, Copy, Debug, Error)]
pub enum LinkPart {
    #[error("from")]
    From,
    #[error("out")]
    Out,
    #[error("to")]
    To,
    #[error("in")]
    In,
    #[error("distance")]
    Distance,
    /// The name of its risk group.
    #[error("group")]
    Group,
}

/// A part of a table.
#[derive(Clone, Copy, Debug, Error)]
pub enum TablePart {
    #[error("at")]
    At,
    #[error("in")]
    In,
    #[error("label")]
    Label,
    #[error("groups")]
    Groups,
}

/// A part of a member of a group.
#[derive(Clone, Copy, Debug, Error)]
pub enum MemberPart {
    #[error("out")]
    Out,
    #[error("ops")]
    Ops,
}

/// Why a network file wasn't read: its first fault in the order of reading, or want of memory.
#[derive(Clone, Copy, Debug, Error)]
pub enum NetFault {
    #[error("out of memory")]
    Memory,
    /// The bytes aren't UTF-8, or not a JSON text.
    #[error("{0}: not JSON")]
    NotJson(Place),
    /// The part isn't there, or is a value of another kind.
    #[error("{0}: wrong shape")]
    WrongShape(Place),
    #[error("{0}: unknown format")]
    UnknownFormat(Place),
    /// A name has 1 to 32 bytes and neither a control character nor a quotation mark.
    #[error("{0}: bad name")]
    BadName(Place),
    #[error("{0}: repeated router")]
    RepeatedRouter(Place),
    /// A label's name is unique over all three lists.
    #[error("{0}: repeated label")]
    RepeatedLabel(Place),
    #[error("{0}: unknown router")]
    UnknownRouter(Place),
    /// A link before has the same end.
    #[error("{0}: interface taken")]
    InterfaceTaken(Place),
    #[error("{0}: unknown interface")]
    UnknownInterface(Place),
    #[error("{0}: unknown label")]
    UnknownLabel(Place),
    /// A table before is of the same link and label.
    #[error("{0}: repeated table")]
    RepeatedTable(Place),
    #[error("{0}: empty group")]
    EmptyGroup(Place),
    /// An operation is `["swap", L]`, `["push", L]` or `["pop"]`.
    #[error("{0}: bad operation")]
    BadOperation(Place),
    /// There may be only so many.
    #[error("{0}: over the limit {1}")]
    OverLimit(Place, u32),
    /// The number isn't a whole one from 0 to 4,294,967,295.
    #[error("{0}: bad number")]
    BadNumber(Place),
}

fn class_word(class: &Class) -> &'static str {
    match class {
        Class::Mpls => "mpls",
        Class::Smpls => "smpls",
        Class::Ip => "ip",
    }
}

impl<T: Drop> From<AllocFailed<T>> for NetFault {
    ghost use Rattle.std.specs.Prelude.{◌≡◌};
    ghost use Rattle.wi_netjson.specs.declared.fault.NetFault.{NetFault};

    ghost from_gives = { λ _ e. e ≡ NetFault.Memory };

    fn from(_error: AllocFailed<T>) -> Self {
        NetFault::Memory
    }
}

impl From<wi_base::NoMemory> for NetFault {
    ghost use Rattle.std.specs.Prelude.{◌≡◌};
    ghost use Rattle.wi_netjson.specs.declared.fault.NetFault.{NetFault};

    ghost from_gives = { λ _ e. e ≡ NetFault.Memory };

    fn from(_error: wi_base::NoMemory) -> Self {
        NetFault::Memory
    }
}

impl From<wi_labels::NoMemory> for NetFault {
    ghost use Rattle.std.specs.Prelude.{◌≡◌};
    ghost use Rattle.wi_netjson.specs.declared.fault.NetFault.{NetFault};

    ghost from_gives = { λ _ e. e ≡ NetFault.Memory };

    fn from(_error: wi_labels::NoMemory) -> Self {
        NetFault::Memory
    }
}
