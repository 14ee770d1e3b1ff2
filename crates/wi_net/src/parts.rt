//! Routers, links and interface names are numbers of types of their own, so that none can be taken for another. They cost no
//! more than the numbers.
use wi_base::Listed;
use wi_labels::{Label, Ops};

/// A router's number: its place in the file.
#[derive(Clone, Copy, PartialEq, Eq, PartialOrd, Ord, Debug)]
pub struct RouterId(pub u32);

/// A link's number: its place in the file.
#[derive(Clone, Copy, PartialEq, Eq, PartialOrd, Ord, Hash, Debug)]
pub struct LinkId(pub u32);

/// The number of an interface's name, in the order in which links name them.
#[derive(Clone, Copy, PartialEq, Eq, Debug)]
pub struct NameId(pub u32);

/// A link from an interface of a router to one of another. It goes in one direction.
#[derive(Clone, Copy, PartialEq, Eq, Debug)]
pub struct Link {
    pub from: RouterId,
    pub out_if: NameId,
    pub to: RouterId,
    pub in_if: NameId,
    /// In the file's unit.
    pub distance: u32,
    /// The least link of its risk group: those fail and are repaired together.
    pub risk: LinkId,
}

/// A way out of a router, and what it does to the header.
#[derive(Drop)]
pub struct Member {
    pub link: LinkId,
    pub ops: Ops,
}

/// Members of equal priority.
pub type Group = Listed<Member>;

/// What a table says of an arrival link and a top label: groups, the first of highest priority.
#[derive(Drop)]
pub struct TableRow {
    pub link: LinkId,
    pub label: Label,
    pub groups: Listed<Group>,
}
