//! A run has its first link and header, the choices at each hop and its end, and not what follows from these by the tables: so a run
//! that isn't one can be written down, and judged. A step takes two numbers, and links and headers on the way have to be
//! computed. An end is one more step, which leads nowhere: it needs failures, has a share of the weight, and may be impossible, as a
//! step may.
use wi_base::Listed;
use wi_labels::Header;
use wi_net::LinkId;

/// A member of an entry: the group's number and the member's in it, from 0.
#[derive(Clone, Copy, PartialEq, Eq, Debug)]
pub struct Step {
    pub group: u32,
    pub member: u32,
}

/// How a run ends where its steps have led.
#[derive(Clone, Copy, PartialEq, Eq, Debug)]
pub enum End {
    /// The packet arrives: nothing more happens to it.
    Arrives,
    /// It is dropped since no group has a link that isn't failed: there is no row, or no group in it, or all their links are failed.
    Inactive,
    /// It is dropped on the way through this member, one of whose operations isn't defined then.
    Undefined(Step),
}

/// The first link and header of a packet, the members that it takes, and what becomes of it then.
#[derive(Drop)]
pub struct Run {
    pub first: LinkId,
    pub header: Header,
    pub steps: Listed<Step>,
    pub end: End,
}

/// What is added up over a run; smaller is better.
#[derive(Clone, Copy, PartialEq, Eq, Debug)]
pub enum Quantity {
    /// The links on the run.
    Links,
    /// The links whose source isn't their target.
    Hops,
    /// The links' distances, in the file's unit.
    Distance,
    /// Over the steps, the risk groups that must have failed before the step's group is used; and those that must for the end.
    Failures,
    /// Over the steps, by how many labels the header grows.
    Tunnels,
}
