//! Failures and repairs are events like hops, so that a packet may meet other failed links at each hop, as no one set of them
//! can say. An event names one link and means its whole risk group. Each state has a header and a set of its own.
use crate::run::Step;
use wi_labels::Header;
use wi_net::{FailSet, LinkId};

/// What may happen next.
#[derive(Clone, Copy, PartialEq, Eq, Debug)]
pub enum Event {
    /// The link's risk group fails.
    Fail(LinkId),
    /// The link's risk group is repaired.
    Repair(LinkId),
    /// The packet takes a member of the entry where it is.
    Hop(Step),
}

/// Where the packet is, and which links are down.
#[derive(Drop)]
pub struct State {
    pub link: LinkId,
    pub header: Header,
    pub fails: FailSet,
}
