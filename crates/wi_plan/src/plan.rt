//! A plan names links and labels of one network by their numbers.
use wi_base::Listed;
use wi_labels::Label;
use wi_net::LinkId;

/// A path through the network: the `ip` label of its packets, and its links in order.
#[derive(Drop)]
pub struct Path {
    pub ip: Label,
    pub links: Listed<LinkId>,
}

/// A way around a link: its links in order.
#[derive(Drop)]
pub struct Bypass {
    pub link: LinkId,
    pub via: Listed<LinkId>,
}

/// Paths, and bypasses of links.
#[derive(Drop)]
pub struct Plan {
    pub paths: Listed<Path>,
    pub bypasses: Listed<Bypass>,
}
