//! A node keeps what shows that nothing lighter is in its branch, so that whoever is told the tree need not search again.
use wi_cert::Closed as Leaf;
use wi_net::LinkId;
use wi_quantity::Weight;

/// What was found at a branch. A leaf has the least closed heads and pairs there, and the least summaries below what bounds its
/// runs.
#[derive(Drop)]
pub enum Opened {
    /// No matching moving run of it weighs less than the least one that fitted so far.
    Closed(Leaf),
    /// The least one fits it, weighs this, and less than each that fitted so far.
    Fits(Weight, Leaf),
    /// The least one doesn't fit it: it is split by this link.
    Split(LinkId),
}
