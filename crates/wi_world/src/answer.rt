//! A verdict has what speaks against a run, a count or a link, since whoever gets an inconclusive answer asks for it. These
//! types stand below all searches and replays, so that both speak of the same.
use wi_net::{FailSet, LinkId};

/// Whether a run's own failures are allowed.
#[derive(Drop)]
pub enum Verdict {
    /// They are, and they are these links.
    Fits(FailSet),
    /// They are so many risk groups besides those known to be down, and that is too many.
    Exceeds(usize),
    /// The run uses this link, which must have failed: the first such link.
    UsesFailed(LinkId),
}

/// The answer's word.
#[derive(Clone, Copy, PartialEq, Eq, Debug)]
pub enum Word {
    Yes,
    No,
    Inconclusive,
}
