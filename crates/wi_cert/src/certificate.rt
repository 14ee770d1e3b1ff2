//! A certificate, and the places of its lines.
use crate::closed::{Closed, ClosedPlace};
use crate::shown::{Shown, ShownPlace};

/// The plain numbers of a certificate: the answer with the run that shows it, and what bounds every other run. Any numbers may
/// stand here; `encode` says which have a text.
#[derive(Drop)]
pub struct Certificate {
    pub shown: Shown,
    pub closed: Closed,
}

/// What line is asked.
#[derive(Clone, Copy, Debug, PartialEq, Eq)]
pub enum Place {
    /// The first line, which names the format.
    Title,
    /// A line that shows the answer.
    Shown(ShownPlace),
    /// A line that bounds every run.
    Closed(ClosedPlace),
    /// The last line.
    End,
    /// No line: the text ends.
    Done,
}
