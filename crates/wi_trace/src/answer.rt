//! Word, weight, run and verdict stand side by side, and nothing in the type makes them agree: that an answer holds is a
//! definition of its own, whoever made the answer.
use wi_quantity::Weight;
use wi_world::{Run, Verdict, Word};

/// An answer, with what it shows: nothing for a no.
#[derive(Drop)]
pub struct Answer {
    pub word: Word,
    /// What the run weighs: the values of five terms, those that the vector hasn't being 0, then the effort.
    pub weight: Option<Weight>,
    pub run: Option<Run>,
    pub verdict: Option<Verdict>,
}
