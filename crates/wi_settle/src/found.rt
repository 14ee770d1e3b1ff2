//! What is found is no more than a word: of thousands of outages no answer is kept.

/// What is found of a question.
#[derive(Clone, Copy, PartialEq, Eq, Debug)]
pub enum Found {
    /// There is a matching trace.
    Yes,
    /// There is none.
    No,
    /// There is no exact answer by a tree of at most 10,000 nodes.
    Open,
}
