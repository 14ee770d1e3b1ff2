//! A rule writes two symbols at most (Schwoon 2002), so that all rules have one size; what writes more is several rules. Its
//! tag is a number that runs don't read, so that whoever made a rule can tell what it stands for without a table beside the
//! rules.

/// What a rule writes in the place of the top: nothing, one symbol, or two with the first on top.
#[derive(Clone, Copy, Debug, PartialEq, Eq)]
pub enum Word2 {
    Empty,
    One(u32),
    Two(u32, u32),
}

/// A rule of the head (`from`, `top`): in state `from`, with `top` on top of the stack, it writes `word` in the place of `top`
/// and goes to state `to`. The tag is its maker's own; runs don't read it.
// The widest fields come first, since fields lie as they are declared.
#[derive(Clone, Copy, Debug, PartialEq, Eq)]
pub struct Rule<W> {
    pub weight: W,
    pub from: u64,
    pub to: u64,
    pub tag: u64,
    pub top: u32,
    pub word: Word2,
}

/// The rule at place `at`, from 0, among the rules of the head (`p`, `g`).
#[derive(Clone, Copy, Debug, PartialEq, Eq)]
pub struct RuleId {
    pub p: u64,
    pub g: u32,
    pub at: u32,
}
