//! Heads and pairs are asked for in one order, so one type has both.

/// A head or a pair that follows from a rule of a head: closed heads and pairs have it, too.
#[derive(Clone, Copy, Debug, PartialEq, Eq)]
pub enum Follower {
    /// A spot, with the symbol that may be on top there.
    Head(u64, u32),
    /// A symbol, with one that may stand right below it.
    Pair(u32, u32),
}
