//! A label is its number in its network, so that headers and tables hold no texts. Its class stands beside it, since whether
//! an operation is defined is told by classes alone, without a look into a network.

/// A label's number in its network.
#[derive(Clone, Copy, PartialEq, Eq, PartialOrd, Ord, Hash, Debug, Default)]
pub struct Label(pub u32);

/// Where a label may stand in a header.
#[derive(Clone, Copy, PartialEq, Eq, Hash, Debug, Default)]
pub enum Class {
    /// Anywhere above the bottom of the stack.
    #[default]
    Mpls,
    /// At the bottom of the stack.
    Smpls,
    /// Under the stack, alone.
    Ip,
}
