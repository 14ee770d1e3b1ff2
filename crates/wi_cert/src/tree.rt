//! A tree of branches, and the places of the lines of its text. The nodes stand in one list in preorder, so that a tree of any
//! shape is read, kept and let go without a recursion.
use crate::closed::{Closed, ClosedPlace};
use crate::shown::{Shown, ShownPlace};
use wi_base::Listed;

/// No tree has so many nodes: the number of its nodes is odd, and at most this.
pub const NODE_LIMIT: u32 = 10_000;

/// A node of a tree of branches.
#[derive(Drop)]
pub enum Node {
    /// The branch is split by this link: the two nodes that follow are its children, each with all that is below it.
    Split(u32),
    /// What bounds every run of the branch.
    Closed(Closed),
}

/// The plain numbers of a tree certificate: the answer with the run that shows it, and the nodes of the tree in preorder. Any
/// numbers may stand here; `encode_tree` says which have a text.
#[derive(Drop)]
pub struct TreeCertificate {
    pub shown: Shown,
    pub nodes: Listed<Node>,
}

/// What line of a tree certificate is asked.
#[derive(Clone, Copy, Debug, PartialEq, Eq)]
pub enum TreePlace {
    /// The first line, which names the format.
    Title,
    /// A line that shows the answer.
    Shown(ShownPlace),
    /// The line that says how many nodes there are.
    NodeCount,
    /// The line of a node. So many nodes are to come, of which it is one, and they make so many trees.
    Node(u64, u64),
    /// A line of a leaf. So many nodes are to come after it, and they make so many trees.
    Leaf(u64, u64, ClosedPlace),
    /// The last line.
    End,
    /// No line: the text ends.
    Done,
}
