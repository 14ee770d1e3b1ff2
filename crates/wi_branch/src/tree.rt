//! The tree is made once all branches were opened: only then is it known what is shown, and so which rows of each leaf a checker
//! needs. Of a leaf's rows those that weigh less are kept where they stand, and nothing is copied.
ghost use Rattle.std.specs.Prelude.{◌≡◌, map, filter, IfOk};
ghost use Rattle.std.specs.Cmp.Lexicographic.{slice_cmp};
ghost use Rattle.std.specs.Ordering.{nat_cmp};
ghost use Rattle.wi_cert.specs.Closed.{is_less, is_lighter};
ghost use Rattle.wi_decide.specs.Searches.{lowered};
ghost use Rattle.wi_branch.specs.Exactly.{node_under};

use crate::course::put;
use crate::opened::Opened;
use std::alloc::Global;
use std::cmp::Ordering;
use wi_base::{Listed, NoMemory};
use wi_cert::{Claim, Closed, Node, Row, Shown};

/// What was opened as the nodes of a tree, under what is shown.
pub(crate) fn nodes_of(
    alloc: Global,
    opened: Vec<Opened>,
    shown: &Shown,
) -> Result<Vec<Node>, NoMemory>
    ensures { IfOk result (λ nodes. nodes.items ≡ map (node_under shown.now) opened.items) }
{
    let mut nodes = Vec::new(alloc);
    for node in opened {
        put(&mut nodes, node_under(shown, node))?;
    }
    Ok(nodes)
}

// What was opened as a node.
fn node_under(shown: &Shown, node: Opened) -> Node
    ensures { result ≡ node_under shown.now node }
{
    match node {
        Opened::Closed(leaf) => Node::Closed(lowered(shown, leaf)),
        Opened::Fits(_, leaf) => Node::Closed(lowered(shown, leaf)),
        Opened::Split(link) => Node::Split(link.0),
    }
}

// A leaf with those rows alone that weigh less than what is shown.
fn lowered(shown: &Shown, leaf: Closed) -> Closed
    ensures { result ≡ lowered shown.now leaf }
{
    let Closed { heads, pairs, rows } = leaf;
    let mut rows = rows.into_vec();
    keep_lighter(shown, &mut rows);
    Closed {
        heads,
        pairs,
        rows: Listed::of(rows),
    }
}

// Keeps the rows that weigh less than what is shown.
fn keep_lighter(shown: &Shown, rows: &mut Vec<Row>)
    ensures { rows.new.items ≡ filter (is_lighter shown.now) rows.old.items }
{
    rows.retain(|row| is_lighter(shown, row));
    rows.shrink_to_fit();
}

// Whether a row weighs less than what is shown; of a no, each may stand.
fn is_lighter(shown: &Shown, row: &Row) -> bool
    ensures { result ≡ is_lighter shown.now row.now }
{
    shown.claim == Claim::No || is_below(row.weight.as_slice(), shown.weight.as_slice())
}

// Whether the first numbers come before the second ones, as words in a dictionary.
fn is_below(first: &[u64], second: &[u64]) -> bool
    ensures { result ≡ is_less (slice_cmp nat_cmp first.now second.now) }
{
    match first.cmp(second) {
        Ordering::Less => true,
        Ordering::Equal => false,
        Ordering::Greater => false,
    }
}
