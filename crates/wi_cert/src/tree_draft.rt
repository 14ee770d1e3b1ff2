//! A tree certificate of which some lines were read. A leaf is read by itself, as the lists of a certificate are, and joins the
//! nodes at its last line. Nothing is undone: whoever runs out of memory lets the tree go. How many lines were taken is counted
//! from the lengths of the lists, once a line is bad: that takes the time of the nodes, and no count has to be kept.
ghost use Rattle.std.specs.Prelude.{◌≡◌, ◌*◌, ◌^◌, ◌<◌, ◌≤◌, ◌&&◌, false, Some, None, IfOk, length, codes, nat_lt, option_map, option_and_then, if◌then◌else◌};
ghost use Rattle.std.specs.Option.{option_map_or};
ghost use Rattle.wi_cert.specs.Numbers.{count_after};
ghost use Rattle.wi_cert.specs.Closed.{asked_closed};
ghost use Rattle.wi_cert.specs.Trees.{tree_sheet, blank_tree, nodes_left, asked_decided, asked_node, leaf_left, asked_tree, can_make, is_inconclusive, is_whole_tree, trees};
ghost use Rattle.wi_cert.specs.private.Marks.{Keeps};
ghost use Rattle.wi_cert.specs.private.TreeMarks.{tree_rank, node_line_count, nodes_line_count, tree_line_count, HasRoom, is_undecided};

use crate::closed::{ClosedDraft, ClosedPlace};
use crate::draft::{closed_rank, dropped_count, shown_rank};
use crate::line::{count_after, is_line};
use crate::shown::{Dropped, ShownDraft, ShownPlace};
use crate::take_lines::TakeLines;
use crate::tree::{NODE_LIMIT, Node, TreeCertificate, TreePlace};
use std::alloc::Global;
use std::marker::Model;
use wi_base::{Listed, NoMemory};

// The place of the next line, and what the lines so far say.
#[derive(Drop)]
pub(crate) struct TreeDraft {
    place: TreePlace,
    shown: ShownDraft,
    nodes: Vec<Node>,
    // The leaf that is being read.
    leaf: ClosedDraft,
    // The numbers of the line that is being read.
    numbers: Vec<u64>,
}

impl Model for TreeDraft {
    ghost use Rattle.std.specs.Prelude.{◌≡◌, false, length};
    ghost use Rattle.wi_cert.specs.Trees.{TreeSheet, tree_sheet, is_inconclusive};

    ghost Value = { TreeSheet };

    ghost use Rattle.wi_cert.specs.private.TreeMarks.{HasRoom};

    ghost view = { λ d. tree_sheet d.place (record { shown = d.shown; nodes = d.nodes.items }) d.leaf };

    ghost invariant = { λ d. HasRoom d.place (length d.nodes.items) × (is_inconclusive d.shown.claim ≡ false) };
}

impl TreeDraft {
    // No line was read.
    pub(crate) fn new(alloc: Global) -> TreeDraft
        ensures { result ≡ blank_tree }
    {
        TreeDraft {
            place: TreePlace::Title,
            shown: ShownDraft::new(alloc),
            nodes: Vec::new(alloc),
            leaf: ClosedDraft::new(alloc),
            numbers: Vec::new(alloc),
        }
    }

    pub(crate) fn is_done(&self) -> bool
        ensures { result ≡ is_whole_tree self.now.place }
    {
        matches!(self.place, TreePlace::Done)
    }

    // The tree certificate so far. It takes no memory.
    pub(crate) fn finish(self) -> TreeCertificate
        ensures { result ≡ self.tree }
    {
        let TreeDraft {
            place: _,
            shown,
            nodes,
            leaf,
            numbers,
        } = self;
        drop(leaf);
        drop(numbers);
        TreeCertificate {
            shown: shown.finish(),
            nodes: Listed::of(nodes),
        }
    }
}

impl TakeLines for TreeDraft {
    type Made = TreeCertificate;

    ghost form = { trees };

    ghost count = { tree_line_count };

    ghost Follows = { λ old new. Unit {0} };

    fn line_count(&self) -> u128 {
        let steps = self.shown.step_count() as u128;
        let heads = self.leaf.head_count() as u128;
        let pairs = self.leaf.pair_count() as u128;
        let rows = self.leaf.row_count() as u128;
        let nodes = nodes_line_count(&self.nodes);
        u128::from(rank(self.place, self.shown.dropped())) + steps + nodes + heads + pairs + rows
    }

    fn take_line(&mut self, line: &[u8]) -> Result<bool, NoMemory> {
        let Some(next) = next_place(
            self.place,
            &mut self.shown,
            &mut self.nodes,
            &mut self.leaf,
            line,
            &mut self.numbers,
        )?
        else {
            return Ok(false);
        };
        self.place = next;
        Ok(true)
    }
}

// How many lines stand before a place, but for those of the lists and of the nodes.
fn rank(place: TreePlace, dropped: Option<Dropped>) -> u64
    ensures rank { result ≡ tree_rank place dropped }
    ensures small { result ≤ 20 }
{
    match place {
        TreePlace::Title => 0,
        TreePlace::Shown(place) => shown_rank(place),
        TreePlace::NodeCount => 6 + dropped_count(dropped),
        TreePlace::Node(_, _) => 7 + dropped_count(dropped),
        TreePlace::Leaf(_, _, place) => closed_rank(place) + 2 + dropped_count(dropped),
        TreePlace::End => 7 + dropped_count(dropped),
        TreePlace::Done => 8 + dropped_count(dropped),
    }
}

// How many lines a node has.
fn node_line_count(node: &Node) -> u128
    ensures count { result ≡ node_line_count node.now }
    ensures small { result < 2 ^ 66 }
{
    match node {
        Node::Split(_) => 1,
        Node::Closed(leaf) => {
            let heads = leaf.heads.as_slice().len() as u128;
            let pairs = leaf.pairs.as_slice().len() as u128;
            let rows = leaf.rows.as_slice().len() as u128;
            4 + (heads + pairs + rows)
        }
    }
}

// How many lines the nodes have.
fn nodes_line_count(nodes: &[Node]) -> u128
    requires { length nodes.now < NODE_LIMIT }
    ensures count { result ≡ nodes_line_count nodes.now }
    ensures small { result ≤ NODE_LIMIT * 2 ^ 66 }
{
    let mut count = 0;
    for node in nodes {
        count += node_line_count(node);
    }
    count
}

// Takes a line of the form asked, and gives the place of the next one; None if the line isn't of that form, and then all stands
// as before.
fn next_place(
    place: TreePlace,
    shown: &mut ShownDraft,
    nodes: &mut Vec<Node>,
    leaf: &mut ClosedDraft,
    line: &[u8],
    numbers: &mut Vec<u64>,
) -> Result<Option<TreePlace>, NoMemory>
    requires room { HasRoom place (length nodes.old.items) }
    requires decided { is_inconclusive shown.old.claim ≡ false }
    ensures ok { IfOk result (λ found. option_map (λ next. tree_sheet next (record { shown = shown.new; nodes = nodes.new.items }) leaf.new) found ≡ asked_tree place (record { shown = shown.old; nodes = nodes.old.items }) leaf.old line.now) }
    ensures shown { Keeps result shown.old shown.new }
    ensures nodes { Keeps result nodes.old.items nodes.new.items }
    ensures leaf { IfOk result (λ found. found ≡ None → leaf.new ≡ leaf.old) }
{
    match place {
        TreePlace::Title => Ok(if shown.take_title(b"mpls-whatif-tree ", line) {
            Some(TreePlace::Shown(ShownPlace::Terms))
        } else {
            None
        }),
        TreePlace::Shown(place) => take_shown(place, shown, line, numbers),
        TreePlace::NodeCount => take_node_count(line, numbers),
        TreePlace::Node(left, due) => take_node(left, due, nodes, line, numbers),
        TreePlace::Leaf(left, due, place) => {
            take_leaf(left, due, place, shown, nodes, leaf, line, numbers)
        }
        TreePlace::End => Ok(if is_line(line, b"end") {
            Some(TreePlace::Done)
        } else {
            None
        }),
        TreePlace::Done => Ok(None),
    }
}

// Whether the line is the one that says an inconclusive answer, in its place. A tree's answer is never inconclusive.
fn is_undecided(place: ShownPlace, line: &[u8]) -> bool
    ensures { result ≡ is_undecided place line.now }
{
    match place {
        ShownPlace::Answer => is_line(line, b"answer inconclusive"),
        _ => false,
    }
}

fn take_shown(
    place: ShownPlace,
    shown: &mut ShownDraft,
    line: &[u8],
    numbers: &mut Vec<u64>,
) -> Result<Option<TreePlace>, NoMemory>
    requires { is_inconclusive shown.old.claim ≡ false }
    ensures ok { IfOk result (λ found. option_map (λ next. (next, shown.new)) found ≡ asked_decided place shown.old line.now) }
    ensures kept { Keeps result shown.old shown.new }
{
    if is_undecided(place, line) {
        return Ok(None);
    }
    let next = shown.take_line(place, line, numbers)?;
    Ok(after_shown(next))
}

fn after_shown(next: Option<Option<ShownPlace>>) -> Option<TreePlace>
    ensures { result ≡ option_map (λ place. option_map_or (λ place. TreePlace.Shown place) place TreePlace.NodeCount) next }
{
    match next {
        Some(Some(place)) => Some(TreePlace::Shown(place)),
        Some(None) => Some(TreePlace::NodeCount),
        None => None,
    }
}

// Whether so many nodes can make so many trees in a row.
fn can_make(nodes: u64, trees: u64) -> bool
    ensures { result ≡ can_make nodes trees }
{
    if trees == 0 {
        nodes == 0
    } else {
        trees <= nodes && (nodes - trees) % 2 == 0
    }
}

fn take_node_count(line: &[u8], numbers: &mut Vec<u64>) -> Result<Option<TreePlace>, NoMemory>
    ensures { IfOk result (λ found. found ≡ option_and_then (λ n. if can_make n 1 && nat_lt n NODE_LIMIT then Some (TreePlace.Node n 1) else None) (count_after (codes "nodes ") line.now)) }
{
    let Some(count) = count_after(b"nodes ", line, numbers)? else {
        return Ok(None);
    };
    if can_make(count, 1) && count < NODE_LIMIT as u64 {
        Ok(Some(TreePlace::Node(count, 1)))
    } else {
        Ok(None)
    }
}

fn take_node(
    left: u64,
    due: u64,
    nodes: &mut Vec<Node>,
    line: &[u8],
    numbers: &mut Vec<u64>,
) -> Result<Option<TreePlace>, NoMemory>
    requires { due < NODE_LIMIT }
    ensures ok { IfOk result (λ found. option_map (λ next. (next, nodes.new.items)) found ≡ asked_node left due nodes.old.items line.now) }
    ensures kept { Keeps result nodes.old.items nodes.new.items }
{
    let left = left.saturating_sub(1);
    if is_line(line, b"closed") {
        return Ok(leaf_place(left, due.saturating_sub(1)));
    }
    let Some(link) = count_after(b"split ", line, numbers)? else {
        return Ok(None);
    };
    if link < 1 << 32 && can_make(left, due + 1) {
        nodes.push(Node::Split(link as u32))?;
        Ok(Some(TreePlace::Node(left, due + 1)))
    } else {
        Ok(None)
    }
}

// Where the lists of a leaf begin, if the nodes after it can make the trees after it.
fn leaf_place(left: u64, due: u64) -> Option<TreePlace>
    ensures { result ≡ (if can_make left due then Some (TreePlace.Leaf left due ClosedPlace.HeadCount) else None) }
{
    if can_make(left, due) {
        Some(TreePlace::Leaf(left, due, ClosedPlace::HeadCount))
    } else {
        None
    }
}

fn take_leaf(
    left: u64,
    due: u64,
    place: ClosedPlace,
    shown: &ShownDraft,
    nodes: &mut Vec<Node>,
    leaf: &mut ClosedDraft,
    line: &[u8],
    numbers: &mut Vec<u64>,
) -> Result<Option<TreePlace>, NoMemory>
    ensures ok { IfOk result (λ found. option_map (λ next. tree_sheet next (record { shown = shown.now; nodes = nodes.new.items }) leaf.new) found ≡ option_map (λ s. leaf_left left due (record { shown = shown.now; nodes = nodes.old.items }) s.0 s.1) (asked_closed shown.now place leaf.old line.now)) }
    ensures nodes { Keeps result nodes.old.items nodes.new.items }
    ensures leaf { IfOk result (λ found. found ≡ None → leaf.new ≡ leaf.old) }
{
    match leaf.take_line(shown, place, line, numbers)? {
        Some(Some(next)) => Ok(Some(TreePlace::Leaf(left, due, next))),
        Some(None) => {
            nodes.push(Node::Closed(leaf.take()))?;
            Ok(Some(nodes_left(left, due)))
        }
        None => Ok(None),
    }
}

// The place after a leaf.
fn nodes_left(left: u64, due: u64) -> TreePlace
    ensures { result ≡ nodes_left left due }
{
    if left == 0 {
        TreePlace::End
    } else {
        TreePlace::Node(left, due)
    }
}
