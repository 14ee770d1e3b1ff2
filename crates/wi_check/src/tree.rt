//! A tree is judged node by node in preorder, with the branches that are left on a stack: a split has to be one, and a leaf has to
//! bound every run of its branch. What it shows is judged once, as a certificate's. A leaf costs what a certificate costs, within its
//! branch, and of the branches only those that are left are kept.
ghost use Rattle.std.specs.Prelude.{◌≡◌, ◌+◌, ◌<◌, ◌++◌, ◌∷◌, [], reverse, length, true, IfOk, IfErr, OnOk};
ghost use Rattle.wi_world.specs.Moves.{AreBounds};
ghost use Rattle.wi_build.specs.Problems.{allowing};
ghost use Rattle.wi_cert.specs.declared.tree.Node.{Node};
ghost use Rattle.wi_cert.specs.Shown.{IsShown};
ghost use Rattle.wi_cert.specs.Closed.{IsClosed};
ghost use Rattle.wi_cert.specs.Trees.{IsTreeWritable, IsLeafOf};
ghost use Rattle.wi_trees.specs.Branches.{CanSplit};
ghost use Rattle.wi_accept.specs.Answers.{answer_of, word_of};
ghost use Rattle.wi_accept.specs.Trees.{IsDecidedExactly, IsTreeAccepted, IsTreeRefused};
ghost use Rattle.wi_check.specs.private.Stages.{AreChecked, IsNodeChecked, IsNodeRefused, NoneInTree};

use crate::bounded::{Gap, check_closed};
use crate::checker::{Accepted, word_of};
use crate::shown::check_shown;
use std::alloc::Global;
use wi_base::NoMemory;
use wi_build::{LazySystem, Problem};
use wi_cert::{CheckRefused, Closed, Node, Shown, TreeCertificate};
use wi_net::{Bounds, LinkId, Network};
use wi_trees::{with_down, with_up};

/// Whether a tree can be believed, for a problem where `k` risk groups may fail besides those known to be down. The first cause
/// against it is told, with what it is about; nodes count from 1. Any numbers may stand in it.
pub fn check_tree(
    alloc: Global,
    problem: &Problem<'_>,
    k: u32,
    tree: &TreeCertificate,
) -> Result<Accepted, CheckRefused>
    requires { IsTreeWritable tree.now }
    ensures accepted { OnOk result (IsTreeAccepted (allowing problem.now k) tree.now) }
    ensures word { IfOk result (λ accepted. accepted.word ≡ word_of tree.now.shown.claim) }
    ensures holds { OnOk result (IsDecidedExactly (allowing problem.now k) (answer_of (allowing problem.now k) tree.now.shown)) }
    ensures refused { IfErr result (IsTreeRefused (allowing problem.now k) tree.now) }
{
    problem.keeps();
    let whole = problem.bounds_allowing(k)?;
    let checked = check_within(alloc, &problem.within(&whole), tree);
    drop(whole);
    match checked {
        Ok(()) => Ok(Accepted {
            word: word_of(tree.shown.claim),
        }),
        Err(refused) => Err(refused),
    }
}

// Checks what is shown, and then the nodes, within a problem's own bounds.
fn check_within(
    alloc: Global,
    problem: &Problem<'_>,
    tree: &TreeCertificate,
) -> Result<(), CheckRefused>
    requires { IsTreeWritable tree.now }
    ensures accepted { OnOk result (IsTreeAccepted problem.now tree.now) }
    ensures refused { IfErr result (IsTreeRefused problem.now tree.now) }
{
    check_shown(alloc, problem, &tree.shown)?;
    let mut left = Vec::new(alloc);
    let checked = check_nodes(alloc, problem, tree, &mut left);
    drop(left);
    checked
}

// Checks node by node, beginning with the whole.
fn check_nodes(
    alloc: Global,
    problem: &Problem<'_>,
    tree: &TreeCertificate,
    left: &mut Vec<Bounds>,
) -> Result<(), CheckRefused>
    requires text { IsTreeWritable tree.now }
    requires shown { NoneInTree problem.now tree.now 9 }
    requires none { left.old.items ≡ [] }
    ensures accepted { OnOk result (IsTreeAccepted problem.now tree.now) }
    ensures refused { IfErr result (IsTreeRefused problem.now tree.now) }
{
    problem.keeps();
    put(left, problem.bounds().twin()?)?;
    for place in 0..tree.nodes.as_slice().len() {
        check_next(alloc, problem, tree, place, left)?;
    }
    Ok(())
}

// Checks the node at a place, which is one of the branch that is next.
fn check_next(
    alloc: Global,
    problem: &Problem<'_>,
    tree: &TreeCertificate,
    place: usize,
    left: &mut Vec<Bounds>,
) -> Result<(), CheckRefused>
    requires text { IsTreeWritable tree.now }
    requires within { place < length tree.now.nodes }
    requires before { AreChecked problem.now tree.now place (reverse left.old.items) }
    ensures checked { OnOk result (AreChecked problem.now tree.now (place + 1) (reverse left.new.items)) }
    ensures refused { IfErr result (IsTreeRefused problem.now tree.now) }
{
    problem.keeps();
    let node = &tree.nodes.as_slice()[place];
    match left.pop() {
        Some(branch) => {
            let number = place as u32 + 1;
            let checked = check_node(alloc, problem, &tree.shown, node, number, &branch, left);
            drop(branch);
            checked
        }
        None => Ok(()),
    }
}

// Checks a node of a branch. Of a split the two children are the next branches.
fn check_node(
    alloc: Global,
    problem: &Problem<'_>,
    shown: &Shown,
    node: &Node,
    number: u32,
    branch: &Bounds,
    left: &mut Vec<Bounds>,
) -> Result<(), CheckRefused>
    requires branch { AreBounds problem.now.net branch.now }
    requires shown { IsShown shown.now }
    requires leaf { IsLeafOf shown.now node.now }
    ensures checked { OnOk result (IsNodeChecked problem.now shown.now branch.now node.now (reverse left.old.items) (reverse left.new.items)) }
    ensures refused { IfErr result (IsNodeRefused problem.now shown.now branch.now node.now number) }
{
    match node {
        Node::Split(link) => check_split(alloc, problem, shown, *link, number, branch, left),
        Node::Closed(closed) => check_leaf(alloc, problem, shown, closed, number, branch),
    }
}

// Checks a split of a branch, and leaves its two children.
fn check_split(
    alloc: Global,
    problem: &Problem<'_>,
    shown: &Shown,
    link: u32,
    number: u32,
    branch: &Bounds,
    left: &mut Vec<Bounds>,
) -> Result<(), CheckRefused>
    requires branch { AreBounds problem.now.net branch.now }
    ensures checked { OnOk result (IsNodeChecked problem.now shown.now branch.now (Node.Split link) (reverse left.old.items) (reverse left.new.items)) }
    ensures refused { IfErr result (IsNodeRefused problem.now shown.now branch.now (Node.Split link) number) }
{
    let link = LinkId(link);
    if !can_split(problem.net(), branch, link) {
        return Err(CheckRefused::BadSplit(number));
    }
    put(left, with_up(alloc, problem.net(), branch, link)?)?;
    put(left, with_down(alloc, problem.net(), branch, link)?)?;
    Ok(())
}

// Whether a branch can be split by a link.
fn can_split(net: &Network, branch: &Bounds, link: LinkId) -> bool
    ensures can { result ≡ true → CanSplit net.now branch.now link }
    ensures not { CanSplit net.now branch.now link → result ≡ true }
{
    link.0 < net.counts().links
        && !branch.down.contains(link)
        && !branch.up.contains(link)
        && 0 < branch.k
}

// Checks that a leaf bounds every run of its branch.
fn check_leaf(
    alloc: Global,
    problem: &Problem<'_>,
    shown: &Shown,
    closed: &Closed,
    number: u32,
    branch: &Bounds,
) -> Result<(), CheckRefused>
    requires branch { AreBounds problem.now.net branch.now }
    requires shown { IsShown shown.now }
    requires leaf { IsClosed shown.now closed.now }
    ensures checked { OnOk result (IsNodeChecked problem.now shown.now branch.now (Node.Closed closed.now) [] []) }
    ensures refused { IfErr result (IsNodeRefused problem.now shown.now branch.now (Node.Closed closed.now) number) }
{
    let within = problem.within(branch);
    let system = LazySystem::of(alloc, &within)?;
    let closed = check_closed(alloc, &system, shown, closed);
    drop(system);
    match closed {
        Ok(()) => Ok(()),
        Err(Gap::Closed(refused)) => Err(CheckRefused::Leaf(number, refused)),
        Err(Gap::Memory) => Err(CheckRefused::Memory),
    }
}

// Puts a branch on the stack.
fn put(left: &mut Vec<Bounds>, branch: Bounds) -> Result<(), NoMemory>
    ensures { OnOk result (left.new.items ≡ left.old.items ++ branch ∷ []) }
{
    match left.push(branch) {
        Ok(()) => Ok(()),
        Err(_failed) => Err(NoMemory::Memory),
    }
}
