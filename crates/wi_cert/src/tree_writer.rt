//! A tree is written node by node, and the limit is looked at behind each: a tree's text can be larger than memory, so what is
//! written goes over the limit by one node at most. Who makes a tree needn't show the ranges of its numbers, as for certificates.
ghost use Rattle.std.specs.Prelude.{◌≡◌, ℕ, ◌^◌, ◌<◌, ◌≤◌, ◌++◌, ◌∷◌, [], IfOk, IsErrOf, OnOk, length, codes};
ghost use Rattle.std.specs.List.{All, flat_map};
ghost use Rattle.wi_cert.specs.Text.{ended};
ghost use Rattle.wi_cert.specs.Numbers.{count_line};
ghost use Rattle.wi_cert.specs.Shown.{IsShown, HasShownRanges};
ghost use Rattle.wi_cert.specs.Trees.{node_lines, tree_text, HasNodeRanges, IsTreeWritable, IsTreeText};
ghost use Rattle.wi_cert.specs.private.Fronts.{tree_front_text};

use crate::encode_refused::EncodeRefused;
use crate::tree::{Node, TreeCertificate};
use crate::writer::{put, put_closed, put_count, put_shown, put_title};
use std::alloc::Global;
use wi_base::NoMemory;

/// The text of a tree certificate.
pub fn encode_tree(alloc: Global, tree: &TreeCertificate) -> Result<Vec<u8>, NoMemory>
    requires { IsTreeWritable tree.now }
    ensures { IfOk result (λ bytes. IsTreeText tree.now bytes.items) }
{
    match encode_tree_within(alloc, tree, usize::MAX) {
        Ok(text) => Ok(text),
        // No memory holds a text over that limit.
        Err(EncodeRefused::TooLong | EncodeRefused::Memory) => Err(NoMemory::Memory),
    }
}

/// The text of a tree certificate, unless it has more bytes than the limit. Of a longer one no more is written than the limit and
/// one node.
pub fn encode_tree_within(
    alloc: Global,
    tree: &TreeCertificate,
    limit: usize,
) -> Result<Vec<u8>, EncodeRefused>
    requires { IsTreeWritable tree.now }
    ensures text { IfOk result (λ bytes. IsTreeText tree.now bytes.items) }
    ensures short { IfOk result (λ _. length (tree_text tree.now) ≤ limit) }
    ensures long { IsErrOf result EncodeRefused.TooLong → limit < length (tree_text tree.now) }
{
    let mut out = Vec::new(alloc);
    put_front(&mut out, tree)?;
    put_nodes(&mut out, tree.nodes.as_slice(), limit)?;
    put(&mut out, b"end\n")?;
    if out.len() <= limit {
        Ok(out)
    } else {
        Err(EncodeRefused::TooLong)
    }
}

// Writes the lines before the nodes.
fn put_front(out: &mut Vec<u8>, tree: &TreeCertificate) -> Result<(), NoMemory>
    requires { IsShown tree.now.shown }
    ensures text { OnOk result (out.new.items ≡ out.old.items ++ tree_front_text tree.now) }
    ensures ranges { OnOk result (HasShownRanges tree.now.shown) }
{
    put_title(out, b"mpls-whatif-tree ", tree.shown.dropped)?;
    put_shown(out, &tree.shown)?;
    put_count(out, b"nodes ", tree.nodes.as_slice().len() as u64)
}

// Writes the lines of the nodes, as long as the whole is within the limit.
fn put_nodes(out: &mut Vec<u8>, nodes: &[Node], limit: usize) -> Result<(), EncodeRefused>
    ensures text { OnOk result (out.new.items ≡ out.old.items ++ flat_map ended (flat_map node_lines nodes.now)) }
    ensures ranges { OnOk result (All HasNodeRanges nodes.now) }
    ensures long { IsErrOf result EncodeRefused.TooLong → limit < length (out.old.items ++ flat_map ended (flat_map node_lines nodes.now)) }
{
    for node in nodes {
        put_node(out, node)?;
        if out.len() > limit {
            return Err(EncodeRefused::TooLong);
        }
    }
    Ok(())
}

// Writes the lines of a node.
fn put_node(out: &mut Vec<u8>, node: &Node) -> Result<(), NoMemory>
    ensures text { OnOk result (out.new.items ≡ out.old.items ++ flat_map ended (node_lines node.now)) }
    ensures ranges { OnOk result (HasNodeRanges node.now) }
{
    match node {
        Node::Split(link) => put_split(out, *link),
        Node::Closed(leaf) => {
            put(out, b"closed\n")?;
            put_closed(out, leaf)
        }
    }
}

// Writes the line of a split.
fn put_split(out: &mut Vec<u8>, link: u32) -> Result<(), NoMemory>
    ensures text { OnOk result (out.new.items ≡ out.old.items ++ ended (count_line (codes "split ") link)) }
    ensures range { link < 2 ^ 32 }
{
    put_count(out, b"split ", u64::from(link))
}
