//! As a certificate, a tree is read in parts, each of which is let go before the next, and of what was read only the tree's numbers are
//! kept. A feeder of trees is taken and given back, so none is at hand after a refusal.
ghost use Rattle.std.specs.Prelude.{◌≡◌, ℕ, List, Some, IfOk, IfErr, OnOk};
ghost use Rattle.wi_cert.specs.Reading.{fed, unread};
ghost use Rattle.wi_cert.specs.Text.{IsBadLine};
ghost use Rattle.wi_cert.specs.Trees.{IsTreeText, IsTreeWritable, trees};
ghost use Rattle.wi_files.specs.Certificates.{FromLines, IsCertificateFile, FromKeepingTree, IsTreeStored};
ghost use Rattle.wi_files.specs.Shelves.{AllStand, IsCalm, IsLeft, OthersStand};
ghost use Rattle.wi_files.specs.private.Stages.{FromParts, FromMaking, IsTreeToStore};

use crate::certificate_file::{READ_LIMIT, next_part};
use crate::store::store;
use std::alloc::Global;
use wi_base::Shelf;
use wi_cert::{DecodeRefused, EncodeRefused, TreeCertificate, TreeFeeder, encode_tree_within};
use wi_outcome::Refusal;

/// A tree's text, if it isn't too large to be written.
pub fn tree_bytes<'a>(alloc: Global, tree: &TreeCertificate) -> Result<Vec<u8>, Refusal<'a>>
    requires { IsTreeWritable tree.now }
    ensures text { IfOk result (λ bytes. IsTreeToStore tree.now bytes.items) }
    ensures refused { IfErr result (FromMaking tree.now) }
{
    match encode_tree_within(alloc, tree, READ_LIMIT as usize) {
        Ok(bytes) => Ok(bytes),
        Err(EncodeRefused::TooLong) => Err(Refusal::TreeNotWritten),
        Err(EncodeRefused::Memory) => Err(Refusal::Memory),
    }
}

/// Stores a tree's text under a name, if it isn't too large.
pub fn store_tree<'a, S: Shelf>(
    alloc: Global,
    tree: &TreeCertificate,
    name: &'a str,
    shelf: &mut S,
) -> Result<(), Refusal<'a>>
    requires { IsTreeWritable tree.now }
    ensures told { (S.seen shelf.new).told ≡ (S.seen shelf.old).told }
    ensures others { OthersStand (Some name.now) (S.seen shelf.old) (S.seen shelf.new) }
    ensures left { IfErr result (λ refusal. IsLeft refusal (S.seen shelf.old) (S.seen shelf.new)) }
    ensures calm { OnOk result (IsCalm (S.seen shelf.old) (S.seen shelf.new)) }
    ensures kept { OnOk result (IsTreeStored (Some name.now) (S.seen shelf.new) tree.now) }
    ensures refused { IfErr result (λ refusal. FromKeepingTree (S.seen shelf.old) (S.seen shelf.new) (Some name.now) tree.now refusal) }
{
    let bytes = tree_bytes(alloc, tree)?;
    let stored = store(alloc, name, bytes.as_slice(), shelf);
    drop(bytes);
    stored
}

/// The tree in a file.
pub fn fetch_tree<'a, S: Shelf>(
    alloc: Global,
    name: &'a str,
    shelf: &mut S,
) -> Result<TreeCertificate, Refusal<'a>>
    ensures told { (S.seen shelf.new).told ≡ (S.seen shelf.old).told }
    ensures files { AllStand (S.seen shelf.old) (S.seen shelf.new) }
    ensures calm { IfOk result (λ _. IsCalm (S.seen shelf.old) (S.seen shelf.new)) }
    ensures read { IfOk result (λ tree. (bytes : List ℕ) × IsCertificateFile (S.seen shelf.old) name.now bytes × IsTreeText tree bytes) }
    ensures refused { IfErr result (FromLines (IsBadLine trees) (S.seen shelf.old) (S.seen shelf.new) name.now) }
{
    let feeder = feed_parts(alloc, name, shelf)?;
    match feeder.finish() {
        Ok(tree) => Ok(tree),
        Err(DecodeRefused::BadLine(line)) => Err(Refusal::BadLine(line)),
        Err(DecodeRefused::Memory) => Err(Refusal::Memory),
    }
}

// Feeds a file part by part, to its end.
fn feed_parts<'a, S: Shelf>(
    alloc: Global,
    name: &'a str,
    shelf: &mut S,
) -> Result<TreeFeeder, Refusal<'a>>
    ensures told { (S.seen shelf.new).told ≡ (S.seen shelf.old).told }
    ensures files { AllStand (S.seen shelf.old) (S.seen shelf.new) }
    ensures calm { IfOk result (λ _. IsCalm (S.seen shelf.old) (S.seen shelf.new)) }
    ensures read { IfOk result (λ feeder. (bytes : List ℕ) × IsCertificateFile (S.seen shelf.old) name.now bytes × (feeder ≡ fed trees (unread trees) bytes)) }
    ensures refused { IfErr result (FromParts (S.seen shelf.old) (S.seen shelf.new) name.now) }
{
    let mut feeder = TreeFeeder::new(alloc);
    let mut at = 0;
    loop {
        let part = match next_part(alloc, name, at, shelf) {
            Ok(part) => part,
            Err(refusal) => {
                drop(feeder);
                return Err(refusal);
            }
        };
        if part.is_empty() {
            return Ok(feeder);
        }
        feeder = feeder.feed(part.as_slice())?;
        at += part.len() as u64;
        if at > READ_LIMIT {
            drop(feeder);
            return Err(Refusal::LargeCertificate);
        }
    }
}
