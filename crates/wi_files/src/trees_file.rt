//! Of two trees both texts are made before either is stored, so that nothing is stored where one is too large: it costs both in memory
//! at once.
ghost use Rattle.std.specs.Prelude.{◌≡◌, true, Some, option_map, IfErr, IfOk, IfSome, OnOk, string_bytes};
ghost use Rattle.wi_cert.specs.Trees.{IsTreeWritable};
ghost use Rattle.wi_files.specs.Certificates.{AreTreesStored, FromKeepingTrees};
ghost use Rattle.wi_files.specs.Shelves.{IsCalm, IsLeft, IsOfTwo, StandBut, below_name};
ghost use Rattle.wi_files.specs.private.Stages.{FromStoringBoth};

use crate::store::store;
use crate::tree_file::{store_tree, tree_bytes};
use std::alloc::Global;
use wi_base::{NoMemory, Shelf, StoreRefused};
use wi_cert::TreeCertificate;
use wi_outcome::{Refusal, cannot_write};

/// Stores the first of two trees under a name, and the second, if there is one, under that name followed by `.below`.
pub fn store_trees<'a, S: Shelf>(
    alloc: Global,
    first: &TreeCertificate,
    second: Option<&TreeCertificate>,
    name: &'a str,
    shelf: &mut S,
) -> Result<(), Refusal<'a>>
    requires first { IsTreeWritable first.now }
    requires second { IfSome second (λ tree. IsTreeWritable tree.now) }
    ensures told { (S.seen shelf.new).told ≡ (S.seen shelf.old).told }
    ensures others { StandBut (IsOfTwo (Some name.now)) (S.seen shelf.old) (S.seen shelf.new) }
    ensures left { IfErr result (λ refusal. IsLeft refusal (S.seen shelf.old) (S.seen shelf.new)) }
    ensures calm { OnOk result (IsCalm (S.seen shelf.old) (S.seen shelf.new)) }
    ensures stored { OnOk result (AreTreesStored (Some name.now) (S.seen shelf.old) (S.seen shelf.new) first.now (option_map (λ tree. tree.now) second.entry)) }
    ensures refused { IfErr result (FromKeepingTrees (S.seen shelf.old) (S.seen shelf.new) (Some name.now) first.now (option_map (λ tree. tree.now) second.entry)) }
{
    match second {
        Some(second) => store_both(alloc, first, second, name, shelf),
        None => store_tree(alloc, first, name, shelf),
    }
}

// Stores two trees.
fn store_both<'a, S: Shelf>(
    alloc: Global,
    first: &TreeCertificate,
    second: &TreeCertificate,
    name: &'a str,
    shelf: &mut S,
) -> Result<(), Refusal<'a>>
    requires first { IsTreeWritable first.now }
    requires second { IsTreeWritable second.now }
    ensures told { (S.seen shelf.new).told ≡ (S.seen shelf.old).told }
    ensures others { StandBut (IsOfTwo (Some name.now)) (S.seen shelf.old) (S.seen shelf.new) }
    ensures left { IfErr result (λ refusal. IsLeft refusal (S.seen shelf.old) (S.seen shelf.new)) }
    ensures calm { OnOk result (IsCalm (S.seen shelf.old) (S.seen shelf.new)) }
    ensures stored { OnOk result (AreTreesStored (Some name.now) (S.seen shelf.old) (S.seen shelf.new) first.now (Some second.now)) }
    ensures refused { IfErr result (FromKeepingTrees (S.seen shelf.old) (S.seen shelf.new) (Some name.now) first.now (Some second.now)) }
{
    let first = tree_bytes(alloc, first)?;
    match tree_bytes(alloc, second) {
        Ok(second) => {
            let stored = store_bytes(alloc, first.as_slice(), second.as_slice(), name, shelf);
            drop((first, second));
            stored
        }
        Err(refusal) => {
            drop(first);
            Err(refusal)
        }
    }
}

// Stores the texts of two trees.
fn store_bytes<'a, S: Shelf>(
    alloc: Global,
    first: &[u8],
    second: &[u8],
    name: &'a str,
    shelf: &mut S,
) -> Result<(), Refusal<'a>>
    ensures told { (S.seen shelf.new).told ≡ (S.seen shelf.old).told }
    ensures others { StandBut (IsOfTwo (Some name.now)) (S.seen shelf.old) (S.seen shelf.new) }
    ensures left { IfErr result (λ refusal. IsLeft refusal (S.seen shelf.old) (S.seen shelf.new)) }
    ensures calm { OnOk result (IsCalm (S.seen shelf.old) (S.seen shelf.new)) }
    ensures first { (S.seen shelf.new).told ≡ true → OnOk result ((S.seen shelf.new).file name.now ≡ Some first.now) }
    ensures second { (S.seen shelf.new).told ≡ true → OnOk result ((S.seen shelf.new).file (below_name name.now) ≡ Some second.now) }
    ensures refused { IfErr result (FromStoringBoth (S.seen shelf.old) (S.seen shelf.new) name.now first.now) }
{
    let below = below_name(alloc, name)?;
    let stored = store_in_turn(alloc, first, second, name, below.as_str(), shelf);
    drop(below);
    stored
}

// The second name.
fn below_name(alloc: Global, name: &str) -> Result<String, NoMemory>
    ensures { IfOk result (λ below. string_bytes below ≡ below_name name.now) }
{
    Ok(format!(in alloc; "{name}.below")?)
}

// Stores bytes under a name, and then others under a second name.
fn store_in_turn<'a, S: Shelf>(
    alloc: Global,
    first: &[u8],
    second: &[u8],
    name: &'a str,
    below: &str,
    shelf: &mut S,
) -> Result<(), Refusal<'a>>
    requires { below.now ≡ below_name name.now }
    ensures told { (S.seen shelf.new).told ≡ (S.seen shelf.old).told }
    ensures others { StandBut (IsOfTwo (Some name.now)) (S.seen shelf.old) (S.seen shelf.new) }
    ensures left { IfErr result (λ refusal. IsLeft refusal (S.seen shelf.old) (S.seen shelf.new)) }
    ensures calm { OnOk result (IsCalm (S.seen shelf.old) (S.seen shelf.new)) }
    ensures first { (S.seen shelf.new).told ≡ true → OnOk result ((S.seen shelf.new).file name.now ≡ Some first.now) }
    ensures second { (S.seen shelf.new).told ≡ true → OnOk result ((S.seen shelf.new).file (below_name name.now) ≡ Some second.now) }
    ensures refused { IfErr result (FromStoringBoth (S.seen shelf.old) (S.seen shelf.new) name.now first.now) }
{
    let unwritten = cannot_write(alloc, below)?;
    store(alloc, name, first, shelf)?;
    match shelf.store(below, second) {
        Ok(()) => Ok(()),
        Err(StoreRefused::Failed) => Err(Refusal::CannotWriteBelow(name, unwritten)),
        Err(StoreRefused::Memory) => Err(Refusal::NoMemoryBelow(name)),
    }
}
