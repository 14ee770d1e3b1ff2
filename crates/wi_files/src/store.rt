//! Whatever is stored is made whole before, so that nothing is half written for want of memory.
ghost use Rattle.std.specs.Prelude.{◌≡◌, true, Some, IfErr, OnOk};
ghost use Rattle.wi_files.specs.Shelves.{IsCalm, IsLeft, OthersStand};
ghost use Rattle.wi_files.specs.private.Stages.{FromStoring};

use std::alloc::Global;
use wi_base::{Shelf, StoreRefused};
use wi_outcome::{Refusal, cannot_write};

/// Stores bytes under a name.
pub fn store<'a, S: Shelf>(
    alloc: Global,
    name: &'a str,
    bytes: &[u8],
    shelf: &mut S,
) -> Result<(), Refusal<'a>>
    ensures told { (S.seen shelf.new).told ≡ (S.seen shelf.old).told }
    ensures others { OthersStand (Some name.now) (S.seen shelf.old) (S.seen shelf.new) }
    ensures left { IfErr result (λ refusal. IsLeft refusal (S.seen shelf.old) (S.seen shelf.new)) }
    ensures calm { OnOk result (IsCalm (S.seen shelf.old) (S.seen shelf.new)) }
    ensures stored { (S.seen shelf.old).told ≡ true → OnOk result ((S.seen shelf.new).file name.now ≡ Some bytes.now) }
    ensures refused { IfErr result (FromStoring (S.seen shelf.old) (S.seen shelf.new) name.now) }
{
    let unwritten = cannot_write(alloc, name)?;
    match shelf.store(name, bytes) {
        Ok(()) => Ok(()),
        Err(StoreRefused::Failed) => Err(Refusal::CannotWrite(name, unwritten)),
        Err(StoreRefused::Memory) => Err(Refusal::Memory),
    }
}
