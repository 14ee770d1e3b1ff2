//! Bytes are read entry by entry, and what follows the bottom entry isn't looked at. Both ways cost in the number of entries.
ghost use Rattle.std.specs.Prelude.{◌≡◌, ◌<◌, ◌++◌, true, length, drop, IfOk, IfErr, IfSome, IfNone, OnOk};
ghost use Rattle.std.specs.List.{list_all};
ghost use Rattle.wi_wire.specs.Stacks.{IsStack, IsNoStack, is_entry, entry_bytes, s_of, stack_bytes};
ghost use Rattle.wi_wire.specs.private.Entries.{IsFirst};

use crate::entry::{Entry, add_entry, entry_in, is_free};
use crate::refused::StackRefused;
use std::alloc::Global;
use wi_base::NoMemory;

/// The bytes of a stack, top first: four for each entry.
pub fn write_stack(alloc: Global, entries: &[Entry]) -> Result<Vec<u8>, NoMemory>
    requires some { 0 < length entries.now }
    requires fit { list_all is_entry entries.now ≡ true }
    ensures { IfOk result (λ bytes. bytes.items ≡ stack_bytes entries.now) }
{
    let mut bytes = Vec::new(alloc);
    for (i, entry) in entries.iter().enumerate() {
        put_entry(&mut bytes, *entry, i + 1 == entries.len())?;
    }
    Ok(bytes)
}

// Adds an entry's bytes.
fn put_entry(bytes: &mut Vec<u8>, entry: Entry, is_bottom: bool) -> Result<(), NoMemory>
    requires { is_entry entry ≡ true }
    ensures { OnOk result (bytes.new.items ≡ bytes.old.items ++ entry_bytes (s_of is_bottom) entry) }
{
    bytes.extend_from_slice(&entry.bytes(is_bottom))?;
    Ok(())
}

/// The entries of the stack with which bytes begin, top first, and how many bytes it takes. What follows may be anything.
pub fn read_stack(alloc: Global, bytes: &[u8]) -> Result<(Vec<Entry>, usize), StackRefused>
    ensures read { IfOk result (λ read. IsStack bytes.now read.0.items (drop read.1 bytes.now)) }
    ensures used { IfOk result (λ read. read.1 ≡ length (stack_bytes read.0.items)) }
    ensures refused { IfErr result (IsNoStack bytes.now) }
{
    let mut entries = Vec::new(alloc);
    let mut rest = bytes;
    while let Some(((entry, is_bottom), after)) = first_entry(rest) {
        if !is_free(entry.label) {
            return Err(StackRefused::Reserved(entries.len(), entry.label));
        }
        add_entry(&mut entries, entry)?;
        if is_bottom {
            let used = bytes.len() - after.len();
            return Ok((entries, used));
        }
        rest = after;
    }
    Err(StackRefused::Cut(entries.len()))
}

// The entry with which bytes begin, whether it is the bottom one, and what follows it; none where there are fewer than four bytes.
fn first_entry(bytes: &[u8]) -> Option<((Entry, bool), &[u8])>
    ensures cut { IfNone result (length bytes.now < 4) }
    ensures first { IfSome result (λ first. IsFirst bytes.now first.0.0 first.0.1 first.1.now) }
{
    match bytes {
        [a, b, c, d, rest @ ..] => Some((entry_in(u32::from_be_bytes([*a, *b, *c, *d])), rest)),
        _ => None,
    }
}
