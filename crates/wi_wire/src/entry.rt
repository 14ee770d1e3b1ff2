//! One entry is kept as its parts, since what is printed and what is compared are these. It costs eight bytes. In its 32 bits each
//! part counts a power of two, so that putting it together and taking it apart are a sum and divisions, and take no memory.
ghost use Rattle.std.specs.Prelude.{◌≡◌, ◌++◌, ◌∷◌, [], true, OnOk};
ghost use Rattle.wi_wire.specs.Stacks.{entry_bytes, is_free, is_entry, s_of};
ghost use Rattle.wi_wire.specs.private.Entries.{word_of, IsWord};

use wi_base::NoMemory;

/// An entry of a label stack.
#[derive(Clone, Copy, PartialEq, Eq, Debug)]
pub struct Entry {
    /// From 16 to 1,048,575.
    pub label: u32,
    /// From 0 to 7.
    pub exp: u8,
    pub ttl: u8,
}

impl Entry {
    /// The entry's four bytes, in network order (RFC 3032, section 2.1). S is set in the bottom entry of a stack alone.
    pub fn bytes(self, is_bottom: bool) -> [u8; 4]
        requires { is_entry self ≡ true }
        ensures { result ≡ entry_bytes (s_of is_bottom) self }
    {
        word_of(self, is_bottom).to_be_bytes()
    }
}

// Labels below the first are reserved, and those above the last don't fit in 20 bits.
const FIRST_FREE: u32 = 16;

const LAST_FREE: u32 = 1_048_575;

// What one of a part counts in an entry's 32 bits. TTL counts 1.
const LABEL: u32 = 1 << 12;

const EXP: u32 = 1 << 9;

const S: u32 = 1 << 8;

/// Whether a label may stand on the wire.
pub(crate) fn is_free(label: u32) -> bool
    ensures { result ≡ is_free label }
{
    FIRST_FREE <= label && label <= LAST_FREE
}

// An entry as 32 bits.
fn word_of(entry: Entry, is_bottom: bool) -> u32
    requires { is_entry entry ≡ true }
    ensures { result ≡ word_of (s_of is_bottom) entry }
{
    let s = u32::from(is_bottom);
    entry.label * LABEL + u32::from(entry.exp) * EXP + s * S + u32::from(entry.ttl)
}

/// The entry that 32 bits are, which may have any label, and whether it is the bottom one.
pub(crate) fn entry_in(word: u32) -> (Entry, bool)
    ensures { IsWord word result.0 result.1 }
{
    let entry = Entry {
        label: word / LABEL,
        exp: (word / EXP % 8) as u8,
        ttl: (word % 256) as u8,
    };
    (entry, word / S % 2 == 1)
}

/// Adds an entry to a list.
pub(crate) fn add_entry(entries: &mut Vec<Entry>, entry: Entry) -> Result<(), NoMemory>
    ensures { OnOk result (entries.new.items ≡ entries.old.items ++ entry ∷ []) }
{
    entries.push(entry)?;
    Ok(())
}
