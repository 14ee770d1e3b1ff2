//! What is printed is put together from pieces, so that each contract speaks of what one call adds, and want of memory is the
//! only refusal. Where it comes, a front of what was to be added may stand there. A text is one list of bytes.
ghost use Rattle.std.specs.Prelude.{◌≡◌, ◌++◌, OnOk, []};
ghost use Rattle.std.specs.Fmt.{decimal};
ghost use Rattle.wi_text.specs.Names.{quoted, shown};

use crate::characters::is_plain_name;
use std::alloc::Global;
use std::marker::Model;
use wi_base::{NoMemory, write_decimal};

/// A text that grows at its end.
#[derive(Drop)]
pub struct Text {
    bytes: Vec<u8>,
}

impl Model for Text {
    ghost use Rattle.std.specs.Prelude.{List, ℕ};

    ghost Value = { List ℕ };

    ghost view = { λ t. t.bytes.items };
}

impl Text {
    /// No text.
    pub fn new(alloc: Global) -> Text
        ensures { result ≡ [] }
    {
        Text {
            bytes: Vec::new(alloc),
        }
    }

    /// Bytes as a text. It takes no memory.
    pub fn of(bytes: Vec<u8>) -> Text
        ensures { result ≡ bytes.items }
    {
        Text { bytes }
    }

    /// Adds a piece.
    pub fn put(&mut self, piece: &str) -> Result<(), NoMemory>
        ensures { OnOk result (self.new ≡ self.old ++ piece.now) }
    {
        self.put_bytes(piece.as_bytes())
    }

    /// Adds bytes.
    pub fn put_bytes(&mut self, piece: &[u8]) -> Result<(), NoMemory>
        ensures { OnOk result (self.new ≡ self.old ++ piece.now) }
    {
        self.bytes.extend_from_slice(piece)?;
        Ok(())
    }

    /// Adds a number in decimal.
    pub fn put_number(&mut self, number: u128) -> Result<(), NoMemory>
        ensures { OnOk result (self.new ≡ self.old ++ decimal number) }
    {
        write_decimal(number, &mut self.bytes)
    }

    /// Adds a name between quotation marks.
    pub fn put_quoted(&mut self, name: &str) -> Result<(), NoMemory>
        ensures { OnOk result (self.new ≡ self.old ++ quoted name.now) }
    {
        self.put("\"")?;
        self.put(name)?;
        self.put("\"")
    }

    /// Adds a name, without quotation marks where it is a plain name.
    pub fn put_name(&mut self, name: &str) -> Result<(), NoMemory>
        ensures { OnOk result (self.new ≡ self.old ++ shown name.now) }
    {
        if is_plain_name(name) {
            self.put(name)
        } else {
            self.put_quoted(name)
        }
    }

    /// The bytes. It takes no memory.
    pub fn as_bytes(&self) -> &[u8]
        ensures { result.now ≡ self.now }
    {
        self.bytes.as_slice()
    }

    /// The bytes as a list of their own. It takes no memory.
    pub fn into_bytes(self) -> Vec<u8>
        ensures { result.items ≡ self }
    {
        self.bytes
    }
}
