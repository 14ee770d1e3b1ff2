//! A name has the byte where it starts, since it is looked up only after the whole text was read, and a fault is told by that
//! byte. Whether it is quoted is kept, since `ip` is a class and `"ip"` a label. Its characters are copied from the text.
ghost use Rattle.std.specs.Prelude.{◌≡◌, OnOk, true, false, string_bytes};
ghost use Rattle.std.specs.Char.{encode_utf8};
ghost use Rattle.wi_syntax.specs.private.Reading.{longer};

use std::marker::Model;
use wi_base::NoMemory;

/// A name as it is written: plain characters, or what stands between quotation marks.
#[derive(Drop)]
pub struct Name {
    at: usize,
    quoted: bool,
    text: String,
}

impl Model for Name {
    ghost use Rattle.std.specs.Prelude.{string_bytes};
    ghost use Rattle.wi_syntax.specs.Names.{Named};

    ghost Value = { Named };

    ghost view = { λ n. record { at = n.at; quoted = n.quoted; text = string_bytes n.text } };
}

impl Name {
    /// Plain characters that start at a byte of the text.
    pub(crate) fn plain(at: usize, text: String) -> Name
        ensures { result ≡ record { at = at; quoted = false; text = string_bytes text } }
    {
        Name {
            at,
            quoted: false,
            text,
        }
    }

    /// What stands between quotation marks, the first of them at a byte of the text.
    pub(crate) fn quoted(at: usize, text: String) -> Name
        ensures { result ≡ record { at = at; quoted = true; text = string_bytes text } }
    {
        Name {
            at,
            quoted: true,
            text,
        }
    }

    /// Adds a character.
    pub(crate) fn push(&mut self, character: char) -> Result<(), NoMemory>
        ensures { OnOk result (self.new ≡ longer self.old (encode_utf8 character)) }
    {
        self.text.push(character)?;
        Ok(())
    }

    /// The byte of the text where it starts, from 0: that of the quotation mark, if there is one.
    pub fn at(&self) -> usize
        ensures { result ≡ self.now.at }
    {
        self.at
    }

    /// Whether it stands between quotation marks.
    pub fn is_quoted(&self) -> bool
        ensures { result ≡ self.now.quoted }
    {
        self.quoted
    }

    /// Its characters, without the quotation marks.
    pub fn as_str(&self) -> &str
        ensures { result.now ≡ self.now.text }
    {
        self.text.as_str()
    }
}
