//! Characters are read one by one, and none twice, so that where no query goes on is told as soon as it shows. A name that is
//! begun is judged at each of its characters, since it may stop being one that can come next.
ghost use Rattle.std.specs.Prelude.{◌≡◌, ◌+◌, ◌<◌, ◌^◌, Some, None, IfOk, IfErr, length};
ghost use Rattle.std.specs.Char.{encode_utf8};
ghost use Rattle.wi_syntax.specs.Grammar.{Reads};
ghost use Rattle.wi_syntax.specs.Refusals.{IsUnread};
ghost use Rattle.wi_syntax.specs.private.Parsing.{goes};
ghost use Rattle.wi_syntax.specs.private.Reading.{mark_of, keep, begin, after_plain, after_quoted_char, after_char, after_bytes, nothing_read, finished, IsReadTo};

use crate::name::Name;
use crate::parser::Parser;
use crate::token::{Mark, Token};
use crate::written::Written;
use std::alloc::Global;
use std::marker::Model;
use wi_base::NoMemory;
use wi_text::{is_plain, is_space};

/// Why a text isn't read.
#[derive(Clone, Copy, PartialEq, Eq, Debug)]
pub enum SyntaxRefused {
    /// The text isn't of the form of a query. So many bytes of it, and no more, begin one that is.
    Stops(usize),
    Memory,
}

impl From<NoMemory> for SyntaxRefused {
    ghost use Rattle.std.specs.Prelude.{◌≡◌};
    ghost use Rattle.wi_syntax.specs.declared.reader.SyntaxRefused.{SyntaxRefused};

    ghost from_gives = { λ _ r. r ≡ SyntaxRefused.Memory };

    fn from(_error: NoMemory) -> Self {
        SyntaxRefused::Memory
    }
}

/// The query that a text is, as it is written.
pub fn read_written(alloc: Global, text: &str) -> Result<Written, SyntaxRefused>
    ensures read { IfOk result (λ w. Reads text.now w) }
    ensures refused { IfErr result (λ refused. IsUnread text.now refused) }
{
    let mut reader = Reader::new(alloc);
    match reader.read_all(alloc, text) {
        Ok(None) => written_of(alloc, reader, text),
        Ok(Some(at)) => {
            drop(reader);
            Err(SyntaxRefused::Stops(at))
        }
        Err(NoMemory::Memory) => {
            drop(reader);
            Err(SyntaxRefused::Memory)
        }
    }
}

// The query that a text is, of which all was read.
fn written_of(alloc: Global, reader: Reader, text: &str) -> Result<Written, SyntaxRefused>
    requires { after_bytes nothing_read text.now ≡ Some reader }
    ensures read { IfOk result (λ w. Reads text.now w) }
    ensures refused { IfErr result (λ refused. IsUnread text.now refused) }
{
    match reader.finish(alloc)? {
        Some(written) => Ok(written),
        None => Err(SyntaxRefused::Stops(text.len())),
    }
}

// All that was read of a text.
#[derive(Drop)]
struct Reader {
    at: usize,
    parser: Parser,
    // The name that is begun.
    begun: Option<Name>,
}

impl Model for Reader {
    ghost use Rattle.wi_syntax.specs.private.Reading.{Reading};

    ghost Value = { Reading };

    ghost view = { λ r. record { at = r.at; parse = r.parser; begun = r.begun } };
}

impl Reader {
    // Nothing was read.
    fn new(alloc: Global) -> Reader
        ensures { result ≡ nothing_read }
    {
        Reader {
            at: 0,
            parser: Parser::new(alloc),
            begun: None,
        }
    }

    // Goes on with a text. It gives the byte of the character with which no query goes on, if there is one.
    fn read_all(&mut self, alloc: Global, text: &str) -> Result<Option<usize>, NoMemory>
        requires { self.old ≡ nothing_read }
        ensures { IfOk result (λ stop. IsReadTo text.now stop self.new) }
    {
        for (at, character) in text.char_indices() {
            if !self.read(alloc, character)? {
                return Ok(Some(at));
            }
        }
        Ok(None)
    }

    // Goes on with a character. It tells whether some query goes on so.
    fn read(&mut self, alloc: Global, character: char) -> Result<bool, NoMemory>
        requires { self.old.at + length (encode_utf8 character) < 2 ^ 64 }
        ensures { IfOk result (λ on. after_char self.old character ≡ goes self.new on) }
    {
        let at = self.at;
        self.at += character.len_utf8();
        match self.begun.take() {
            None => self.begin(alloc, at, character),
            Some(name) if name.is_quoted() => self.after_quoted(alloc, name, character),
            Some(name) => self.after_plain(alloc, at, name, character),
        }
    }

    // With what a character begins.
    fn begin(&mut self, alloc: Global, at: usize, character: char) -> Result<bool, NoMemory>
        requires { self.old.begun ≡ None }
        ensures { IfOk result (λ on. begin at self.old.at self.old.parse character ≡ goes self.new on) }
    {
        if is_plain(character) {
            let mut name = Name::plain(at, String::new(alloc));
            name.push(character)?;
            return Ok(self.keep(name));
        }
        if is_space(character) {
            return Ok(true);
        }
        if character == '"' {
            return Ok(self.keep(Name::quoted(at, String::new(alloc))));
        }
        match mark_of(character) {
            Some(mark) => {
                let token = self.parser.token_of(mark, at);
                self.parser.next(alloc, token)
            }
            None => Ok(false),
        }
    }

    // With a name that is begun, where it may come next.
    fn keep(&mut self, name: Name) -> bool
        ensures { keep self.old.at self.old.parse name ≡ goes self.new result }
    {
        let admitted = self.parser.admits(&name);
        self.begun = Some(name);
        admitted
    }

    fn after_plain(
        &mut self,
        alloc: Global,
        at: usize,
        mut name: Name,
        character: char,
    ) -> Result<bool, NoMemory>
        requires { self.old.begun ≡ None }
        ensures { IfOk result (λ on. after_plain at self.old.at self.old.parse name character ≡ goes self.new on) }
    {
        if is_plain(character) {
            name.push(character)?;
            return Ok(self.keep(name));
        }
        if !self.parser.next(alloc, Token::Word(name))? {
            return Ok(false);
        }
        self.begin(alloc, at, character)
    }

    fn after_quoted(
        &mut self,
        alloc: Global,
        mut name: Name,
        character: char,
    ) -> Result<bool, NoMemory>
        requires { self.old.begun ≡ None }
        ensures { IfOk result (λ on. after_quoted_char self.old.at self.old.parse name character ≡ goes self.new on) }
    {
        if character == '"' {
            if name.as_str().is_empty() {
                return Ok(false);
            }
            return self.parser.next(alloc, Token::Word(name));
        }
        if character.is_ascii_control() {
            return Ok(false);
        }
        name.push(character)?;
        self.begun = Some(name);
        Ok(true)
    }

    // The query that was read, if it may end here.
    fn finish(self, alloc: Global) -> Result<Option<Written>, NoMemory>
        ensures { IfOk result (λ written. written ≡ finished self) }
    {
        let Reader {
            mut parser,
            begun,
            ..
        } = self;
        let Some(name) = begun else {
            return Ok(parser.finish());
        };
        if name.is_quoted() {
            drop(name);
            drop(parser);
            return Ok(None);
        }
        match parser.next(alloc, Token::Word(name)) {
            Ok(true) => Ok(parser.finish()),
            Ok(false) => {
                drop(parser);
                Ok(None)
            }
            Err(refused) => {
                drop(parser);
                Err(refused)
            }
        }
    }
}

// The mark that a character is.
fn mark_of(character: char) -> Option<Mark>
    ensures { result ≡ mark_of character }
{
    match character {
        '<' => Some(Mark::Less),
        '>' => Some(Mark::Greater),
        '(' => Some(Mark::OpenRound),
        ')' => Some(Mark::CloseRound),
        '[' => Some(Mark::OpenSquare),
        ']' => Some(Mark::CloseSquare),
        '#' => Some(Mark::Hash),
        '.' => Some(Mark::Dot),
        ',' => Some(Mark::Comma),
        '^' => Some(Mark::Caret),
        '*' => Some(Mark::Star),
        '+' => Some(Mark::Plus),
        '?' => Some(Mark::Question),
        '|' => Some(Mark::Bar),
        _ => None,
    }
}
