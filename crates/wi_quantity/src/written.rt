//! A machine with seven stages reads a text byte by byte, so that where it stops being a weights text is known before anything
//! is made of it. What it says is noted in a second walk: each word and number is copied, with the byte where it starts.
ghost use Rattle.std.specs.Prelude.{◌≡◌, ◌<◌, [], IfOk, OnOk, option_map};
ghost use Rattle.wi_quantity.specs.private.Syntax.{class_of, next_stage, may_end, stop};
ghost use Rattle.wi_quantity.specs.private.Noting.{with_letter, noted, note_all, part_of, end_part, end_term, nothing};
ghost use Rattle.wi_quantity.specs.declared.written.Stage.TheVariants.{Start};

use std::alloc::Global;
use std::marker::Model;
use std::mem;
use wi_base::{Listed, NoMemory};

/// A word or a number, with the byte where it starts.
#[derive(Drop)]
pub struct Piece {
    at: usize,
    text: String,
}

impl Model for Piece {
    ghost use Rattle.std.specs.Prelude.{ℕ, List, string_bytes};

    ghost Value = { ℕ × List ℕ };

    ghost view = { λ p. (p.at, string_bytes p.text) };
}

impl Piece {
    // No character.
    fn new(alloc: Global) -> Piece
        ensures { result ≡ (0, []) }
    {
        Piece {
            at: 0,
            text: String::new(alloc),
        }
    }

    // Adds a character that stands at a byte. It may be the first.
    fn push(&mut self, at: usize, character: u8) -> Result<(), NoMemory>
        requires { character < 128 }
        ensures { OnOk result (self.new ≡ with_letter self.old at character) }
    {
        if self.text.is_empty() {
            self.at = at;
        }
        self.text.push(char::from(character))?;
        Ok(())
    }

    /// The byte where it starts.
    pub fn at(&self) -> usize
        ensures { result ≡ self.now.0 }
    {
        self.at
    }

    /// Its characters.
    pub fn as_str(&self) -> &str
        ensures { result.now ≡ self.now.1 }
    {
        self.text.as_str()
    }
}

/// A part: the number before `*`, if there is one, and the word.
#[derive(Drop)]
pub struct WrittenPart {
    number: Piece,
    word: Piece,
}

impl Model for WrittenPart {
    ghost use Rattle.wi_quantity.specs.Written.{WrittenPart};
    ghost use Rattle.wi_quantity.specs.private.Noting.{part_of};

    ghost Value = { WrittenPart };

    ghost view = { λ p. part_of p.number p.word };
}

impl WrittenPart {
    fn of(number: Piece, word: Piece) -> WrittenPart
        ensures { result ≡ part_of number word }
    {
        WrittenPart { number, word }
    }

    /// The number before `*`, if there is one.
    pub fn number(&self) -> Option<&Piece>
        ensures { option_map (λ number. number.now) result ≡ self.now.number }
    {
        if self.number.text.is_empty() {
            None
        } else {
            Some(&self.number)
        }
    }

    /// The word.
    pub fn word(&self) -> &Piece
        ensures { result.now ≡ self.now.word }
    {
        &self.word
    }
}

// A kind of character.
#[derive(Clone, Copy)]
enum Class {
    Space,
    Zero,
    Nonzero,
    Letter,
    Star,
    Plus,
    Comma,
    Other,
}

// What a text was read up to.
#[derive(Clone, Copy)]
enum Stage {
    Start,
    AfterZero,
    InNumber,
    AfterNumber,
    AfterStar,
    InWord,
    AfterWord,
}

fn class_of(byte: u8) -> Class
    ensures { result ≡ class_of byte }
{
    match byte {
        b' ' | b'\t' | b'\r' | b'\n' => Class::Space,
        b'0' => Class::Zero,
        b'1'..=b'9' => Class::Nonzero,
        b'A'..=b'Z' | b'a'..=b'z' => Class::Letter,
        b'*' => Class::Star,
        b'+' => Class::Plus,
        b',' => Class::Comma,
        _ => Class::Other,
    }
}

fn next_stage(stage: Stage, class: Class) -> Option<Stage>
    ensures { result ≡ next_stage stage class }
{
    match (stage, class) {
        (Stage::Start, Class::Space) => Some(Stage::Start),
        (Stage::Start, Class::Zero) => Some(Stage::AfterZero),
        (Stage::Start, Class::Nonzero) => Some(Stage::InNumber),
        (Stage::Start | Stage::AfterStar | Stage::InWord, Class::Letter) => Some(Stage::InWord),
        (Stage::InNumber, Class::Zero | Class::Nonzero) => Some(Stage::InNumber),
        (Stage::AfterZero | Stage::InNumber | Stage::AfterNumber, Class::Space) => Some(
            Stage::AfterNumber,
        ),
        (Stage::AfterZero | Stage::InNumber | Stage::AfterNumber, Class::Star) => Some(
            Stage::AfterStar,
        ),
        (Stage::AfterStar, Class::Space) => Some(Stage::AfterStar),
        (Stage::InWord | Stage::AfterWord, Class::Space) => Some(Stage::AfterWord),
        (Stage::InWord | Stage::AfterWord, Class::Plus | Class::Comma) => Some(Stage::Start),
        _ => None,
    }
}

fn may_end(stage: Stage) -> bool
    ensures { result ≡ may_end stage }
{
    matches!(stage, Stage::InWord | Stage::AfterWord)
}

/// How many bytes of a text begin a weights text, where the text isn't one.
pub fn stop(text: &[u8]) -> Option<usize>
    ensures { result ≡ stop Start 0 text.now }
{
    let mut stage = Stage::Start;
    for (i, byte) in text.iter().enumerate() {
        match next_stage(stage, class_of(*byte)) {
            Some(next) => stage = next,
            None => return Some(i),
        }
    }
    if may_end(stage) {
        None
    } else {
        Some(text.len())
    }
}

// What was read so far: ended terms, ended parts of the next one, and what there is of its next part.
#[derive(Drop)]
struct Noted {
    terms: Vec<Listed<WrittenPart>>,
    parts: Vec<WrittenPart>,
    number: Piece,
    word: Piece,
}

impl Model for Noted {
    ghost use Rattle.wi_quantity.specs.private.Noting.{Noted};

    ghost Value = { Noted };

    ghost view = { λ n. record { terms = n.terms.items; parts = n.parts.items; number = n.number; word = n.word } };
}

impl Noted {
    fn new(alloc: Global) -> Noted
        ensures { result ≡ nothing }
    {
        Noted {
            terms: Vec::new(alloc),
            parts: Vec::new(alloc),
            number: Piece::new(alloc),
            word: Piece::new(alloc),
        }
    }

    // Notes the byte at a place of a text that is a weights text.
    fn note(&mut self, at: usize, byte: u8) -> Result<(), NoMemory>
        ensures { OnOk result (self.new ≡ noted self.old at byte) }
    {
        match class_of(byte) {
            Class::Zero | Class::Nonzero => self.number.push(at, byte),
            Class::Letter => self.word.push(at, byte),
            Class::Plus => self.end_part(),
            Class::Comma => self.end_term(),
            Class::Space | Class::Star | Class::Other => Ok(()),
        }
    }

    fn end_part(&mut self) -> Result<(), NoMemory>
        ensures { OnOk result (self.new ≡ end_part self.old) }
    {
        let alloc = *self.parts.allocator();
        let number = mem::replace(&mut self.number, Piece::new(alloc));
        let word = mem::replace(&mut self.word, Piece::new(alloc));
        self.parts.push(WrittenPart::of(number, word))?;
        Ok(())
    }

    fn end_term(&mut self) -> Result<(), NoMemory>
        ensures { OnOk result (self.new ≡ end_term self.old) }
    {
        self.end_part()?;
        let alloc = *self.parts.allocator();
        let parts = mem::replace(&mut self.parts, Vec::new(alloc));
        self.terms.push(Listed::of(parts))?;
        Ok(())
    }

    fn into_terms(self) -> Vec<Listed<WrittenPart>>
        ensures { result.items ≡ self.terms }
    {
        let Noted {
            terms,
            parts: _,
            number: _,
            word: _,
        } = self;
        terms
    }
}

/// The terms of a weights text, each as its parts.
pub fn terms_in(alloc: Global, text: &[u8]) -> Result<Vec<Listed<WrittenPart>>, NoMemory>
    ensures { IfOk result (λ terms. terms.items ≡ (end_term (note_all nothing 0 text.now)).terms) }
{
    let mut noted = Noted::new(alloc);
    for (i, byte) in text.iter().enumerate() {
        noted.note(i, *byte)?;
    }
    noted.end_term()?;
    Ok(noted.into_terms())
}
