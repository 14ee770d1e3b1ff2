//! A line is taken apart from the left, by what it begins with, and lends what it says: only the text of its query takes memory.
//! What is blank is said by a test of its own, since white space as std has it takes in form feeds, and characters past ASCII.
ghost use Rattle.std.specs.Prelude.{◌≡◌, ℕ, List, reverse, replicate, string_bytes, IfOk, option_map};
ghost use Rattle.std.specs.List.{list_all, prefix_len};
ghost use Rattle.wi_world.specs.declared.answer.Word.{Word};
ghost use Rattle.wi_text.specs.Characters.{begins_with, is_plain};
ghost use Rattle.wi_policy.specs.Line.{after_blanks, behind, cut, is_blank, is_printable, says_nothing, statement_in, trimmed, worded};
ghost use Rattle.wi_policy.specs.private.Reading.{statement_said};

use std::alloc::Global;
use wi_base::NoMemory;
use wi_text::is_plain;
use wi_world::Word;

/// What a line says.
#[derive(Clone, Copy)]
pub struct Said<'a> {
    pub word: Word,
    /// What stands between the word and the query, without what is blank around it.
    pub name: &'a str,
    /// What begins with the first `<` behind the word.
    pub query: &'a str,
    /// How many bytes of the line stand before the query.
    pub before: usize,
}

// Whether a byte is a space, a tab or a carriage return.
fn is_blank(byte: u8) -> bool
    ensures { result ≡ is_blank byte }
{
    matches!(byte, b' ' | b'\t' | b'\r')
}

// How many blank bytes a text begins with.
fn blanks_before(bytes: &[u8]) -> usize
    ensures { result ≡ prefix_len is_blank bytes.now }
{
    bytes.iter().take_while(|byte| is_blank(**byte)).count()
}

// How many blank bytes a text ends with.
fn blanks_behind(bytes: &[u8]) -> usize
    ensures { result ≡ prefix_len is_blank (reverse bytes.now) }
{
    bytes
        .iter()
        .rev()
        .take_while(|byte| is_blank(**byte))
        .count()
}

// A text without what is blank at its beginning.
fn after_blanks<'a>(text: &'a str) -> &'a str
    ensures { result.now ≡ after_blanks text.now }
{
    text.split_at(blanks_before(text.as_bytes())).1
}

// A text without what is blank at its end.
fn before_blanks<'a>(text: &'a str) -> &'a str
    ensures { result.now ≡ reverse (after_blanks (reverse text.now)) }
{
    text.split_at(text.len() - blanks_behind(text.as_bytes())).0
}

// A text without what is blank at either end.
fn trimmed<'a>(text: &'a str) -> &'a str
    ensures { result.now ≡ trimmed text.now }
{
    before_blanks(after_blanks(text))
}

/// Whether nothing stands on a line, or a comment.
pub fn says_nothing(line: &str) -> bool
    ensures { result ≡ says_nothing line.now }
{
    match after_blanks(line).as_bytes() {
        [] => true,
        [first, ..] => *first == b'#',
    }
}

// What stands behind a word with which a text begins, if no plain character follows the word.
fn behind<'a>(word: &str, text: &'a str) -> Option<&'a str>
    ensures { option_map (λ rest. rest.now) result ≡ behind word.now text.now }
{
    let rest = text.strip_prefix(word)?;
    if begins_plain(rest) { None } else { Some(rest) }
}

// Whether a text begins with a plain character.
fn begins_plain(text: &str) -> bool
    ensures { result ≡ begins_with is_plain text.now }
{
    match text.as_bytes() {
        [] => false,
        [first, ..] => is_plain(char::from(*first)),
    }
}

// The word with which a text begins, and what stands behind it.
fn worded<'a>(text: &'a str) -> Option<(Word, &'a str)>
    ensures { option_map {U = Word × List ℕ} (λ r. (r.0, r.1.now)) result ≡ worded text.now }
{
    match behind("yes", text) {
        Some(rest) => Some((Word::Yes, rest)),
        None => Some((Word::No, behind("no", text)?)),
    }
}

// What stands before the first `<` of a text, and what begins with it.
fn cut<'a>(text: &'a str) -> Option<(&'a str, &'a str)>
    ensures { option_map {U = List ℕ × List ℕ} (λ r. (r.0.now, r.1.now)) result ≡ cut text.now }
{
    Some(text.split_at(text.find('<')?))
}

// No control characters.
fn are_printable(bytes: &[u8]) -> bool
    ensures { result ≡ list_all is_printable bytes.now }
{
    bytes.iter().all(|byte| *byte > 31 && *byte != 127)
}

/// What a line says, if it is of its form.
pub fn said_on<'a>(line: &'a str) -> Option<Said<'a>>
    ensures { option_map statement_said result ≡ statement_in line.now }
{
    let (word, rest) = worded(after_blanks(line))?;
    let (front, query) = cut(rest)?;
    let name = trimmed(front);
    if !are_printable(name.as_bytes()) {
        return None;
    }
    let before = line.len() - query.len();
    Some(Said {
        word,
        name,
        query,
        before,
    })
}

/// The text of the query, behind as many spaces as bytes stand before it on the line.
pub fn query_text(alloc: Global, said: Said) -> Result<String, NoMemory>
    ensures { IfOk result (λ text. string_bytes text ≡ (statement_said said.entry).query) }
{
    let mut text = spaces(alloc, said.before)?;
    text.push_str(said.query)?;
    Ok(text)
}

// So many spaces.
fn spaces(alloc: Global, count: usize) -> Result<String, NoMemory>
    ensures { IfOk result (λ text. string_bytes text ≡ replicate count 32) }
{
    let mut text = String::new(alloc);
    for _ in 0..count {
        text.push(' ')?;
    }
    Ok(text)
}
