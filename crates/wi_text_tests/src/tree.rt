//! Expressions over ranges of symbols, written in short.
ghost use Rattle.std.specs.Prelude.{◌&&◌, nat_le};

use std::alloc::Global;
use std::test::Fail;
use wi_regex::{Atom, NoMemory, Regex, Symbol};

/// The symbols from the first to the last.
#[derive(Drop)]
pub(crate) struct Span {
    first: u32,
    last: u32,
}

impl Atom for Span {
    ghost set = { λ a x. nat_le a.first x && nat_le x a.last };

    fn holds(&self, symbol: Symbol) -> bool {
        self.first <= symbol.0 && symbol.0 <= self.last
    }

    fn twin(&self, _alloc: Global) -> Result<Span, NoMemory> {
        Ok(Span {
            first: self.first,
            last: self.last,
        })
    }
}

/// An expression over ranges.
pub(crate) type Tree = Box<Regex<Span>>;

/// The number that a digit shows.
pub(crate) fn digit(sign: u8) -> u32 {
    sign.saturating_sub(b'0') as u32
}

fn atom_of(first: u32, last: u32) -> Option<Regex<Span>> {
    Some(Regex::Atom(Span { first, last }))
}

// The expression that the sign makes of those on top of the stack. A digit is an atom of one symbol, `.` one of five.
fn made(stack: &mut Vec<Tree>, sign: u8) -> Option<Regex<Span>> {
    let top = match sign {
        b'0'..=b'9' => return atom_of(digit(sign), digit(sign)),
        b'.' => return atom_of(0, 4),
        _ => stack.pop()?,
    };
    match sign {
        b'&' => Some(Regex::Concat(stack.pop()?, top)),
        b'|' => Some(Regex::Either(stack.pop()?, top)),
        b'*' => Some(Regex::Star(top)),
        b'+' => Some(Regex::Plus(top)),
        b'?' => Some(Regex::Maybe(top)),
        _ => None,
    }
}

fn grow(alloc: Global, stack: &mut Vec<Tree>, signs: &[u8]) -> Result<(), Fail> {
    for sign in signs {
        let regex = made(stack, *sign).ok_or("no expression")?;
        stack.push(Box::new(alloc, regex)?)?;
    }
    Ok(())
}

fn repeat(alloc: Global, stack: &mut Vec<Tree>, signs: &[u8], times: u32) -> Result<(), Fail> {
    for _ in 0..times {
        grow(alloc, stack, signs)?;
    }
    Ok(())
}

/// The expression that is written with each sign behind what it is of, each part so many times: `01&*` is `(0 1)*`.
pub(crate) fn tree(alloc: Global, parts: &[(&[u8], u32)]) -> Result<Tree, Fail> {
    let mut stack = Vec::new(alloc);
    for (signs, times) in parts {
        repeat(alloc, &mut stack, signs, *times)?;
    }
    Ok(stack.pop().ok_or("no sign")?)
}
