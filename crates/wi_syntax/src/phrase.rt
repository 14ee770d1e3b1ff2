//! An expression is kept as the list of its signs, and of its open brackets only how many there are: so nesting costs nothing,
//! and trees are made elsewhere. It takes a sign for each atom, bracket and mark.
ghost use Rattle.std.specs.Prelude.{◌≡◌, IfOk, OnOk};
ghost use Rattle.wi_syntax.specs.private.Parsing.{no_phrasing, is_whole, with_atom, if_behind, after_sign, goes};
ghost use Rattle.wi_syntax.specs.declared.token.Mark.{Mark};

use crate::token::Mark;
use crate::written::Sign;
use std::alloc::Global;
use std::marker::Model;
use wi_base::{Listed, NoMemory};

/// An expression that is being read.
#[derive(Drop)]
pub(crate) struct Phrase<A> {
    signs: Vec<Sign<A>>,
    // How many brackets are open.
    depth: usize,
    // Whether an item stands last.
    behind: bool,
}

impl<A> Model for Phrase<A> {
    ghost use Rattle.std.specs.Prelude.{◌≤◌, length};
    ghost use Rattle.wi_syntax.specs.private.Parsing.{Phrasing};

    ghost Value = { Phrasing A };

    ghost view = { λ p. record { signs = p.signs.items; depth = p.depth; behind = p.behind } };

    ghost invariant = { λ p. p.depth ≤ length p.signs.items };
}

impl<A: Drop> Phrase<A> {
    /// No sign yet.
    pub(crate) fn new(alloc: Global) -> Phrase<A>
        ensures { result ≡ no_phrasing }
    {
        Phrase {
            signs: Vec::new(alloc),
            depth: 0,
            behind: false,
        }
    }

    /// Whether an item stands last, and no bracket is open.
    pub(crate) fn is_whole(&self) -> bool
        ensures { result ≡ is_whole self.now }
    {
        self.behind && self.depth == 0
    }

    /// The signs.
    pub(crate) fn into_signs(self) -> Listed<Sign<A>>
        ensures { result ≡ self.signs }
    {
        Listed::of(self.signs)
    }

    /// Adds an atom.
    pub(crate) fn push_atom(&mut self, atom: A) -> Result<(), NoMemory>
        ensures { OnOk result (self.new ≡ with_atom self.old atom) }
    {
        self.signs.push(Sign::Atom(atom))?;
        self.behind = true;
        Ok(())
    }

    /// Goes on with a mark that is a sign. It tells whether some expression goes on so.
    pub(crate) fn next(&mut self, mark: Mark) -> Result<bool, NoMemory>
        ensures { IfOk result (λ on. after_sign self.old mark ≡ goes self.new on) }
    {
        match mark {
            Mark::OpenRound => self.open(),
            Mark::CloseRound => self.close(),
            Mark::Star => self.push_behind(Sign::Star, true),
            Mark::Plus => self.push_behind(Sign::Plus, true),
            Mark::Question => self.push_behind(Sign::Maybe, true),
            Mark::Bar => self.push_behind(Sign::Or, false),
            _ => Ok(false),
        }
    }

    fn open(&mut self) -> Result<bool, NoMemory>
        ensures { IfOk result (λ on. after_sign self.old Mark.OpenRound ≡ goes self.new on) }
    {
        self.signs.push(Sign::Open)?;
        let _count = self.signs.len();
        self.depth += 1;
        self.behind = false;
        Ok(true)
    }

    fn close(&mut self) -> Result<bool, NoMemory>
        ensures { IfOk result (λ on. after_sign self.old Mark.CloseRound ≡ goes self.new on) }
    {
        if !self.behind || self.depth == 0 {
            return Ok(false);
        }
        self.signs.push(Sign::Close)?;
        self.depth -= 1;
        Ok(true)
    }

    // Adds a sign that has to stand behind an item.
    fn push_behind(&mut self, sign: Sign<A>, behind: bool) -> Result<bool, NoMemory>
        ensures { IfOk result (λ on. if_behind self.old sign behind ≡ goes self.new on) }
    {
        if !self.behind {
            return Ok(false);
        }
        self.signs.push(sign)?;
        self.behind = behind;
        Ok(true)
    }
}
