//! `+` and `?` have cases of their own: with `+` written by concatenation and star, each one would double the positions below
//! it. An expression is a tree with a box for each part, and calls go down it by recursion, so they need a stack that grows
//! with its depth.
ghost use Rattle.std.specs.Prelude.{◌≡◌, [], ◌↔◌, IsTrue, min};
ghost use Rattle.wi_regex.specs.Matching.{Matches, position_count, is_empty_word_in};

use crate::atom::Atom;

/// A regular expression over atoms.
#[derive(Drop)]
pub enum Regex<A> {
    /// A word of one symbol of the set.
    Atom(A),
    /// A word of the first, then a word of the second.
    Concat(Box<Regex<A>>, Box<Regex<A>>),
    /// A word of one of the two, `|`.
    Either(Box<Regex<A>>, Box<Regex<A>>),
    /// Any number of words one after the other, `*`.
    Star(Box<Regex<A>>),
    /// One or more words one after the other, `+`.
    Plus(Box<Regex<A>>),
    /// A word or nothing, `?`.
    Maybe(Box<Regex<A>>),
}

impl<A: Atom> Regex<A> {
    /// Whether the empty word matches. It takes no memory.
    #[tactic(auto, using(crate::proofs::MatchingLemmas::empty_word))]
    pub fn nullable(&self) -> bool
        ensures empty { IsTrue result ↔ Matches A.set self.now [] }
        ensures test { result ≡ is_empty_word_in self.now }
    {
        self.has_empty_word()
    }

    // The test, by cases on the expression.
    fn has_empty_word(&self) -> bool
        ensures { result ≡ is_empty_word_in self.now }
    {
        match self {
            Regex::Atom(_) => false,
            Regex::Concat(a, b) => a.has_empty_word() && b.has_empty_word(),
            Regex::Either(a, b) => a.has_empty_word() || b.has_empty_word(),
            Regex::Star(_) | Regex::Maybe(_) => true,
            Regex::Plus(a) => a.has_empty_word(),
        }
    }

    /// How many positions there are: occurrences of atoms. Past the largest number it is that. It takes no memory.
    pub fn positions(&self) -> usize
        ensures { result ≡ min (position_count self.now) usize.MAX }
    {
        match self {
            Regex::Atom(_) => 1,
            Regex::Concat(a, b) | Regex::Either(a, b) => {
                a.positions().saturating_add(b.positions())
            }
            Regex::Star(a) | Regex::Plus(a) | Regex::Maybe(a) => a.positions(),
        }
    }
}
