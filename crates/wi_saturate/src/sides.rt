//! A rule that leaves a symbol where it is does the same for each symbol, and there is one for each head of its state. So what
//! rules do is kept without their heads, and once where a guess names the same: a rule then takes no more than two numbers.
ghost use Rattle.std.specs.Prelude.{◌≡◌, ◌<◌, ◌++◌, [], List, Some, IfOk, length, slice_get, slice_index_or};
ghost use Rattle.wi_saturate.specs.declared.sides.Side.{Side};
ghost use Rattle.wi_saturate.specs.private.Sides.{whole_word};

use crate::weights::number_of;
use std::alloc::Global;
use std::marker::Model;
use wi_base::NoMemory;
use wi_pds::Word2;
use wi_weight::Domain;

// The right-hand side of a rule, and its place among the rules of its head. A top that is written again below all else isn't part
// of the word.
#[derive(Clone, Copy)]
pub(crate) struct Side<W> {
    pub(crate) weight: W,
    pub(crate) to: u64,
    pub(crate) tag: u64,
    pub(crate) at: u32,
    pub(crate) word: Word2,
    pub(crate) keeps_top: bool,
}

// The same, with the number of its weight.
#[derive(Clone, Copy, PartialEq, Eq)]
struct SmallSide {
    to: u64,
    tag: u64,
    weight: usize,
    at: u32,
    word: Word2,
    keeps_top: bool,
}

// Right-hand sides, each with a number.
#[derive(Drop)]
pub(crate) struct Sides<W> {
    small: Vec<SmallSide>,
    weights: Vec<W>,
    // Stands in definitions for the weight of a number that names none.
    unit: W,
}

impl<W> Model for Sides<W> {
    ghost use Rattle.std.specs.Prelude.{map};
    ghost use Rattle.std.specs.List.{All};
    ghost use Rattle.wi_saturate.specs.private.Sides.{SidesView};
    ghost use Rattle.wi_saturate.specs.private.SmallSides.{side_of, IsWithin};

    ghost Value = { SidesView W };

    ghost view = { λ s. record { items = map (side_of s.weights.items s.unit) s.small.items; unit = s.unit } };

    ghost invariant = { λ s. All (IsWithin s.weights.items) s.small.items };
}

// The word without the top at its end, and whether it had that.
pub(crate) fn without_top(top: u32, word: Word2) -> (Word2, bool)
    ensures { whole_word top result.0 result.1 ≡ word }
{
    match word {
        Word2::One(last) if last == top => (Word2::Empty, true),
        Word2::Two(first, last) if last == top => (Word2::One(first), true),
        _ => (word, false),
    }
}

// The word with the top at its end, if it had that.
pub(crate) fn with_top(top: u32, word: Word2, keeps_top: bool) -> Word2
    ensures { result ≡ whole_word top word keeps_top }
{
    match word {
        Word2::Empty if keeps_top => Word2::One(top),
        Word2::One(first) if keeps_top => Word2::Two(first, top),
        _ => word,
    }
}

impl<W: Domain> Sides<W> {
    // None yet.
    pub(crate) fn new(alloc: Global) -> Self
        ensures { result.items ≡ [] }
    {
        Sides {
            small: Vec::new(alloc),
            weights: Vec::new(alloc),
            unit: W::unit(),
        }
    }

    // The number of the side: the guess, where that names the same, else that of a new one.
    pub(crate) fn number_of(&mut self, guess: usize, side: Side<W>) -> Result<usize, NoMemory>
        ensures more { (more : List (Side W)) × (self.new ≡ record { items = self.old.items ++ more; unit = self.old.unit }) }
        ensures there { IfOk result (λ n. slice_get self.new.items n ≡ Some side) }
    {
        let near = self.small.get(guess).map_or(0, |known| known.weight);
        let weight = number_of(&mut self.weights, near, side.weight)?;
        let small = SmallSide {
            to: side.to,
            tag: side.tag,
            weight,
            at: side.at,
            word: side.word,
            keeps_top: side.keeps_top,
        };
        if let Some(known) = self.small.get(guess) {
            if *known == small {
                return Ok(guess);
            }
        }
        let number = self.small.len();
        self.small.push(small)?;
        Ok(number)
    }

    // The side of the number.
    pub(crate) fn get(&self, number: usize) -> Side<W>
        requires { number < length self.now.items }
        ensures { result ≡ slice_index_or self.now.items number result }
    {
        let small = self.small[number];
        Side {
            weight: self.weights[small.weight],
            to: small.to,
            tag: small.tag,
            at: small.at,
            word: small.word,
            keeps_top: small.keeps_top,
        }
    }
}
