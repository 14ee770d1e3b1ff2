//! Keys come in crowds: what may stand below one symbol is handed on to others, and a state that is reached by a pop comes up with
//! all that may stand below. So whether a key was found is a bit, and neighbours with one first part have their bits in one word,
//! which is hashed: a key takes little more than its bit where many are found, and as much as a hashed one where few are.
ghost use Rattle.std.specs.Prelude.{◌≡◌, ℕ, ◌<◌, ◌||◌, not, true, false, IfOk, OnOk, OnErr};
ghost use Rattle.wi_reduce.specs.private.Worklists.{eq_by_parts};
ghost use Rattle.wi_reduce.specs.private.Bits.{has_bit, word_at};

use std::alloc::Global;
use std::collections::HashMap;
use std::hash::Hash;
use wi_base::NoMemory;

/// A number: states and symbols are.
pub(crate) trait Number: Copy + Eq {
    /// Its 64th part.
    ghost part: { Self → Self };

    /// What is left over.
    ghost rest: { Self → ℕ };

    /// Its 64th part, and what is left over.
    fn cut(self) -> (Self, u32)
        ensures part { result.0 ≡ part self }
        ensures rest { result.1 ≡ rest self }
        ensures below { result.1 < 64 };

    /// Both tell the number.
    ghost whole: { (x y : Self) → part x ≡ part y → rest x ≡ rest y → x ≡ y };

    /// Numbers that compare equal are the same.
    ghost same: { (x y : Self) → Self.eq x y ≡ true → x ≡ y };
}

impl Number for u32 {
    ghost use Rattle.std.specs.Prelude.{◌/◌, ◌%◌};
    ghost use Rattle.wi_reduce.specs.lemmas.Numbers.{whole_number, same_number};

    ghost part = { λ n. n / 64 };

    ghost rest = { λ n. n % 64 };

    ghost whole = { whole_number };

    ghost same = { same_number };

    fn cut(self) -> (u32, u32) {
        (self / 64, self % 64)
    }
}

impl Number for u64 {
    ghost use Rattle.std.specs.Prelude.{◌/◌, ◌%◌};
    ghost use Rattle.wi_reduce.specs.lemmas.Numbers.{whole_number, same_number};

    ghost part = { λ n. n / 64 };

    ghost rest = { λ n. n % 64 };

    ghost whole = { whole_number };

    ghost same = { same_number };

    fn cut(self) -> (u64, u32) {
        (self / 64, (self % 64) as u32)
    }
}

/// Pairs of numbers as bits, in words by the first number and the 64th part of the second.
#[derive(Drop)]
pub(crate) struct Bits<A: Number + Hash, B: Number + Hash> {
    words: HashMap<(A, B), u64>,
}

impl<A: Number + Hash + Drop, B: Number + Hash + Drop> Bits<A, B> {
    /// No pair. It takes no memory.
    pub(crate) fn new(alloc: Global) -> Self
        ensures { (q : A × B) → has_bit A.eq B.eq B.part B.rest result.words q ≡ false }
    {
        Bits {
            words: HashMap::new(alloc),
        }
    }

    // The word at a place; where there is none, no bit is set.
    fn word(&self, place: (A, B)) -> u64
        ensures { result ≡ word_at A.eq B.eq self.now.words place }
    {
        self.words.get(&place).copied().unwrap_or(0)
    }

    /// Adds a pair: whether it is new.
    pub(crate) fn add(&mut self, pair: (A, B)) -> Result<bool, NoMemory>
        ensures told { IfOk result (λ new. new ≡ not (has_bit A.eq B.eq B.part B.rest self.old.words pair)) }
        ensures added { OnOk result ((q : A × B) → has_bit A.eq B.eq B.part B.rest self.new.words q ≡ (eq_by_parts A.eq B.eq pair q || has_bit A.eq B.eq B.part B.rest self.old.words q)) }
        ensures same { IfOk result (λ new. new ≡ false → (q : A × B) → has_bit A.eq B.eq B.part B.rest self.new.words q ≡ has_bit A.eq B.eq B.part B.rest self.old.words q) }
        ensures err { OnErr result ((q : A × B) → has_bit A.eq B.eq B.part B.rest self.new.words q ≡ has_bit A.eq B.eq B.part B.rest self.old.words q) }
    {
        let (part, rest) = pair.1.cut();
        let place = (pair.0, part);
        let word = self.word(place);
        if (word >> rest) & 1 == 1 {
            return Ok(false);
        }
        self.words.insert(place, word | (1 << rest))?;
        Ok(true)
    }
}
