//! Rows, and the numbers of their weights. A certificate may have millions of rows, so a row is 80 bytes in place and owns nothing.
ghost use Rattle.std.specs.Prelude.{◌≡◌, ◌≤◌, length};

use std::marker::Model;

// As many numbers as a weight can have: five terms, and the effort.
const MOST: usize = 6;

/// Up to six numbers: those of a weight, the terms' values in their order and then the effort. It owns no memory.
#[derive(Drop)]
pub struct Numbers {
    items: [u64; 6],
    count: usize,
}

impl Model for Numbers {
    ghost use Rattle.std.specs.Prelude.{◌≤◌, ℕ, List, take};

    ghost Value = { List ℕ };

    ghost view = { λ n. take n.count n.items };

    ghost invariant = { λ n. n.count ≤ 6 };
}

impl Numbers {
    /// These numbers, six at most.
    pub fn of(numbers: &[u64]) -> Numbers
        requires { length numbers.now ≤ 6 }
        ensures { result ≡ numbers.now }
    {
        let mut items = [0; MOST];
        let count = numbers.len();
        items[..count].copy_from_slice(numbers);
        Numbers { items, count }
    }

    /// The numbers, in order.
    pub fn as_slice(&self) -> &[u64]
        ensures { result.now ≡ self.now }
    {
        &self.items[..self.count]
    }
}

/// Nothing that leads from the spot `p`, with the symbol `g` alone on the stack, to the spot `q` with nothing left weighs less than
/// this, unless it weighs no less than the run that is shown. Whether that is so, the checker finds out.
#[derive(Drop)]
pub struct Row {
    pub p: u64,
    pub g: u32,
    pub q: u64,
    /// A number for each term, and then the effort.
    pub weight: Numbers,
}
