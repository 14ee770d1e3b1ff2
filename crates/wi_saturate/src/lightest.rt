//! Of several ways to the same place only the lightest matters, and it is known by its weight. It costs a number for each place
//! that was reached, a look-up for each way, and a weight each time when another one is noted.
ghost use Rattle.std.specs.Prelude.{◌≡◌, false, true, Some, None, ℕ, IfOk, option_map};
ghost use Rattle.wi_weight.specs.Weights.{AtMost};
ghost use Rattle.wi_saturate.specs.private.Lightest.{Covers, Lowers, weight_at};

use crate::weights::number_of;
use std::alloc::Global;
use std::cmp::Ordering;
use std::collections::HashMap;
use std::marker::Model;
use wi_base::NoMemory;
use wi_weight::Domain;

// For each place, which is given by a head's place and a number, the lightest weight that was noted.
#[derive(Drop)]
pub(crate) struct Lightest<W> {
    // of each place the number of its weight
    numbers: HashMap<(usize, u64), usize>,
    weights: Vec<W>,
}

impl<W> Model for Lightest<W> {
    ghost use Rattle.wi_saturate.specs.private.Lightest.{Noted, AreNumbers};

    ghost Value = { Noted W };

    ghost view = { λ s. record { numbers = s.numbers.entries; weights = s.weights.items } };

    ghost invariant = { λ s. AreNumbers s.weights.items s.numbers.entries };
}

impl<W: Domain> Lightest<W> {
    // Nothing was noted yet.
    pub(crate) fn new(alloc: Global) -> Self
        ensures { (head to : ℕ) → weight_at result head to ≡ None }
    {
        Lightest {
            numbers: HashMap::new(alloc),
            weights: Vec::new(alloc),
        }
    }

    // Notes a weight, if it is lighter than what was noted there: whether it is.
    pub(crate) fn lower(&mut self, head: usize, to: u64, weight: W) -> Result<bool, NoMemory>
        ensures { IfOk result (Lowers W.scale W.components head to weight self.old self.new) }
    {
        if self.has_as_light(head, to, weight) {
            return Ok(false);
        }
        let newest = self.weights.len().saturating_sub(1);
        let number = number_of(&mut self.weights, newest, weight)?;
        self.numbers.insert((head, to), number)?;
        Ok(true)
    }

    // What was noted at the place.
    fn weight(&self, head: usize, to: u64) -> Option<&W>
        ensures { option_map (λ w. w.now) result ≡ weight_at self.now head to }
    {
        let number = self.numbers.get(&(head, to))?;
        self.weights.get(*number)
    }

    // Whether something that weighs no more was noted.
    fn has_as_light(&self, head: usize, to: u64, weight: W) -> bool
        ensures reached { result ≡ true → Covers W.scale W.components self.now head to (W.components weight) }
        ensures lighter { result ≡ false → (x : W) → weight_at self.now head to ≡ Some x → AtMost W.scale (W.components weight) (W.components x) }
    {
        match self.weight(head, to) {
            Some(noted) => match noted.compare(&weight) {
                Ordering::Greater => false,
                _ => true,
            },
            None => false,
        }
    }
}
