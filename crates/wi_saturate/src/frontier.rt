//! Of several ways to one summary only the lightest can be settled. So a candidate goes on the heap only where it is lighter
//! than each that was offered for its summary: the heap is as long as there are summaries and better ways to them, and not as
//! long as there are ways.
ghost use Rattle.std.specs.Prelude.{◌≡◌, ◌+◌, ◌≤◌, None, ℕ, OnOk, [], length};
ghost use Rattle.wi_saturate.specs.private.Lightest.{weight_at};
ghost use Rattle.wi_saturate.specs.private.Frontiers.{Offers};

use crate::heap::{Candidate, Heap};
use crate::lightest::Lightest;
use crate::steps::Steps;
use std::alloc::Global;
use std::sync::ledger::Ledger;
use wi_base::NoMemory;
use wi_weight::Domain;

// The candidates that may be settled next, and what was offered for each summary: at its head's place, for the state in which it
// ends.
#[derive(Drop)]
pub(crate) struct Frontier<W: Domain> {
    pub(crate) heap: Heap<W>,
    pub(crate) offered: Lightest<W>,
}

impl<W: Domain> Frontier<W> {
    // No candidate yet.
    pub(crate) fn new(alloc: Global) -> Self
        ensures heap { result.heap ≡ [] }
        ensures offered { (head q : ℕ) → weight_at result.offered head q ≡ None }
    {
        Frontier {
            heap: Heap::new(alloc),
            offered: Lightest::new(alloc),
        }
    }

    // Puts the candidate of a head on the heap, if none that is as light was offered for its summary.
    pub(crate) fn offer<M: Ledger>(
        &mut self,
        head: usize,
        candidate: Candidate<W>,
        tries: &mut Steps<M>,
    ) -> Result<(), NoMemory>
        ensures offered { OnOk result (Offers W.scale W.components head candidate self.old self.new) }
        ensures lengths { OnOk result (length self.new.heap + tries.old ≡ length self.old.heap + tries.new) }
        ensures tries { OnOk result (tries.new ≤ tries.old + 1) }
    {
        if !self.offered.lower(head, candidate.q, candidate.weight)? {
            return Ok(());
        }
        self.heap.push(candidate, tries)
    }
}
