//! States are kept in rows both ways, those that may come after each and those that it may come after, since an expression is
//! also read backwards. Each way takes up to the square of the states in numbers, so expressions of more than 512 positions are
//! refused, before any memory is taken.
ghost use Rattle.std.specs.Prelude.{◌≡◌, ◌+◌, ◌<◌, ◌≤◌, ◌↔◌, ℕ, true, false, IsTrue, IfOk, IfErr, All, Contains, vec_len, slice_index_or};
ghost use Rattle.wi_regex.specs.Matching.{position_count};
ghost use Rattle.wi_nfa.specs.Automata.{ListsRising, Steps, AcceptsFrom, MayFollow, MayEnd, IsPositionAutomaton};
ghost use Rattle.wi_nfa.specs.private.Marks.{marked, IsSquare, AddsSome};
ghost use Rattle.wi_nfa.specs.Rows.{automaton_of, reads_at};
ghost use Rattle.wi_nfa.specs.Left.{states_left};
ghost use Rattle.wi_nfa.specs.Sets.{symbols};
ghost use Rattle.wi_nfa.specs.private.Sets.{AreLed};
ghost use Rattle.wi_nfa.specs.Refusals.{IsRefusal};

use crate::ends::{Ends, join, mark_follows};
use crate::marks::{blank, blank_table, is_set, link, mark};
use crate::states::{States, enters};
use crate::tables::{columns_of, push_atoms, rows_of};
use std::alloc::Global;
use std::marker::Model;
use wi_regex::{Atom, NoMemory, Regex, Symbol};

/// The most positions that an automaton may have.
pub const POSITION_LIMIT: usize = 512;

/// Why there is no automaton.
#[derive(Clone, Copy, PartialEq, Eq, Debug)]
pub enum NfaRefused {
    /// The expression has so many positions, and that is over the limit.
    TooManyPositions(usize),
    /// Memory ran out.
    Memory,
}

impl From<NoMemory> for NfaRefused {
    ghost use Rattle.std.specs.Prelude.{◌≡◌};
    ghost use Rattle.wi_nfa.specs.declared.nfa.NfaRefused.{NfaRefused};

    ghost from_gives = { λ _ r. r ≡ NfaRefused.Memory };

    fn from(_error: NoMemory) -> Self {
        NfaRefused::Memory
    }
}

/// The position automaton of an expression.
#[derive(Drop)]
pub struct Nfa<A: Atom> {
    // For each state those that may come next, in rising order.
    after: Vec<Vec<u32>>,
    // For each state those that it may come next after, in rising order.
    ahead: Vec<Vec<u32>>,
    accepting: Vec<bool>,
    // State i + 1 is entered by the symbols of atom i.
    atoms: Vec<A>,
}

impl<A: Atom> Model for Nfa<A> {
    ghost use Rattle.wi_nfa.specs.Rows.{Tables};
    ghost use Rattle.wi_nfa.specs.private.Rows.{AreTables};

    ghost Value = { Tables A };

    ghost view = { λ n. record { after = n.after.items; accepting = n.accepting.items; atoms = n.atoms.items } };

    ghost invariant = { λ n. AreTables n.after.items n.ahead.items };
}

// Marks of what may come next after what, the start among it, and of the states that accept.
fn marked_of<A: Atom>(
    alloc: Global,
    regex: &Regex<A>,
    size: usize,
) -> Result<(Vec<Vec<bool>>, Vec<bool>), NoMemory>
    requires { size ≡ position_count regex.now + 1 }
    ensures count { IfOk result (λ t. vec_len t.0 ≡ size) }
    ensures square { IfOk result (λ t. IsSquare t.0.items (vec_len t.0)) }
    ensures follows { IfOk result (λ t. (p q : ℕ) → IsTrue (marked t.0.items p q) ↔ MayFollow regex.now p q) }
    ensures ends { IfOk result (λ t. (p : ℕ) → IsTrue (slice_index_or t.1.items p false) ↔ MayEnd regex.now p) }
{
    let mut marks = blank_table(alloc, size)?;
    let mut found = Ends::new(alloc);
    mark_follows(alloc, regex, 0, false, &mut marks, &mut found)?;
    let start = [0usize];
    link(&mut marks, &start, found.begins.as_slice());
    let mut accepting = blank(alloc, size)?;
    join(&mut found.ends, found.empty, &start)?;
    mark(&mut accepting, found.ends.as_slice());
    Ok((marks, accepting))
}

impl<A: Atom> Nfa<A> {
    /// The position automaton of the expression. Time and memory grow with the square of the number of positions, however
    /// deep the expression is.
    pub fn build(alloc: Global, regex: &Regex<A>) -> Result<Nfa<A>, NfaRefused>
        ensures built { IfOk result (λ m. IsPositionAutomaton A.set regex.now (automaton_of A.set m)) }
        ensures small { IfOk result (λ _. position_count regex.now ≤ POSITION_LIMIT) }
        ensures refused { IfErr result (IsRefusal regex.now) }
    {
        let n = regex.positions();
        if n > POSITION_LIMIT {
            return Err(NfaRefused::TooManyPositions(n));
        }
        let (marks, accepting) = marked_of(alloc, regex, n + 1)?;
        let mut atoms = Vec::new(alloc);
        push_atoms(alloc, regex, &mut atoms)?;
        let table = marks.as_slice();
        let after = rows_of(alloc, table)?;
        let ahead = columns_of(alloc, table)?;
        Ok(Nfa {
            after,
            ahead,
            accepting,
            atoms,
        })
    }

    /// How many states there are: one more than positions. It takes no memory.
    pub fn states(&self) -> usize
        ensures { result ≡ (automaton_of A.set self.now).states }
    {
        self.after.len()
    }

    /// Whether the state accepts: none past the last does. It takes no memory.
    pub fn accepts(&self, q: u32) -> bool
        ensures { result ≡ (automaton_of A.set self.now).accepts q }
    {
        is_set(self.accepting.as_slice(), q as usize)
    }

    /// The states that the symbol leads to from state q, in rising order. The cost is in the number of states that may
    /// come next after q, and it takes no memory.
    pub fn next(&self, q: u32, symbol: Symbol) -> States<'_, A>
        requires { q < (automaton_of A.set self.now).states }
        ensures { ListsRising (states_left A.set result) (Steps (automaton_of A.set self.now) q symbol.0) }
    {
        let row = self.after[q as usize].as_slice();
        States::among(row, self.atoms.as_slice(), symbol)
    }

    /// The states from which the symbol leads to state q, in rising order: `next` turned round. It takes no memory.
    pub fn before(&self, q: u32, symbol: Symbol) -> States<'_, A>
        requires { q < (automaton_of A.set self.now).states }
        ensures { ListsRising (states_left A.set result) (λ p. Steps (automaton_of A.set self.now) p symbol.0 q) }
    {
        let atoms = self.atoms.as_slice();
        if enters(atoms, q, symbol) {
            let row = self.ahead[q as usize].as_slice();
            States::all(row, atoms, symbol)
        } else {
            States::all(&[], atoms, symbol)
        }
    }

    // The states that the symbol leads to from the marked ones.
    fn led(&self, alloc: Global, marks: &[bool], symbol: Symbol) -> Result<Vec<bool>, NoMemory>
        ensures len { IfOk result (λ v. vec_len v ≡ (automaton_of A.set self.now).states) }
        ensures led { IfOk result (λ v. AreLed (automaton_of A.set self.now) marks.now symbol.0 v.items) }
    {
        let size = self.after.len();
        let mut led = blank(alloc, size)?;
        for p in 0..size {
            if is_set(marks, p) {
                let row = self.after[p].as_slice();
                mark_entered(&mut led, row, self.atoms.as_slice(), symbol);
            }
        }
        Ok(led)
    }

    /// Whether a walk from the start to an accepting state spells the word.
    pub fn accepts_word(&self, alloc: Global, word: &[Symbol]) -> Result<bool, NoMemory>
        ensures { IfOk result (λ b. IsTrue b ↔ AcceptsFrom (automaton_of A.set self.now) 0 (symbols word.now)) }
    {
        let mut marks = blank(alloc, self.after.len())?;
        mark(&mut marks, &[0]);
        for symbol in word {
            marks = self.led(alloc, marks.as_slice(), *symbol)?;
        }
        Ok(self.any_accepts(marks.as_slice()))
    }

    // Whether one of the marked states accepts.
    fn any_accepts(&self, marks: &[bool]) -> bool
        ensures { IsTrue result ↔ ((p : ℕ) × (p < (automaton_of A.set self.now).states) × IsTrue (slice_index_or marks.now p false) × IsTrue ((automaton_of A.set self.now).accepts p)) }
    {
        let size = self.after.len();
        for p in 0..size {
            if is_set(marks, p) && is_set(self.accepting.as_slice(), p) {
                return true;
            }
        }
        false
    }
}

// Marks those of the states that the symbol leads to.
fn mark_entered<A: Atom>(marks: &mut Vec<bool>, row: &[u32], atoms: &[A], symbol: Symbol)
    requires { All (λ q. q < vec_len marks.old) row.now }
    ensures len { vec_len marks.new ≡ vec_len marks.old }
    ensures marks { AddsSome marks.old.items marks.new.items (λ q. Contains row.now q × (reads_at A.set atoms.now q symbol.0 ≡ true)) }
{
    for q in row {
        if enters(atoms, *q, symbol) {
            marks[*q as usize] = true;
        }
    }
}
