//! Marks become lists once, so that a walk goes over the states that may follow and not over all of them. To list rows and
//! columns goes over the whole table twice. Atoms are copied, so that an automaton stands without its expression.
ghost use Rattle.std.specs.Prelude.{◌≡◌, ◌<◌, ◌^◌, ℕ, IsTrue, OnOk, IfOk, filter, length, vec_len};
ghost use Rattle.std.specs.List.{range_with_len};
ghost use Rattle.wi_nfa.specs.Automata.{ListsRising};
ghost use Rattle.wi_nfa.specs.private.Marks.{marked, IsSquare};
ghost use Rattle.wi_nfa.specs.private.Atoms.{AddsAtoms};
ghost use Rattle.wi_nfa.specs.Rows.{row};

use crate::marks::is_marked;
use std::alloc::Global;
use wi_regex::{Atom, NoMemory, Regex};

// The marks of one row.
fn listed(alloc: Global, marks: &[Vec<bool>], p: usize) -> Result<Vec<u32>, NoMemory>
    requires { length marks.now < 2 ^ 32 }
    ensures { IfOk result (λ v. v.items ≡ filter (λ q. marked marks.now p q) (range_with_len 0 (length marks.now))) }
{
    let size = marks.len() as u32;
    let states = (0..size).filter(|q| is_marked(marks, p, *q as usize));
    Ok(states.collect(alloc)?)
}

// The marks of one column.
fn listed_down(alloc: Global, marks: &[Vec<bool>], q: usize) -> Result<Vec<u32>, NoMemory>
    requires { length marks.now < 2 ^ 32 }
    ensures { IfOk result (λ v. v.items ≡ filter (λ p. marked marks.now p q) (range_with_len 0 (length marks.now))) }
{
    let size = marks.len() as u32;
    let states = (0..size).filter(|p| is_marked(marks, *p as usize, q));
    Ok(states.collect(alloc)?)
}

/// The states that may come next after each.
pub(crate) fn rows_of(alloc: Global, marks: &[Vec<bool>]) -> Result<Vec<Vec<u32>>, NoMemory>
    requires square { IsSquare marks.now (length marks.now) }
    requires size { length marks.now < 2 ^ 32 }
    ensures len { IfOk result (λ v. vec_len v ≡ length marks.now) }
    ensures rows { IfOk result (λ v. (p : ℕ) → ListsRising (row v.items p) (λ q. IsTrue (marked marks.now p q))) }
{
    let mut rows = Vec::new(alloc);
    for p in 0..marks.len() {
        rows.push(listed(alloc, marks, p)?)?;
    }
    Ok(rows)
}

/// The states that each may come next after.
pub(crate) fn columns_of(alloc: Global, marks: &[Vec<bool>]) -> Result<Vec<Vec<u32>>, NoMemory>
    requires square { IsSquare marks.now (length marks.now) }
    requires size { length marks.now < 2 ^ 32 }
    ensures len { IfOk result (λ v. vec_len v ≡ length marks.now) }
    ensures rows { IfOk result (λ v. (q : ℕ) → ListsRising (row v.items q) (λ p. IsTrue (marked marks.now p q))) }
{
    let mut columns = Vec::new(alloc);
    for q in 0..marks.len() {
        columns.push(listed_down(alloc, marks, q)?)?;
    }
    Ok(columns)
}

/// Adds atoms that hold the same symbols as the expression's, in order.
pub(crate) fn push_atoms<A: Atom>(
    alloc: Global,
    regex: &Regex<A>,
    atoms: &mut Vec<A>,
) -> Result<(), NoMemory>
    ensures { OnOk result (AddsAtoms A.set regex.now atoms.old.items atoms.new.items) }
{
    match regex {
        Regex::Atom(a) => {
            atoms.push(a.twin(alloc)?)?;
            Ok(())
        }
        Regex::Concat(a, b) | Regex::Either(a, b) => {
            push_atoms(alloc, a, atoms)?;
            push_atoms(alloc, b, atoms)
        }
        Regex::Star(a) | Regex::Plus(a) | Regex::Maybe(a) => push_atoms(alloc, a, atoms),
    }
}
