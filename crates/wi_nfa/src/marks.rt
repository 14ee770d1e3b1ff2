//! Which state may follow which is first collected as marks in a square table, so that no pair is listed twice however often it
//! is found. It takes the square of the states in bytes, and an expression has at most 512 positions.
ghost use Rattle.std.specs.Prelude.{◌≡◌, ◌<◌, ℕ, Bool, false, IsTrue, IfOk, All, Contains, vec_len, slice_index_or, replicate};
ghost use Rattle.wi_nfa.specs.private.Marks.{marked, IsSquare, AddsSome, AddsMarks};

use std::alloc::Global;
use wi_regex::NoMemory;

/// A row with no marks.
pub(crate) fn blank(alloc: Global, size: usize) -> Result<Vec<bool>, NoMemory>
    ensures items { IfOk result (λ v. v.items ≡ replicate size false) }
    ensures len { IfOk result (λ v. vec_len v ≡ size) }
{
    Ok(vec![in alloc; false; size]?)
}

/// A table with no marks.
pub(crate) fn blank_table(alloc: Global, size: usize) -> Result<Vec<Vec<bool>>, NoMemory>
    ensures count { IfOk result (λ v. vec_len v ≡ size) }
    ensures square { IfOk result (λ v. IsSquare v.items size) }
    ensures none { IfOk result (λ v. (p q : ℕ) → IsTrue (marked v.items p q) → ⊥) }
{
    let mut rows = Vec::new(alloc);
    for _row in 0..size {
        rows.push(blank(alloc, size)?)?;
    }
    Ok(rows)
}

/// Whether the place has a mark: there is none past the end.
pub(crate) fn is_set(marks: &[bool], p: usize) -> bool
    ensures { result ≡ slice_index_or marks.now p false }
{
    match marks.get(p) {
        Some(mark) => *mark,
        None => false,
    }
}

/// Whether row p has a mark at q: there is none past the end.
pub(crate) fn is_marked(rows: &[Vec<bool>], p: usize, q: usize) -> bool
    ensures { result ≡ marked rows.now p q }
{
    match rows.get(p) {
        Some(row) => is_set(row.as_slice(), q),
        None => false,
    }
}

/// Marks these places of the row.
pub(crate) fn mark(row: &mut Vec<bool>, places: &[usize])
    requires { All (λ q. q < vec_len row.old) places.now }
    ensures len { vec_len row.new ≡ vec_len row.old }
    ensures marks { AddsSome row.old.items row.new.items (λ q. Contains places.now q) }
{
    for q in places {
        row[*q] = true;
    }
}

/// Marks that each of begins may come next after each of ends.
pub(crate) fn link(rows: &mut Vec<Vec<bool>>, ends: &[usize], begins: &[usize])
    requires square { IsSquare rows.old.items (vec_len rows.old) }
    requires ends { All (λ p. p < vec_len rows.old) ends.now }
    requires begins { All (λ q. q < vec_len rows.old) begins.now }
    ensures len { vec_len rows.new ≡ vec_len rows.old }
    ensures square { IsSquare rows.new.items (vec_len rows.new) }
    ensures marks { AddsMarks rows.old.items rows.new.items (λ p q. Contains ends.now p × Contains begins.now q) }
{
    for p in ends {
        mark(&mut rows[*p], begins);
    }
}
