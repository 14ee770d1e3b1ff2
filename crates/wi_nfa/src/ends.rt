//! One walk over the expression finds where the words of each part begin and end, and marks what may follow what (Glushkov
//! 1961). A loop tells its body to leave out the pairs that the loop itself will mark, so that none is marked more than twice
//! however deep loops nest. Two lists of positions are kept for each part that is still to be joined.
ghost use Rattle.std.specs.Prelude.{◌≡◌, ◌+◌, ◌<◌, ◌^◌, ◌&&◌, ℕ, [], ◌∷◌, false, OnOk, IfOk, All, Contains, vec_len};
ghost use Rattle.wi_regex.specs.Matching.{position_count, is_empty_word_in};
ghost use Rattle.wi_nfa.specs.private.Marks.{IsSquare, AddsMarks, IsJoint};
ghost use Rattle.wi_nfa.specs.private.Ends.{IsBlank, AreEnds, AddsFollows};

use crate::marks::link;
use std::alloc::Global;
use wi_regex::{Atom, NoMemory, Regex};

/// Where the words of an expression begin and end.
#[derive(Drop)]
pub(crate) struct Ends {
    /// How many positions there are.
    pub(crate) count: usize,
    /// Whether the empty word matches.
    pub(crate) empty: bool,
    /// The positions that a word may begin at, in any order.
    pub(crate) begins: Vec<usize>,
    /// The positions that a word may end at, in any order.
    pub(crate) ends: Vec<usize>,
}

/// Adds the places of ys, if also is true.
pub(crate) fn join(xs: &mut Vec<usize>, also: bool, ys: &[usize]) -> Result<(), NoMemory>
    ensures { OnOk result (IsJoint xs.new.items xs.old.items also ys.now) }
{
    if also {
        xs.extend_from_slice(ys)?;
    }
    Ok(())
}

impl Ends {
    ghost use Rattle.wi_nfa.specs.private.Ends.{IsBlank, IsChain, IsChoice};

    /// None yet.
    pub(crate) fn new(alloc: Global) -> Ends
        ensures { IsBlank result }
    {
        Ends {
            count: 0,
            empty: false,
            begins: Vec::new(alloc),
            ends: Vec::new(alloc),
        }
    }

    // Those of one position.
    fn put(&mut self, place: usize) -> Result<(), NoMemory>
        requires { IsBlank self.old }
        ensures count { OnOk result (self.new.count ≡ 1) }
        ensures empty { OnOk result (self.new.empty ≡ false) }
        ensures begins { OnOk result (self.new.begins.items ≡ place ∷ []) }
        ensures ends { OnOk result (self.new.ends.items ≡ place ∷ []) }
    {
        self.count = 1;
        self.empty = false;
        self.begins.push(place)?;
        self.ends.push(place)?;
        Ok(())
    }

    // Those of a concatenation, from those of its front part.
    fn chain(&mut self, rest: Ends) -> Result<(), NoMemory>
        requires { self.old.count + rest.count < 2 ^ 64 }
        ensures { OnOk result (IsChain self.old rest self.new) }
    {
        join(&mut self.begins, self.empty, rest.begins.as_slice())?;
        let mut ends = rest.ends;
        join(&mut ends, rest.empty, self.ends.as_slice())?;
        self.ends = ends;
        self.count += rest.count;
        self.empty &= rest.empty;
        Ok(())
    }

    // Those of a choice, from those of one side.
    fn choose(&mut self, other: &Ends) -> Result<(), NoMemory>
        requires { self.old.count + other.now.count < 2 ^ 64 }
        ensures { OnOk result (IsChoice self.old other.now self.new) }
    {
        join(&mut self.begins, true, other.begins.as_slice())?;
        join(&mut self.ends, true, other.ends.as_slice())?;
        self.count += other.count;
        self.empty |= other.empty;
        Ok(())
    }
}

// Whether a loop around a concatenation links the ends of its front part, since the rest may be empty.
fn loops_past<A: Atom>(looped: bool, rest: &Regex<A>) -> bool
    ensures { result ≡ (looped && is_empty_word_in rest.now) }
{
    looped && rest.nullable()
}

// Links the ends of a loop's body to its beginnings, unless a loop around it does.
fn close_loop(rows: &mut Vec<Vec<bool>>, body: &Ends, looped: bool)
    requires square { IsSquare rows.old.items (vec_len rows.old) }
    requires ends { All (λ p. p < vec_len rows.old) body.now.ends.items }
    requires begins { All (λ q. q < vec_len rows.old) body.now.begins.items }
    ensures len { vec_len rows.new ≡ vec_len rows.old }
    ensures square { IsSquare rows.new.items (vec_len rows.new) }
    ensures marks { AddsMarks rows.old.items rows.new.items (λ p q. (looped ≡ false) × (Contains body.now.ends.items p × Contains body.now.begins.items q)) }
{
    if !looped {
        link(rows, body.ends.as_slice(), body.begins.as_slice());
    }
}

/// Adds the marks of what may follow what in an expression before which n positions stand, and finds where its words
/// begin and end. If a loop around it links all of its ends to all of its beginnings, it leaves those marks to that loop:
/// so no pair is marked more than twice, however deep the loops nest. What it finds goes where it is told, since
/// expressions may be thousands of signs deep and results would fill the stack.
pub(crate) fn mark_follows<A: Atom>(
    alloc: Global,
    regex: &Regex<A>,
    n: usize,
    looped: bool,
    rows: &mut Vec<Vec<bool>>,
    found: &mut Ends,
) -> Result<(), NoMemory>
    requires room { n + position_count regex.now < vec_len rows.old }
    requires square { IsSquare rows.old.items (vec_len rows.old) }
    requires blank { IsBlank found.old }
    ensures len { OnOk result (vec_len rows.new ≡ vec_len rows.old) }
    ensures square { OnOk result (IsSquare rows.new.items (vec_len rows.new)) }
    ensures marks { OnOk result (AddsFollows looped n regex.now rows.old.items rows.new.items) }
    ensures ends { OnOk result (AreEnds n regex.now found.new) }
{
    match regex {
        Regex::Atom(_) => found.put(n + 1),
        Regex::Concat(a, b) => {
            mark_follows(alloc, a, n, loops_past(looped, b), rows, found)?;
            let mut rest = Ends::new(alloc);
            mark_follows(
                alloc,
                b,
                n + found.count,
                looped & found.empty,
                rows,
                &mut rest,
            )?;
            link(rows, found.ends.as_slice(), rest.begins.as_slice());
            found.chain(rest)
        }
        Regex::Either(a, b) => {
            mark_follows(alloc, a, n, looped, rows, found)?;
            let mut other = Ends::new(alloc);
            mark_follows(alloc, b, n + found.count, looped, rows, &mut other)?;
            found.choose(&other)
        }
        Regex::Star(a) => {
            mark_follows(alloc, a, n, true, rows, found)?;
            close_loop(rows, found, looped);
            found.empty = true;
            Ok(())
        }
        Regex::Plus(a) => {
            mark_follows(alloc, a, n, true, rows, found)?;
            close_loop(rows, found, looped);
            Ok(())
        }
        Regex::Maybe(a) => {
            mark_follows(alloc, a, n, looped, rows, found)?;
            found.empty = true;
            Ok(())
        }
    }
}
