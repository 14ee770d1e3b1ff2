//! The lines from `heads` to the last row, which bound every run. They are read apart from the others, so that another text can
//! have them more than once. A line is compared with the one before it alone.
ghost use Rattle.std.specs.Prelude.{◌≡◌, ◌-◌, ◌≤◌, ◌++◌, ◌∷◌, [], Option, Some, None, IfOk, length, codes, option_map, option_and_then, if◌then◌else◌};
ghost use Rattle.wi_cert.specs.declared.closed.Closed.{Closed};
ghost use Rattle.wi_cert.specs.declared.closed.ClosedPlace.{ClosedPlace};
ghost use Rattle.wi_cert.specs.Numbers.{numbers_in};
ghost use Rattle.wi_cert.specs.Order.{pair_below, row_below, is_next};
ghost use Rattle.wi_cert.specs.Closed.{head_of, pair_of, row_of, heads_after, pairs_after, rows_after, heads_left, pairs_left, rows_left, asked_closed, blank_closed};
ghost use Rattle.wi_cert.specs.private.Marks.{Keeps, closed_mark, closed_back};

use crate::line::{count_after, numbers_in};
use crate::row::{Numbers, Row};
use crate::shown::ShownDraft;
use std::alloc::Global;
use std::marker::Model;
use std::mem::replace;
use wi_base::{Listed, NoMemory};

/// Heads, pairs and rows, each list strictly rising.
#[derive(Drop)]
pub struct Closed {
    /// Spots, each with a symbol that may be on top there.
    pub heads: Listed<(u64, u32)>,
    /// Symbols, each with one that may stand right below it.
    pub pairs: Listed<(u32, u32)>,
    pub rows: Listed<Row>,
}

/// What line is asked among those that bound every run.
#[derive(Clone, Copy, Debug, PartialEq, Eq)]
pub enum ClosedPlace {
    HeadCount,
    /// So many heads are to come, of which this line is one.
    Head(u64),
    PairCount,
    /// So many pairs are to come, of which this line is one.
    Pair(u64),
    RowCount,
    /// So many rows are to come, of which this line is one.
    Row(u64),
}

// The lists so far.
#[derive(Drop)]
pub(crate) struct ClosedDraft {
    heads: Vec<(u64, u32)>,
    pairs: Vec<(u32, u32)>,
    rows: Vec<Row>,
}

impl Model for ClosedDraft {
    ghost use Rattle.wi_cert.specs.declared.closed.Closed.{Closed};

    ghost Value = { Closed };

    ghost view = { λ c. record { heads = c.heads.items; pairs = c.pairs.items; rows = c.rows.items } };
}

// How long the lists had become.
#[derive(Clone, Copy)]
pub(crate) struct ClosedMark {
    heads: usize,
    pairs: usize,
    rows: usize,
}

impl ClosedDraft {
    // No head, no pair, no row.
    pub(crate) fn new(alloc: Global) -> ClosedDraft
        ensures { result ≡ blank_closed }
    {
        ClosedDraft {
            heads: Vec::new(alloc),
            pairs: Vec::new(alloc),
            rows: Vec::new(alloc),
        }
    }

    pub(crate) fn head_count(&self) -> usize
        ensures { result ≡ length self.now.heads }
    {
        self.heads.len()
    }

    pub(crate) fn pair_count(&self) -> usize
        ensures { result ≡ length self.now.pairs }
    {
        self.pairs.len()
    }

    pub(crate) fn row_count(&self) -> usize
        ensures { result ≡ length self.now.rows }
    {
        self.rows.len()
    }

    pub(crate) fn mark(&self) -> ClosedMark
        ensures { result ≡ closed_mark self.now }
    {
        ClosedMark {
            heads: self.heads.len(),
            pairs: self.pairs.len(),
            rows: self.rows.len(),
        }
    }

    // Goes back to the mark.
    pub(crate) fn go_back(&mut self, mark: ClosedMark)
        ensures { self.new ≡ closed_back mark self.old }
    {
        self.heads.truncate(mark.heads);
        self.pairs.truncate(mark.pairs);
        self.rows.truncate(mark.rows);
    }

    // The lists. It takes no memory.
    pub(crate) fn finish(self) -> Closed
        ensures { result ≡ self }
    {
        let ClosedDraft { heads, pairs, rows } = self;
        Closed {
            heads: Listed::of(heads),
            pairs: Listed::of(pairs),
            rows: Listed::of(rows),
        }
    }

    // The lists; they are blank again. It takes no memory.
    pub(crate) fn take(&mut self) -> Closed
        ensures lists { result ≡ self.old }
        ensures blank { self.new ≡ blank_closed }
    {
        let alloc = *self.heads.allocator();
        replace(self, ClosedDraft::new(alloc)).finish()
    }

    // Takes a line of the form asked, under what is shown. It gives the place of the next line, or that this was the last of these
    // lines; None if the line isn't of that form.
    pub(crate) fn take_line(
        &mut self,
        shown: &ShownDraft,
        place: ClosedPlace,
        line: &[u8],
        numbers: &mut Vec<u64>,
    ) -> Result<Option<Option<ClosedPlace>>, NoMemory>
        ensures ok { IfOk result (λ found. option_map (λ next. (next, self.new)) found ≡ asked_closed shown.now place self.old line.now) }
        ensures kept { Keeps result self.old self.new }
    {
        match place {
            ClosedPlace::HeadCount => {
                let count = count_after(b"heads ", line, numbers)?;
                Ok(count.map(heads_left))
            }
            ClosedPlace::Head(left) => self.take_head(left, line, numbers),
            ClosedPlace::PairCount => {
                let count = count_after(b"pairs ", line, numbers)?;
                Ok(count.map(pairs_left))
            }
            ClosedPlace::Pair(left) => self.take_pair(left, line, numbers),
            ClosedPlace::RowCount => {
                let count = count_after(b"rows ", line, numbers)?;
                Ok(count.map(rows_left))
            }
            ClosedPlace::Row(left) => self.take_row(shown, left, line, numbers),
        }
    }

    fn take_head(
        &mut self,
        left: u64,
        line: &[u8],
        numbers: &mut Vec<u64>,
    ) -> Result<Option<Option<ClosedPlace>>, NoMemory>
        ensures ok { IfOk result (λ found. option_map (λ next. (next, self.new)) found ≡ option_map {U = Option ClosedPlace × Closed} (λ xs. (Some (heads_left (left - 1)), record self.old { heads = xs })) (heads_after self.old.heads line.now)) }
        ensures kept { Keeps result self.old self.new }
    {
        if !numbers_in(line, numbers)? {
            return Ok(None);
        }
        let Some(head) = head_of(numbers) else {
            return Ok(None);
        };
        if !is_next_head(&self.heads, head) {
            return Ok(None);
        }
        self.heads.push(head)?;
        Ok(Some(heads_left(left.saturating_sub(1))))
    }

    fn take_pair(
        &mut self,
        left: u64,
        line: &[u8],
        numbers: &mut Vec<u64>,
    ) -> Result<Option<Option<ClosedPlace>>, NoMemory>
        ensures ok { IfOk result (λ found. option_map (λ next. (next, self.new)) found ≡ option_map {U = Option ClosedPlace × Closed} (λ xs. (Some (pairs_left (left - 1)), record self.old { pairs = xs })) (pairs_after self.old.pairs line.now)) }
        ensures kept { Keeps result self.old self.new }
    {
        if !numbers_in(line, numbers)? {
            return Ok(None);
        }
        let Some(pair) = pair_of(numbers) else {
            return Ok(None);
        };
        if !is_next_pair(&self.pairs, pair) {
            return Ok(None);
        }
        self.pairs.push(pair)?;
        Ok(Some(pairs_left(left.saturating_sub(1))))
    }

    fn take_row(
        &mut self,
        shown: &ShownDraft,
        left: u64,
        line: &[u8],
        numbers: &mut Vec<u64>,
    ) -> Result<Option<Option<ClosedPlace>>, NoMemory>
        ensures ok { IfOk result (λ found. option_map (λ next. (next, self.new)) found ≡ option_map {U = Option ClosedPlace × Closed} (λ xs. (rows_left (left - 1), record self.old { rows = xs })) (rows_after shown.now self.old.rows line.now)) }
        ensures kept { Keeps result self.old self.new }
    {
        if !numbers_in(line, numbers)? {
            return Ok(None);
        }
        let Some(row) = row_of(shown.terms(), numbers) else {
            return Ok(None);
        };
        if !is_next_row(&self.rows, &row) || !shown.is_lighter(&row) {
            return Ok(None);
        }
        self.rows.push(row)?;
        Ok(Some(rows_left(left.saturating_sub(1))))
    }
}

fn heads_left(count: u64) -> Option<ClosedPlace>
    ensures { result ≡ Some (heads_left count) }
{
    if count == 0 {
        Some(ClosedPlace::PairCount)
    } else {
        Some(ClosedPlace::Head(count))
    }
}

fn pairs_left(count: u64) -> Option<ClosedPlace>
    ensures { result ≡ Some (pairs_left count) }
{
    if count == 0 {
        Some(ClosedPlace::RowCount)
    } else {
        Some(ClosedPlace::Pair(count))
    }
}

fn rows_left(count: u64) -> Option<ClosedPlace>
    ensures { result ≡ rows_left count }
{
    if count == 0 {
        None
    } else {
        Some(ClosedPlace::Row(count))
    }
}

fn head_of(numbers: &[u64]) -> Option<(u64, u32)>
    ensures { result ≡ head_of numbers.now }
{
    match numbers {
        [spot, symbol] => {
            if *symbol < 1 << 32 {
                Some((*spot, *symbol as u32))
            } else {
                None
            }
        }
        _ => None,
    }
}

fn pair_of(numbers: &[u64]) -> Option<(u32, u32)>
    ensures { result ≡ pair_of numbers.now }
{
    match numbers {
        [upper, lower] => {
            if *upper < 1 << 32 && *lower < 1 << 32 {
                Some((*upper as u32, *lower as u32))
            } else {
                None
            }
        }
        _ => None,
    }
}

fn row_of(terms: u32, numbers: &[u64]) -> Option<Row>
    requires { terms ≤ 5 }
    ensures { result ≡ row_of terms numbers.now }
{
    match numbers {
        [p, g, q, weight @ ..] => {
            if *g < 1 << 32 && weight.len() as u64 == u64::from(terms) + 1 {
                Some(Row {
                    p: *p,
                    g: *g as u32,
                    q: *q,
                    weight: Numbers::of(weight),
                })
            } else {
                None
            }
        }
        _ => None,
    }
}

fn is_next_head(heads: &[(u64, u32)], head: (u64, u32)) -> bool
    ensures { result ≡ is_next pair_below heads.now head }
{
    match heads.last() {
        Some(last) => last.0 < head.0 || (last.0 == head.0 && last.1 < head.1),
        None => true,
    }
}

fn is_next_pair(pairs: &[(u32, u32)], pair: (u32, u32)) -> bool
    ensures { result ≡ is_next pair_below pairs.now pair }
{
    match pairs.last() {
        Some(last) => last.0 < pair.0 || (last.0 == pair.0 && last.1 < pair.1),
        None => true,
    }
}

fn row_below(first: &Row, second: &Row) -> bool
    ensures { result ≡ row_below first.now second.now }
{
    first.p < second.p
        || (first.p == second.p
            && (first.g < second.g || (first.g == second.g && first.q < second.q)))
}

fn is_next_row(rows: &[Row], row: &Row) -> bool
    ensures { result ≡ is_next row_below rows.now row.now }
{
    match rows.last() {
        Some(last) => row_below(last, row),
        None => true,
    }
}
