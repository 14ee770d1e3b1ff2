//! The lines from `terms` to the last step, and behind it that of how the packet is dropped, which show an answer. They are read
//! apart from the others, so that another text can begin with them. What is read is overwritten or only grows, and can be taken
//! back without memory.
ghost use Rattle.std.specs.Prelude.{◌≡◌, ◌≤◌, ◌<◌, ◌^◌, ◌++◌, ◌∷◌, [], true, false, Some, None, IfOk, IfNone, length, codes, nat_lt, option_map, option_and_then, if◌then◌else◌};
ghost use Rattle.std.specs.List.{list_all};
ghost use Rattle.std.specs.Cmp.Lexicographic.{slice_cmp};
ghost use Rattle.std.specs.Ordering.{nat_cmp};
ghost use Rattle.wi_cert.specs.Numbers.{numbers_in, numbers_after};
ghost use Rattle.wi_cert.specs.Shown.{is_no, claim_of, weight_of, first_of, step_of, steps_left, dropped_of, titled, asked_shown, blank_shown};
ghost use Rattle.wi_cert.specs.Closed.{is_less, is_lighter};
ghost use Rattle.wi_cert.specs.private.Marks.{Keeps, shown_mark, shown_back};

use crate::line::{after, count_after, is_line, numbers_after, numbers_in};
use crate::row::Row;
use std::alloc::Global;
use std::cmp::Ordering;
use std::marker::Model;
use wi_base::{Listed, NoMemory};

/// What a certificate answers.
#[derive(Clone, Copy, Debug, PartialEq, Eq)]
pub enum Claim {
    Yes,
    No,
    Inconclusive,
}

/// How a packet that is dropped ends, as a text of version 2 says it.
#[derive(Clone, Copy, Debug, PartialEq, Eq)]
pub enum Dropped {
    /// The answer is no, so that none is shown.
    Nowhere,
    /// No group is active.
    Inactive,
    /// An operation of this member isn't defined: the number of its group and its own, from 1.
    Undefined(u32, u32),
}

/// The answer, and the run that shows it where it isn't no.
#[derive(Drop)]
pub struct Shown {
    /// How many terms the weights have, besides the effort.
    pub terms: u32,
    pub claim: Claim,
    /// The run's weight, effort last. Empty for a no.
    pub weight: Listed<u64>,
    /// The link in which the packet comes, and its labels, top first. Empty for a no.
    pub first: Listed<u32>,
    /// For each hop the group and the member taken, from 1.
    pub steps: Listed<(u32, u32)>,
    /// Where packets that are dropped were asked for, how this one ends: the text is then of version 2.
    pub dropped: Option<Dropped>,
}

/// What line is asked among those that show the answer.
#[derive(Clone, Copy, Debug, PartialEq, Eq)]
pub enum ShownPlace {
    Terms,
    Answer,
    Weight,
    First,
    StepCount,
    /// So many steps are to come, of which this line is one.
    Step(u64),
    /// How the packet is dropped, in a text of version 2.
    Dropped,
}

impl Claim {
    pub(crate) fn is_no(self) -> bool
        ensures { result ≡ is_no self }
    {
        match self {
            Claim::Yes => false,
            Claim::No => true,
            Claim::Inconclusive => false,
        }
    }
}

// What the lines so far show.
#[derive(Drop)]
pub(crate) struct ShownDraft {
    terms: u32,
    claim: Claim,
    weight: Vec<u64>,
    first: Vec<u32>,
    steps: Vec<(u32, u32)>,
    // In a text of version 2 how the packet is dropped: `Nowhere` before its line.
    dropped: Option<Dropped>,
}

impl Model for ShownDraft {
    ghost use Rattle.std.specs.Prelude.{◌≤◌};
    ghost use Rattle.wi_cert.specs.declared.shown.Shown.{Shown};

    ghost Value = { Shown };

    ghost view = { λ s. record { terms = s.terms; claim = s.claim; weight = s.weight.items; first = s.first.items; steps = s.steps.items; dropped = s.dropped } };

    ghost invariant = { λ s. s.terms ≤ 5 };
}

// How far the lines had come: what is overwritten, and the lengths of what grows.
#[derive(Clone, Copy)]
pub(crate) struct ShownMark {
    terms: u32,
    claim: Claim,
    weight: usize,
    first: usize,
    steps: usize,
    dropped: Option<Dropped>,
}

impl ShownDraft {
    // Nothing is shown yet.
    pub(crate) fn new(alloc: Global) -> ShownDraft
        ensures { result ≡ blank_shown }
    {
        ShownDraft {
            terms: 0,
            claim: Claim::No,
            weight: Vec::new(alloc),
            first: Vec::new(alloc),
            steps: Vec::new(alloc),
            dropped: None,
        }
    }

    pub(crate) fn terms(&self) -> u32
        ensures terms { result ≡ self.now.terms }
        ensures few { result ≤ 5 }
    {
        self.terms
    }

    pub(crate) fn step_count(&self) -> usize
        ensures { result ≡ length self.now.steps }
    {
        self.steps.len()
    }

    pub(crate) fn dropped(&self) -> Option<Dropped>
        ensures { result ≡ self.now.dropped }
    {
        self.dropped
    }

    // Whether a row may stand under what is shown.
    pub(crate) fn is_lighter(&self, row: &Row) -> bool
        ensures { result ≡ is_lighter self.now row.now }
    {
        self.claim.is_no() || is_below(row.weight.as_slice(), &self.weight)
    }

    pub(crate) fn mark(&self) -> ShownMark
        ensures mark { result ≡ shown_mark self.now }
        ensures few { result.terms ≤ 5 }
    {
        ShownMark {
            terms: self.terms,
            claim: self.claim,
            weight: self.weight.len(),
            first: self.first.len(),
            steps: self.steps.len(),
            dropped: self.dropped,
        }
    }

    // Goes back to the mark.
    pub(crate) fn go_back(&mut self, mark: ShownMark)
        requires { mark.terms ≤ 5 }
        ensures { self.new ≡ shown_back mark self.old }
    {
        self.terms = mark.terms;
        self.claim = mark.claim;
        self.weight.truncate(mark.weight);
        self.first.truncate(mark.first);
        self.steps.truncate(mark.steps);
        self.dropped = mark.dropped;
    }

    // What is shown. It takes no memory.
    pub(crate) fn finish(self) -> Shown
        ensures { result ≡ self }
    {
        let ShownDraft {
            terms,
            claim,
            weight,
            first,
            steps,
            dropped,
        } = self;
        Shown {
            terms,
            claim,
            weight: Listed::of(weight),
            first: Listed::of(first),
            steps: Listed::of(steps),
            dropped,
        }
    }

    // Takes the first line, which begins with the front and ends with the version. It tells whether the line is of that form.
    pub(crate) fn take_title(&mut self, front: &[u8], line: &[u8]) -> bool
        ensures taken { (if result then Some self.new else None) ≡ option_map (λ dropped. record self.old { dropped = dropped }) (titled front.now line.now) }
        ensures kept { result ≡ false → self.new ≡ self.old }
    {
        match titled(front, line) {
            Some(dropped) => {
                self.dropped = dropped;
                true
            }
            None => false,
        }
    }

    // Takes a line of the form asked. It gives the place of the next line, or that this was the last of these lines; None if the
    // line isn't of that form.
    pub(crate) fn take_line(
        &mut self,
        place: ShownPlace,
        line: &[u8],
        numbers: &mut Vec<u64>,
    ) -> Result<Option<Option<ShownPlace>>, NoMemory>
        ensures ok { IfOk result (λ found. option_map (λ next. (next, self.new)) found ≡ asked_shown place self.old line.now) }
        ensures kept { Keeps result self.old self.new }
    {
        match place {
            ShownPlace::Terms => self.take_terms(line, numbers),
            ShownPlace::Answer => Ok(self.take_answer(line)),
            ShownPlace::Weight => self.take_weight(line, numbers),
            ShownPlace::First => self.take_first(line, numbers),
            ShownPlace::StepCount => self.take_step_count(line, numbers),
            ShownPlace::Step(left) => self.take_step(left, line, numbers),
            ShownPlace::Dropped => self.take_dropped(line, numbers),
        }
    }

    fn take_terms(
        &mut self,
        line: &[u8],
        numbers: &mut Vec<u64>,
    ) -> Result<Option<Option<ShownPlace>>, NoMemory>
        ensures ok { IfOk result (λ found. option_map (λ next. (next, self.new)) found ≡ asked_shown ShownPlace.Terms self.old line.now) }
        ensures kept { Keeps result self.old self.new }
    {
        let Some(terms) = count_after(b"terms ", line, numbers)? else {
            return Ok(None);
        };
        if terms <= 5 {
            self.terms = terms as u32;
            Ok(Some(Some(ShownPlace::Answer)))
        } else {
            Ok(None)
        }
    }

    fn take_answer(&mut self, line: &[u8]) -> Option<Option<ShownPlace>>
        ensures taken { option_map (λ next. (next, self.new)) result ≡ asked_shown ShownPlace.Answer self.old line.now }
        ensures kept { IfNone result (self.new ≡ self.old) }
    {
        let Some(claim) = claim_of(line) else {
            return None;
        };
        self.claim = claim;
        Some(Some(ShownPlace::Weight))
    }

    fn take_weight(
        &mut self,
        line: &[u8],
        numbers: &mut Vec<u64>,
    ) -> Result<Option<Option<ShownPlace>>, NoMemory>
        ensures ok { IfOk result (λ found. option_map (λ next. (next, self.new)) found ≡ asked_shown ShownPlace.Weight self.old line.now) }
        ensures kept { Keeps result self.old self.new }
    {
        if !is_weight(self.claim, self.terms, line, numbers)? {
            return Ok(None);
        }
        self.weight = Vec::from_slice(*numbers.allocator(), numbers)?;
        Ok(Some(Some(ShownPlace::First)))
    }

    fn take_first(
        &mut self,
        line: &[u8],
        numbers: &mut Vec<u64>,
    ) -> Result<Option<Option<ShownPlace>>, NoMemory>
        ensures ok { IfOk result (λ found. option_map (λ next. (next, self.new)) found ≡ asked_shown ShownPlace.First self.old line.now) }
        ensures kept { Keeps result self.old self.new }
    {
        if !is_first(self.claim, line, numbers)? {
            return Ok(None);
        }
        self.first = narrowed(*numbers.allocator(), numbers)?;
        Ok(Some(Some(ShownPlace::StepCount)))
    }

    fn take_step_count(
        &mut self,
        line: &[u8],
        numbers: &mut Vec<u64>,
    ) -> Result<Option<Option<ShownPlace>>, NoMemory>
        ensures ok { IfOk result (λ found. option_map (λ next. (next, self.new)) found ≡ asked_shown ShownPlace.StepCount self.old line.now) }
        ensures kept { Keeps result self.old self.new }
    {
        let Some(count) = count_after(b"steps ", line, numbers)? else {
            return Ok(None);
        };
        if self.claim.is_no() && 0 < count {
            Ok(None)
        } else {
            Ok(Some(steps_left(self.dropped, count)))
        }
    }

    fn take_step(
        &mut self,
        left: u64,
        line: &[u8],
        numbers: &mut Vec<u64>,
    ) -> Result<Option<Option<ShownPlace>>, NoMemory>
        ensures ok { IfOk result (λ found. option_map (λ next. (next, self.new)) found ≡ asked_shown (ShownPlace.Step left) self.old line.now) }
        ensures kept { Keeps result self.old self.new }
    {
        if !numbers_in(line, numbers)? {
            return Ok(None);
        }
        let Some(step) = step_of(numbers) else {
            return Ok(None);
        };
        self.steps.push(step)?;
        Ok(Some(steps_left(self.dropped, left.saturating_sub(1))))
    }

    fn take_dropped(
        &mut self,
        line: &[u8],
        numbers: &mut Vec<u64>,
    ) -> Result<Option<Option<ShownPlace>>, NoMemory>
        ensures ok { IfOk result (λ found. option_map (λ next. (next, self.new)) found ≡ asked_shown ShownPlace.Dropped self.old line.now) }
        ensures kept { Keeps result self.old self.new }
    {
        let Some(dropped) = dropped_of(self.claim, line, numbers)? else {
            return Ok(None);
        };
        self.dropped = Some(dropped);
        Ok(Some(None))
    }
}

// Whether the first numbers come before the second ones, as words in a dictionary.
fn is_below(first: &[u64], second: &[u64]) -> bool
    ensures { result ≡ is_less (slice_cmp nat_cmp first.now second.now) }
{
    match first.cmp(second) {
        Ordering::Less => true,
        Ordering::Equal => false,
        Ordering::Greater => false,
    }
}

// The version that the first line names behind the front: in version 2 it is said later how the packet is dropped.
fn titled(front: &[u8], line: &[u8]) -> Option<Option<Dropped>>
    ensures { result ≡ titled front.now line.now }
{
    let Some(rest) = after(front, line) else {
        return None;
    };
    if is_line(rest, b"1") {
        Some(None)
    } else if is_line(rest, b"2") {
        Some(Some(Dropped::Nowhere))
    } else {
        None
    }
}

// Where steps are read: the place of the next one, if one is to come, and behind them that of how the packet is dropped.
fn steps_left(dropped: Option<Dropped>, count: u64) -> Option<ShownPlace>
    ensures { result ≡ steps_left dropped count }
{
    if count == 0 {
        match dropped {
            Some(_) => Some(ShownPlace::Dropped),
            None => None,
        }
    } else {
        Some(ShownPlace::Step(count))
    }
}

fn claim_of(line: &[u8]) -> Option<Claim>
    ensures { result ≡ claim_of line.now }
{
    if is_line(line, b"answer yes") {
        Some(Claim::Yes)
    } else if is_line(line, b"answer no") {
        Some(Claim::No)
    } else if is_line(line, b"answer inconclusive") {
        Some(Claim::Inconclusive)
    } else {
        None
    }
}

// Puts the numbers of the line of the weight into the buffer: none for a no. It tells whether the line is of that form.
fn is_weight(
    claim: Claim,
    terms: u32,
    line: &[u8],
    numbers: &mut Vec<u64>,
) -> Result<bool, NoMemory>
    ensures { IfOk result (λ found. (if found then Some numbers.new.items else None) ≡ weight_of claim terms line.now) }
{
    if claim.is_no() {
        numbers.clear();
        return Ok(is_line(line, b"weight none"));
    }
    if !numbers_after(b"weight ", line, numbers)? {
        return Ok(false);
    }
    Ok(numbers.len() as u64 == u64::from(terms) + 1)
}

// Puts the numbers of the line of the first link into the buffer: none for a no. It tells whether the line is of that form.
fn is_first(claim: Claim, line: &[u8], numbers: &mut Vec<u64>) -> Result<bool, NoMemory>
    ensures ok { IfOk result (λ found. (if found then Some numbers.new.items else None) ≡ first_of claim line.now) }
    ensures short { IfOk result (λ found. found ≡ true → list_all (λ n. nat_lt n (2 ^ 32)) numbers.new.items ≡ true) }
{
    if claim.is_no() {
        numbers.clear();
        return Ok(is_line(line, b"first none"));
    }
    if !numbers_after(b"first ", line, numbers)? {
        return Ok(false);
    }
    Ok(1 < numbers.len() && are_short(numbers))
}

// Whether each number has 32 bits.
fn are_short(numbers: &[u64]) -> bool
    ensures { result ≡ list_all (λ n. nat_lt n (2 ^ 32)) numbers.now }
{
    numbers.iter().all(|number| *number < 1 << 32)
}

// The same numbers in 32 bits.
fn narrowed(alloc: Global, numbers: &[u64]) -> Result<Vec<u32>, NoMemory>
    requires { list_all (λ n. nat_lt n (2 ^ 32)) numbers.now ≡ true }
    ensures { IfOk result (λ short. short.items ≡ numbers.now) }
{
    let mut short = Vec::with_capacity(alloc, numbers.len())?;
    for number in numbers {
        short.push(*number as u32)?;
    }
    Ok(short)
}

fn step_of(numbers: &[u64]) -> Option<(u32, u32)>
    ensures { result ≡ step_of numbers.now }
{
    match numbers {
        [group, member] => {
            if 0 < *group && *group < 1 << 32 && 0 < *member && *member < 1 << 32 {
                Some((*group as u32, *member as u32))
            } else {
                None
            }
        }
        _ => None,
    }
}

// How the packet is dropped, where the line is of that form. The buffer is used.
fn dropped_of(
    claim: Claim,
    line: &[u8],
    numbers: &mut Vec<u64>,
) -> Result<Option<Dropped>, NoMemory>
    ensures { IfOk result (λ found. found ≡ dropped_of claim line.now) }
{
    if claim.is_no() {
        return Ok(if is_line(line, b"drop none") {
            Some(Dropped::Nowhere)
        } else {
            None
        });
    }
    if is_line(line, b"drop inactive") {
        return Ok(Some(Dropped::Inactive));
    }
    if !numbers_after(b"drop ", line, numbers)? {
        return Ok(None);
    }
    match step_of(numbers) {
        Some((group, member)) => Ok(Some(Dropped::Undefined(group, member))),
        None => Ok(None),
    }
}
