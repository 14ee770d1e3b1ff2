//! Brackets may nest by the thousand, so what stands before each open one lies on a stack of our own. The last item is kept
//! apart from the sequence before it, since signs for repetition bind to the item alone. So each sign is taken once, without
//! recursion.
ghost use Rattle.std.specs.Prelude.{Option, Some, IfOk};
ghost use Rattle.wi_syntax.specs.declared.written.Sign.{Sign};
ghost use Rattle.wi_query.specs.Sets.{SymbolMarks};
ghost use Rattle.wi_query.specs.private.Frames.{SetTree, TreeFrame, TreeReading, empty_frame, joined, finished, with_item, with_bar, with_repeat, repeated, after_sign, at_start, IsOperand, IsFrame, IsReading};

use crate::symbols::SymbolSet;
use std::alloc::Global;
use wi_base::NoMemory;
use wi_regex::Regex;
use wi_syntax::Sign;

/// An expression, or nothing yet.
pub(crate) type Operand = Option<Regex<SymbolSet>>;

/// What stands behind a bracket that is open: what is before the last `|`, what of the rest is before its last item, and
/// that item. Of the signs that may come next, those for repetition bind to the item, another item to the sequence.
#[derive(Drop)]
struct Frame {
    alternatives: Operand,
    sequence: Operand,
    item: Operand,
}

/// An expression as far as it was read.
#[derive(Drop)]
pub(crate) struct Reading {
    current: Frame,
    // Those of the brackets around it, the outermost first.
    outer: Vec<Frame>,
}

/// How two expressions are one.
#[derive(Clone, Copy)]
enum Joint {
    Then,
    Or,
}

/// How an expression is repeated.
#[derive(Clone, Copy)]
enum Repeat {
    Star,
    Plus,
    Maybe,
}

// Two expressions as one, where there are two.
fn joined(alloc: Global, how: Joint, first: Operand, next: Operand) -> Result<Operand, NoMemory>
    ensures { IfOk result (λ part. (a b : Option SetTree) → IsOperand a first → IsOperand b next → IsOperand (joined how a b) part) }
{
    let Some(next) = next else {
        return Ok(first);
    };
    let Some(first) = first else {
        return Ok(Some(next));
    };
    let first = Box::new(alloc, first)?;
    let next = Box::new(alloc, next)?;
    Ok(Some(match how {
        Joint::Then => Regex::Concat(first, next),
        Joint::Or => Regex::Either(first, next),
    }))
}

// An expression that is repeated, where there is one.
fn repeated(alloc: Global, how: Repeat, item: Operand) -> Result<Operand, NoMemory>
    ensures { IfOk result (λ part. (t : Option SetTree) → IsOperand t item → IsOperand (repeated how t) part) }
{
    let Some(item) = item else {
        return Ok(None);
    };
    let item = Box::new(alloc, item)?;
    Ok(Some(match how {
        Repeat::Star => Regex::Star(item),
        Repeat::Plus => Regex::Plus(item),
        Repeat::Maybe => Regex::Maybe(item),
    }))
}

impl Frame {
    fn empty() -> Frame
        ensures { IsFrame empty_frame result }
    {
        Frame {
            alternatives: None,
            sequence: None,
            item: None,
        }
    }

    // All that stands in it.
    fn finished(self, alloc: Global) -> Result<Operand, NoMemory>
        ensures { IfOk result (λ part. (t : TreeFrame SymbolMarks) → IsFrame t self → IsOperand (finished t) part) }
    {
        let Frame {
            alternatives,
            sequence,
            item,
        } = self;
        let sequence = joined(alloc, Joint::Then, sequence, item)?;
        joined(alloc, Joint::Or, alternatives, sequence)
    }

    // With one item more.
    fn with_item(self, alloc: Global, next: Operand) -> Result<Frame, NoMemory>
        ensures { IfOk result (λ frame. (t : TreeFrame SymbolMarks) (i : Option SetTree) → IsFrame t self → IsOperand i next → IsFrame (with_item t i) frame) }
    {
        let Frame {
            alternatives,
            sequence,
            item,
        } = self;
        let before = joined(alloc, Joint::Then, sequence, item)?;
        Ok(Frame {
            alternatives,
            sequence: before,
            item: next,
        })
    }

    // With a bar behind all.
    fn with_bar(self, alloc: Global) -> Result<Frame, NoMemory>
        ensures { IfOk result (λ frame. (t : TreeFrame SymbolMarks) → IsFrame t self → IsFrame (with_bar t) frame) }
    {
        let alternatives = self.finished(alloc)?;
        Ok(Frame {
            alternatives,
            sequence: None,
            item: None,
        })
    }

    // With its last item repeated.
    fn with_repeat(self, alloc: Global, how: Repeat) -> Result<Frame, NoMemory>
        ensures { IfOk result (λ frame. (t : TreeFrame SymbolMarks) → IsFrame t self → IsFrame (with_repeat how t) frame) }
    {
        let Frame {
            alternatives,
            sequence,
            item,
        } = self;
        let item = repeated(alloc, how, item)?;
        Ok(Frame {
            alternatives,
            sequence,
            item,
        })
    }
}

impl Reading {
    /// Nothing was read yet.
    pub(crate) fn new(alloc: Global) -> Reading
        ensures { IsReading at_start result }
    {
        Reading {
            current: Frame::empty(),
            outer: Vec::new(alloc),
        }
    }

    // With a bracket opened.
    fn opened(self) -> Result<Reading, NoMemory>
        ensures { IfOk result (λ reading. (t : TreeReading SymbolMarks) → IsReading t self → IsReading (after_sign t Sign.Open) reading) }
    {
        let Reading { current, mut outer } = self;
        outer.push(current)?;
        Ok(Reading {
            current: Frame::empty(),
            outer,
        })
    }

    // With the last bracket closed that is open.
    fn after_bracket(self, alloc: Global) -> Result<Reading, NoMemory>
        ensures { IfOk result (λ reading. (t : TreeReading SymbolMarks) → IsReading t self → IsReading (after_sign t Sign.Close) reading) }
    {
        let Reading { current, mut outer } = self;
        let Some(around) = outer.pop() else {
            return Ok(Reading { current, outer });
        };
        let group = current.finished(alloc)?;
        let current = around.with_item(alloc, group)?;
        Ok(Reading { current, outer })
    }

    fn with_item(self, alloc: Global, set: SymbolSet) -> Result<Reading, NoMemory>
        ensures { IfOk result (λ reading. (t : TreeReading SymbolMarks) → IsReading t self → IsReading (after_sign t (Sign.Atom set)) reading) }
    {
        let Reading { current, outer } = self;
        let current = current.with_item(alloc, Some(Regex::Atom(set)))?;
        Ok(Reading { current, outer })
    }

    fn with_bar(self, alloc: Global) -> Result<Reading, NoMemory>
        ensures { IfOk result (λ reading. (t : TreeReading SymbolMarks) → IsReading t self → IsReading (after_sign t Sign.Or) reading) }
    {
        let Reading { current, outer } = self;
        let current = current.with_bar(alloc)?;
        Ok(Reading { current, outer })
    }

    fn with_repeat(self, alloc: Global, how: Repeat) -> Result<Reading, NoMemory>
        ensures { IfOk result (λ reading. (t : TreeReading SymbolMarks) → IsReading t self → IsReading (record { current = with_repeat how t.current; outer = t.outer }) reading) }
    {
        let Reading { current, outer } = self;
        let current = current.with_repeat(alloc, how)?;
        Ok(Reading { current, outer })
    }

    /// With the next sign.
    pub(crate) fn after(self, alloc: Global, sign: Sign<SymbolSet>) -> Result<Reading, NoMemory>
        ensures { IfOk result (λ reading. (t : TreeReading SymbolMarks) → IsReading t self → IsReading (after_sign t sign) reading) }
    {
        match sign {
            Sign::Atom(set) => self.with_item(alloc, set),
            Sign::Open => self.opened(),
            Sign::Close => self.after_bracket(alloc),
            Sign::Star => self.with_repeat(alloc, Repeat::Star),
            Sign::Plus => self.with_repeat(alloc, Repeat::Plus),
            Sign::Maybe => self.with_repeat(alloc, Repeat::Maybe),
            Sign::Or => self.with_bar(alloc),
        }
    }

    /// All that was read, if it is anything.
    pub(crate) fn finished(self, alloc: Global) -> Result<Operand, NoMemory>
        ensures { IfOk result (λ part. (t : TreeReading SymbolMarks) → IsReading t self → IsOperand (finished t.current) part) }
    {
        let Reading { current, outer: _ } = self;
        current.finished(alloc)
    }
}
