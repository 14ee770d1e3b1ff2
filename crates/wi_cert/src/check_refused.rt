//! Why a certificate isn't believed. Nothing here makes a refusal: the checker does, and this crate only names what it may say.
use wi_base::NoMemory;
use wi_weight::{Effort, Pair, Terms};

/// A weight as the checker counts it: the terms, of which the unused ones are 0, and then the effort. Only the terms that the
/// certificate has are shown in texts.
pub type Weight = Pair<Terms, Effort>;

/// A part of the run that is shown.
#[derive(Clone, Copy, Debug, PartialEq, Eq)]
pub enum RunPart {
    /// The header in which the packet comes.
    First,
    /// The links that it goes along.
    Path,
    /// The header in which it ends.
    Last,
}

/// Why heads, pairs and rows don't bound every run. Where several causes stand together, the first in this order is told, but a
/// head and a pair that are missing stand in one place of the order.
#[derive(Clone, Copy, Debug, PartialEq, Eq)]
pub enum ClosedRefused {
    /// The heads aren't closed: they lack this spot with this symbol. The start is asked for first, and then what the rules of the
    /// listed heads lead to, by head, by rule, and by lower symbol.
    HeadMissing(u64, u32),
    /// The pairs aren't closed: they lack this one, the upper symbol first. It is asked for in its turn among the heads.
    PairMissing(u32, u32),
    /// There is a row of this weight from the start to the goal.
    GoalBelow(Weight),
    /// The rows aren't closed: a rule of this head, with rows for its right side, sums up to less than the run that is shown, and
    /// there is no row from the head to this spot of at most that sum. It is the first by head, by rule, and by rows.
    NotClosed {
        head: (u64, u32),
        target: u64,
        sum: Weight,
    },
}

/// Why a certificate with a text, or a tree with one, isn't believed. Where several causes stand together, the first in this order
/// is told, those of a tree's nodes node by node.
#[derive(Clone, Copy, Debug, PartialEq, Eq)]
pub enum CheckRefused {
    /// The certificate is about packets that are dropped, and the query asks whether one arrives, or the other way round.
    OfAnotherQuestion,
    /// The certificate has so many terms, and so many were asked for.
    TermsDiffer { shown: u32, asked: u32 },
    /// The first step, from 1, that can't be taken as it is written, at the query's number of failures; 0 is the start.
    StepNotInTable(u64),
    /// This part of the run that is shown, the first of them, isn't in its expression of the query.
    NoMatch(RunPart),
    /// The run that is shown doesn't weigh what the certificate says.
    WeightDiffers { shown: Weight, counted: Weight },
    /// The answer is yes and the run that is shown doesn't fit the query's bounds, or inconclusive and it does.
    WrongAnswer,
    /// What a certificate lists doesn't bound every run.
    Unbounded(ClosedRefused),
    /// This node of a tree, from 1, splits its branch by a link that the network hasn't, or whose risk group is down or up in the
    /// branch, or though no more may fail there.
    BadSplit(u32),
    /// What this node of a tree lists, from 1, doesn't bound every run of its branch.
    Leaf(u32, ClosedRefused),
    /// Memory ran out.
    Memory,
}

impl From<NoMemory> for CheckRefused {
    ghost use Rattle.std.specs.Prelude.{◌≡◌};
    ghost use Rattle.wi_cert.specs.declared.check_refused.CheckRefused.{CheckRefused};

    ghost from_gives = { λ _ r. r ≡ CheckRefused.Memory };

    fn from(_error: NoMemory) -> Self {
        CheckRefused::Memory
    }
}
