//! Nodes are opened in preorder, and the first branch that can't be opened is the one spoken of. A refusal that has the nodes before it
//! lets it be seen that the search went as it has to; one that has none takes no memory.
use crate::opened::Opened;
use wi_base::{Listed, NoMemory};
use wi_decide::SearchRefused;
use wi_quantity::Weight;
use wi_saturate::Overflow;

/// Why there is no exact answer with a tree. `opened` has the nodes before the branch spoken of.
#[derive(Drop)]
pub enum ExactRefused {
    /// A summary that no run of the branch is lighter than has a component over 2^64 - 1: the lightest such summary.
    Overflow {
        opened: Listed<Opened>,
        overflow: Overflow<Weight>,
    },
    /// The effort of the branch's least run, which is over 4,096.
    TooLong {
        opened: Listed<Opened>,
        effort: u64,
    },
    /// One more node would be opened than the limit.
    NodeLimit {
        opened: Listed<Opened>,
    },
    /// Memory ran out.
    Memory,
}

/// Why there is no exact answer: a refusal without the nodes.
#[derive(Clone, Copy, Debug, PartialEq, Eq)]
pub enum AnswerRefused {
    /// As of a refusal with nodes.
    Overflow(Overflow<Weight>),
    /// The effort of the branch's least run, which is over 4,096.
    TooLong(u64),
    /// One more node would be opened than the limit.
    NodeLimit,
    /// Memory ran out.
    Memory,
}

impl From<NoMemory> for ExactRefused {
    ghost use Rattle.std.specs.Prelude.{◌≡◌};
    ghost use Rattle.wi_branch.specs.declared.refused.ExactRefused.{ExactRefused};

    ghost from_gives = { λ _ r. r ≡ ExactRefused.Memory };

    fn from(_error: NoMemory) -> Self {
        ExactRefused::Memory
    }
}

impl From<NoMemory> for AnswerRefused {
    ghost use Rattle.std.specs.Prelude.{◌≡◌};
    ghost use Rattle.wi_branch.specs.declared.refused.AnswerRefused.{AnswerRefused};

    ghost from_gives = { λ _ r. r ≡ AnswerRefused.Memory };

    fn from(_error: NoMemory) -> Self {
        AnswerRefused::Memory
    }
}

impl From<SearchRefused> for AnswerRefused {
    ghost use Rattle.std.specs.Prelude.{◌≡◌};
    ghost use Rattle.wi_branch.specs.Exactly.{refusal_of};

    ghost from_gives = { λ refused r. r ≡ refusal_of refused };

    fn from(refused: SearchRefused) -> Self {
        match refused {
            SearchRefused::Overflow(overflow) => AnswerRefused::Overflow(overflow),
            SearchRefused::TooLong(effort) => AnswerRefused::TooLong(effort),
            SearchRefused::Memory => AnswerRefused::Memory,
        }
    }
}

impl From<ExactRefused> for AnswerRefused {
    ghost use Rattle.std.specs.Prelude.{◌≡◌, List};
    ghost use Rattle.wi_branch.specs.declared.opened.Opened.{Opened};
    ghost use Rattle.wi_branch.specs.Exactly.{refused_with};

    ghost from_gives = { λ refused r. (opened : List Opened) × (refused ≡ refused_with opened r) };

    fn from(refused: ExactRefused) -> Self {
        match refused {
            ExactRefused::Overflow { overflow, .. } => AnswerRefused::Overflow(overflow),
            ExactRefused::TooLong { effort, .. } => AnswerRefused::TooLong(effort),
            ExactRefused::NodeLimit { .. } => AnswerRefused::NodeLimit,
            ExactRefused::Memory => AnswerRefused::Memory,
        }
    }
}
