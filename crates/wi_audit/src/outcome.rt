//! An outcome has no tree: of one policy no more is kept than its lines tell.
ghost use Rattle.std.specs.Prelude.{◌≡◌, ◌≢◌, IfOk, OnOk};
ghost use Rattle.wi_audit.specs.Outcomes.{IsOutcome, fulfilment_of};
ghost use Rattle.wi_branch.specs.declared.refused.AnswerRefused.{AnswerRefused};
ghost use Rattle.wi_audit.specs.declared.outcome.Outcome.{Outcome};
ghost use Rattle.wi_audit.specs.private.Shows.{IsShowable};

use std::alloc::Global;
use wi_base::NoMemory;
use wi_branch::{AnswerRefused, exact_answer};
use wi_build::Problem;
use wi_cert::NODE_LIMIT;
use wi_trace::Answer;
use wi_world::Word;

/// What becomes of a policy that is asked.
#[derive(Drop)]
pub enum Outcome {
    /// Its exact answer, with how many nodes the tree has that shows it.
    Answered(Answer, usize),
    /// None, for this reason.
    Open(AnswerRefused),
}

/// Whether an outcome is what a policy expects.
#[derive(Clone, Copy, PartialEq, Eq, Debug)]
pub enum Fulfilment {
    AsExpected,
    /// The answer is another one.
    Unexpected,
    /// There is no answer.
    Undecided,
}

/// The outcome of a problem: its exact answer by a tree of at most 10,000 nodes, or why there is none.
pub(crate) fn outcome_of(alloc: Global, problem: &Problem<'_>) -> Result<Outcome, NoMemory>
    ensures outcome { IfOk result (λ outcome. IsOutcome problem.now outcome) }
    ensures known { IfOk result (λ outcome. IsShowable problem.now.net outcome) }
{
    match exact_answer(alloc, problem, problem.bounds().k, NODE_LIMIT) {
        Ok((answer, nodes)) => Ok(Outcome::Answered(answer, nodes as usize)),
        Err(cause) => open_for(cause),
    }
}

// No answer, for this reason. Want of memory is no outcome.
fn open_for(cause: AnswerRefused) -> Result<Outcome, NoMemory>
    ensures open { IfOk result (λ outcome. outcome ≡ Outcome.Open cause) }
    ensures decided { OnOk result (cause ≢ AnswerRefused.Memory) }
{
    match cause {
        AnswerRefused::Memory => Err(NoMemory::Memory),
        other => Ok(Outcome::Open(other)),
    }
}

/// Whether an outcome is what a policy with this word expects. It takes no memory.
pub(crate) fn fulfilment_of(word: Word, outcome: &Outcome) -> Fulfilment
    ensures { result ≡ fulfilment_of word outcome.now }
{
    match outcome {
        Outcome::Open(_) => Fulfilment::Undecided,
        Outcome::Answered(answer, _) if answer.word == word => Fulfilment::AsExpected,
        Outcome::Answered(_, _) => Fulfilment::Unexpected,
    }
}
