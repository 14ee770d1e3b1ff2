//! What is decided is asked for by two commands, and refused for the same causes.
ghost use Rattle.std.specs.Prelude.{IfOk, IfErr};
ghost use Rattle.wi_ask.specs.Certificates.{IsCertified};
ghost use Rattle.wi_ask.specs.Decided.{FromDecision};

use std::alloc::Global;
use wi_build::Problem;
use wi_cert::Certificate;
use wi_decide::{SearchRefused, decide};
use wi_outcome::Refusal;
use wi_trace::Answer;

/// The answer to a problem, with its certificate; or why none can be shown.
pub fn decided<'a>(
    alloc: Global,
    problem: &Problem<'_>,
) -> Result<(Answer, Certificate), Refusal<'a>>
    ensures certified { IfOk result (λ found. IsCertified problem.now found.0 found.1) }
    ensures refused { IfErr result (FromDecision problem.now) }
{
    problem.keeps();
    match decide(alloc, problem) {
        Ok(found) => Ok(found),
        Err(SearchRefused::Overflow(overflow)) => {
            Err(Refusal::Overflow(overflow.weight, problem.terms()))
        }
        Err(SearchRefused::TooLong(effort)) => Err(Refusal::TooLong(effort)),
        Err(SearchRefused::Memory) => Err(Refusal::Memory),
    }
}
