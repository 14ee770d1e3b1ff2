//! A problem is decided by a search without a cut: what was found is judged by the verdict on it, and what shows that nothing is
//! lighter is taken over as it is.
ghost use Rattle.std.specs.Prelude.{◌≡◌, Some, None, IfOk, IfErr, option_map};
ghost use Rattle.wi_world.specs.private.Holds.{word_for};
ghost use Rattle.wi_decide.specs.Searches.{IsFound, IsSearchRefused};
ghost use Rattle.wi_accept.specs.Answers.{IsDecided};
ghost use Rattle.wi_accept.specs.Causes.{IsAccepted};
ghost use Rattle.wi_accept.specs.Makers.{IsMaker};
ghost use Rattle.wi_decide.specs.Refusals.{IsUnrefused};

use crate::certificate::shown_of;
use crate::refused::SearchRefused;
use crate::searching::{LeastRun, Searched, search};
use std::alloc::Global;
use wi_base::NoMemory;
use wi_build::Problem;
use wi_cert::Certificate;
use wi_trace::{Answer, verdict};
use wi_world::{Verdict, Word};

/// The answer to a problem, and the certificate that shows it. A run is shown where its effort is at most 4,096. The certificate has
/// the least closed heads and pairs, and the rows that weigh less than that run; of a no, all rows.
pub fn decide(alloc: Global, problem: &Problem<'_>) -> Result<(Answer, Certificate), SearchRefused>
    ensures decided { IfOk result (λ found. IsDecided problem.now found.0) }
    ensures made { IfOk result (λ found. IsMaker problem.now found.0 found.1) }
    ensures accepted { IfOk result (λ found. IsAccepted problem.now found.1) }
    ensures refused { IfErr result (IsSearchRefused problem.now None) }
    ensures unrefused { IfOk result (λ found. IsUnrefused problem.now found.0) }
{
    problem.keeps();
    let searched = search(alloc, problem, None)?;
    let Searched { found, evidence } = searched;
    let answer = answer_of(alloc, problem, found)?;
    let shown = shown_of(alloc, problem, &answer)?;
    let closed = evidence.write_down(alloc, problem)?;
    Ok((answer, Certificate { shown, closed }))
}

// The answer by what was found: where that is no run, it is a no.
fn answer_of(
    alloc: Global,
    problem: &Problem<'_>,
    found: Option<LeastRun>,
) -> Result<Answer, NoMemory>
    requires { IsFound problem.now None found }
    ensures weight { IfOk result (λ answer. answer.weight ≡ option_map (λ f. f.weight) found) }
    ensures run { IfOk result (λ answer. answer.run ≡ option_map (λ f. f.run) found) }
    ensures decided { IfOk result (IsDecided problem.now) }
{
    problem.keeps();
    let Some(least) = found else {
        return Ok(Answer {
            word: Word::No,
            weight: None,
            run: None,
            verdict: None,
        });
    };
    judged(alloc, problem, least)
}

// The answer with a least run, by the verdict on it.
fn judged(alloc: Global, problem: &Problem<'_>, least: LeastRun) -> Result<Answer, NoMemory>
    requires { IsFound problem.now None (Some least) }
    ensures weight { IfOk result (λ answer. answer.weight ≡ Some least.weight) }
    ensures run { IfOk result (λ answer. answer.run ≡ Some least.run) }
    ensures decided { IfOk result (IsDecided problem.now) }
{
    problem.keeps();
    let LeastRun { weight, run } = least;
    let verdict = verdict(alloc, problem.net(), &run, problem.bounds())?;
    Ok(Answer {
        word: word_for(&verdict),
        weight: Some(weight),
        run: Some(run),
        verdict: Some(verdict),
    })
}

// The answer's word, by the verdict on a least run.
fn word_for(verdict: &Verdict) -> Word
    ensures { result ≡ word_for verdict.now }
{
    match verdict {
        Verdict::Fits(_) => Word::Yes,
        Verdict::Exceeds(_) | Verdict::UsesFailed(_) => Word::Inconclusive,
    }
}
