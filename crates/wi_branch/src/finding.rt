//! One search tells all of a branch: that nothing is left to find there, or the least run, which fits or tells by what link to
//! split.
ghost use Rattle.std.specs.Prelude.{◌≡◌, ℕ, List, Option, IfOk, IfErr, option_map};
ghost use Rattle.wi_world.specs.Moving.{IsMovingRun};
ghost use Rattle.wi_quantity.specs.Weighing.{components};
ghost use Rattle.wi_decide.specs.Searches.{IsEvidence, IsSearchRefused};
ghost use Rattle.wi_branch.specs.Walks.{IsNode, is_fitting};
ghost use Rattle.wi_branch.specs.private.Courses.{IsJudged, IsToldWell, KeepsLeaf, node_of};

use crate::branches::first_free;
use std::alloc::Global;
use wi_base::NoMemory;
use wi_build::Problem;
use wi_cert::Closed;
use wi_decide::{Evidence, LeastRun, SearchRefused, Searched, search};
use wi_net::LinkId;
use wi_quantity::Weight;
use wi_trace::{needs, verdict};
use wi_world::Verdict;

// What a branch tells, with what shows that nothing lighter is there, but for a branch that is split.
#[derive(Drop)]
pub(crate) enum Told {
    // No run is below the cut.
    Nothing(Closed),
    // The least one fits.
    Fitting(LeastRun, Closed),
    // It doesn't: this is the link to split by.
    Splitting(LinkId),
}

/// What is found for the problem within a branch, below a cut.
#[tactic(auto, using(crate::proofs::FindingLaws::judged_well))]
pub(crate) fn tell(
    alloc: Global,
    problem: &Problem<'_>,
    cut: Option<Weight>,
) -> Result<Told, SearchRefused>
    ensures node { IfOk result (λ told. IsNode problem.now (option_map components cut) (node_of told)) }
    ensures well { IfOk result (IsToldWell problem.now) }
    ensures refused { IfErr result (IsSearchRefused problem.now (option_map components cut)) }
{
    problem.keeps();
    let Searched { found, evidence } = search(alloc, problem, cut)?;
    match found {
        None => Ok(Told::Nothing(evidence.write_down(alloc, problem)?)),
        Some(found) => Ok(judged(alloc, problem, found, evidence)?),
    }
}

// A least run fits its branch, or tells by what link to split.
fn judged(
    alloc: Global,
    problem: &Problem<'_>,
    found: LeastRun,
    evidence: Evidence,
) -> Result<Told, NoMemory>
    requires run { IsMovingRun problem.now.net problem.now.bounds found.run }
    requires evidence { (bound : Option (List ℕ)) × IsEvidence problem.now bound evidence }
    ensures judged { IfOk result (IsJudged problem.now.net problem.now.bounds found) }
    ensures leaf { IfOk result (KeepsLeaf problem.now evidence) }
{
    problem.keeps();
    let (net, branch) = (problem.net(), problem.bounds());
    let verdict = verdict(alloc, net, &found.run, branch)?;
    if is_fitting(&verdict) {
        return Ok(Told::Fitting(found, evidence.write_down(alloc, problem)?));
    }
    let needs = needs(alloc, net, &found.run, branch)?;
    Ok(Told::Splitting(first_free(&needs, branch).unwrap()))
}

// Whether a verdict is that a run fits.
fn is_fitting(verdict: &Verdict) -> bool
    ensures { result ≡ is_fitting verdict.now }
{
    match verdict {
        Verdict::Fits(_) => true,
        Verdict::Exceeds(_) | Verdict::UsesFailed(_) => false,
    }
}
