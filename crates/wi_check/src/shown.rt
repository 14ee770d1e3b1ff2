//! The run that a certificate or a tree shows is judged as anybody would judge it who has the tables and the query, by walking
//! along it. Of a no, no run is shown, and nothing here speaks against it.
ghost use Rattle.std.specs.Prelude.{◌≡◌, ◌<◌, true, false, IfErr, OnOk};
ghost use Rattle.wi_cert.specs.Shown.{IsShown};
ghost use Rattle.wi_accept.specs.Answers.{run_of};
ghost use Rattle.wi_accept.specs.Causes.{is_wrong, ShowsRun};
ghost use Rattle.wi_check.specs.private.Stages.{IsShownRefused, NoneShown};

use crate::matched::{labels_of, matches, travelled};
use crate::run::run_of;
use crate::weighed::weighed;
use crate::weights::weight_of;
use std::alloc::Global;
use wi_build::Problem;
use wi_cert::{CheckRefused, Claim, RunPart, Shown};
use wi_trace::{Run, Verdict, moving_fault, verdict};

/// Checks what is shown: the question that it is about, the number of terms, and the run if there is one.
pub(crate) fn check_shown(
    alloc: Global,
    problem: &Problem<'_>,
    shown: &Shown,
) -> Result<(), CheckRefused>
    requires text { IsShown shown.now }
    ensures passed { OnOk result (NoneShown problem.now shown.now 6) }
    ensures refused { IfErr result (IsShownRefused problem.now shown.now) }
{
    check_question(problem, shown)?;
    check_terms(problem, shown)?;
    if shown.claim == Claim::No {
        return Ok(());
    }
    let run = run_of(alloc, problem.net(), shown)?;
    check_steps(alloc, problem, shown, &run)?;
    check_match(alloc, problem, shown, &run)?;
    check_weight(alloc, problem, shown, &run)?;
    check_verdict(alloc, problem, shown, &run)
}

// Checks that it is about packets that are dropped, if these are asked for, and else about those that arrive.
fn check_question(problem: &Problem<'_>, shown: &Shown) -> Result<(), CheckRefused>
    ensures passed { OnOk result (NoneShown problem.now shown.now 1) }
    ensures refused { IfErr result (IsShownRefused problem.now shown.now) }
{
    if shown.dropped.is_some() == problem.query().drops {
        Ok(())
    } else {
        Err(CheckRefused::OfAnotherQuestion)
    }
}

// Checks that there are as many terms as are asked for.
fn check_terms(problem: &Problem<'_>, shown: &Shown) -> Result<(), CheckRefused>
    requires before { NoneShown problem.now shown.now 1 }
    ensures passed { OnOk result (NoneShown problem.now shown.now 2) }
    ensures refused { IfErr result (IsShownRefused problem.now shown.now) }
{
    problem.keeps();
    let count = problem.terms() as u32;
    if shown.terms == count {
        Ok(())
    } else {
        Err(CheckRefused::TermsDiffer {
            shown: shown.terms,
            asked: count,
        })
    }
}

// Checks that each step can be taken at some moment.
fn check_steps(
    alloc: Global,
    problem: &Problem<'_>,
    shown: &Shown,
    run: &Run,
) -> Result<(), CheckRefused>
    requires run { run.now ≡ run_of problem.now.net shown.now }
    requires shows { ShowsRun shown.now }
    requires before { NoneShown problem.now shown.now 2 }
    ensures passed { OnOk result (NoneShown problem.now shown.now 3) }
    ensures refused { IfErr result (IsShownRefused problem.now shown.now) }
{
    match moving_fault(alloc, problem.net(), problem.bounds(), run)? {
        None => Ok(()),
        Some((step, _)) => Err(CheckRefused::StepNotInTable(step as u64)),
    }
}

// Checks that the run has the form that the query asks for.
fn check_match(
    alloc: Global,
    problem: &Problem<'_>,
    shown: &Shown,
    run: &Run,
) -> Result<(), CheckRefused>
    requires run { run.now ≡ run_of problem.now.net shown.now }
    requires shows { ShowsRun shown.now }
    requires before { NoneShown problem.now shown.now 3 }
    ensures passed { OnOk result (NoneShown problem.now shown.now 4) }
    ensures refused { IfErr result (IsShownRefused problem.now shown.now) }
{
    let first = labels_of(alloc, &run.header)?;
    if !matches(alloc, &problem.query().first, first.as_slice())? {
        return Err(CheckRefused::NoMatch(RunPart::First));
    }
    let (links, header) = travelled(alloc, problem.net(), run)?;
    if !matches(alloc, &problem.query().path, links.as_slice())? {
        return Err(CheckRefused::NoMatch(RunPart::Path));
    }
    let last = labels_of(alloc, &header)?;
    if !matches(alloc, &problem.query().last, last.as_slice())? {
        return Err(CheckRefused::NoMatch(RunPart::Last));
    }
    Ok(())
}

// Checks that the run weighs what is said.
fn check_weight(
    alloc: Global,
    problem: &Problem<'_>,
    shown: &Shown,
    run: &Run,
) -> Result<(), CheckRefused>
    requires text { IsShown shown.now }
    requires run { run.now ≡ run_of problem.now.net shown.now }
    requires shows { ShowsRun shown.now }
    requires before { NoneShown problem.now shown.now 4 }
    ensures passed { OnOk result (NoneShown problem.now shown.now 5) }
    ensures refused { IfErr result (IsShownRefused problem.now shown.now) }
{
    let said = weight_of(shown.terms, shown.weight.as_slice());
    let counted = weighed(alloc, problem.net(), problem.vector(), run)?;
    if said == counted {
        Ok(())
    } else {
        Err(CheckRefused::WeightDiffers {
            shown: said,
            counted,
        })
    }
}

// Checks that the answer's word is the one for the run.
fn check_verdict(
    alloc: Global,
    problem: &Problem<'_>,
    shown: &Shown,
    run: &Run,
) -> Result<(), CheckRefused>
    requires run { run.now ≡ run_of problem.now.net shown.now }
    requires before { NoneShown problem.now shown.now 5 }
    ensures passed { OnOk result (NoneShown problem.now shown.now 6) }
    ensures refused { IfErr result (IsShownRefused problem.now shown.now) }
{
    problem.keeps();
    let verdict = verdict(alloc, problem.net(), run, problem.bounds())?;
    if is_wrong(shown.claim, &verdict) {
        Err(CheckRefused::WrongAnswer)
    } else {
        Ok(())
    }
}

// Whether a claim isn't the one for a run of this verdict.
fn is_wrong(claim: Claim, verdict: &Verdict) -> bool
    ensures { result ≡ is_wrong claim verdict.now }
{
    match (claim, verdict) {
        (Claim::No, _) => false,
        (Claim::Yes, Verdict::Fits(_)) => false,
        (Claim::Yes, _) => true,
        (Claim::Inconclusive, Verdict::Fits(_)) => true,
        (Claim::Inconclusive, _) => false,
    }
}
