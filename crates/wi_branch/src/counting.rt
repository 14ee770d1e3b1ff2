//! What matches with few failures matches with more. So a number that is enough and one below which all are too few are brought
//! together. Where that fails, numbers are tried from the least on; more risk groups than there are can't fail, so past their number only
//! the most that is asked for is tried, for its tree.
ghost use Rattle.std.specs.Prelude.{◌≡◌, ◌<◌, ◌≤◌, ◌+◌, ℕ, IfOk, IfErr, IfSome, min};
ghost use Rattle.wi_build.specs.Problems.{allowing};
ghost use Rattle.wi_cert.specs.declared.tree.TheConstants.{NODE_LIMIT};
ghost use Rattle.wi_branch.specs.Tolerance.{IsStoppedUpTo, ShowsBelow, ShowsNo, TellsTolerance};
ghost use Rattle.wi_branch.specs.private.Counting.{AreTolerated, IsBetween, IsProbe, IsShownTolerated, IsTrial, failed_besides, groups_besides, is_group_outside, met, narrowed, stopped_with, trial_by};

use crate::answers::exact;
use crate::refused::ExactRefused;
use crate::tolerance::{Tolerance, TolerateRefused};
use std::alloc::Global;
use wi_build::Problem;
use wi_cert::TreeCertificate;
use wi_net::{Bounds, FailSet, LinkId, Network};
use wi_trace::Answer;
use wi_world::{Verdict, Word};

// How many nodes a try may take that is there to save others.
const FEW_NODES: u32 = 256;

// A number below which all are too few, with the tree of the no at one fewer, and one that is enough, with its exact answer and the tree
// of that.
#[derive(Drop)]
pub(crate) struct Between {
    pub low: u32,
    pub below: Option<TreeCertificate>,
    pub high: u32,
    pub answer: Answer,
    pub yes: TreeCertificate,
}

// What a number of failures tells, where each smaller one is too few: that so many are enough, or that they are too few, with the tree
// of the no.
#[derive(Drop)]
pub(crate) enum Trial {
    Enough(Tolerance),
    TooFew(TreeCertificate),
}

/// How many risk groups have to fail, besides those known to be down, before there is a matching trace: the least number, if it is
/// at most `most`. The problem's own number is not used. For each number that is tried an exact answer is asked for, of at most `limit`
/// nodes.
///
/// What it costs: what matches with few failures matches with more, so the most that is asked for is tried first, and a no there ends
/// it; then as many as there are failed links in the run that is found, and then halves. A try for which few nodes aren't enough tells
/// nothing, and the numbers that are left are tried from the least on.
pub fn tolerate(
    alloc: Global,
    problem: &Problem<'_>,
    most: u32,
    limit: u32,
) -> Result<Tolerance, TolerateRefused>
    requires { limit ≤ NODE_LIMIT }
    ensures tolerance { IfOk result (TellsTolerance (allowing problem.now) most limit) }
    ensures refused { IfErr result (IsStoppedUpTo (allowing problem.now) most limit) }
{
    match probed(alloc, problem, most, limit) {
        Some((answer, tree)) => from_most(alloc, problem, most, limit, answer, tree),
        None => from_none(alloc, problem, most, limit),
    }
}

// The exact answer for a number, if few nodes are enough for it.
fn probed(
    alloc: Global,
    problem: &Problem<'_>,
    k: u32,
    limit: u32,
) -> Option<(Answer, TreeCertificate)>
    requires { limit ≤ NODE_LIMIT }
    ensures { IfSome result (λ found. IsProbe (allowing problem.now k) limit found.0 found.1) }
{
    match exact(alloc, problem, k, limit.min(FEW_NODES)) {
        Ok(found) => Some(found),
        Err(refused) => {
            drop(refused);
            None
        }
    }
}

// What the exact answer for the most that is asked for tells. A no there is one for each smaller number.
fn from_most(
    alloc: Global,
    problem: &Problem<'_>,
    most: u32,
    limit: u32,
    answer: Answer,
    tree: TreeCertificate,
) -> Result<Tolerance, TolerateRefused>
    requires limit { limit ≤ NODE_LIMIT }
    requires probe { IsProbe (allowing problem.now most) limit answer tree }
    ensures tolerance { IfOk result (TellsTolerance (allowing problem.now) most limit) }
    ensures refused { IfErr result (IsStoppedUpTo (allowing problem.now) most limit) }
{
    match answer.word {
        Word::Yes => narrow(
            alloc,
            problem,
            most,
            limit,
            Between {
                low: 0,
                below: None,
                high: most,
                answer,
                yes: tree,
            },
        ),
        Word::No | Word::Inconclusive => {
            drop(answer);
            Ok(Tolerance::NoneUpTo { no: tree })
        }
    }
}

// Tries numbers between one that is enough and one below which all are too few, until the two meet.
fn narrow(
    alloc: Global,
    problem: &Problem<'_>,
    most: u32,
    limit: u32,
    first: Between,
) -> Result<Tolerance, TolerateRefused>
    requires limit { limit ≤ NODE_LIMIT }
    requires between { IsBetween (allowing problem.now) most limit first }
    ensures tolerance { IfOk result (TellsTolerance (allowing problem.now) most limit) }
    ensures refused { IfErr result (IsStoppedUpTo (allowing problem.now) most limit) }
{
    let mut between = first;
    while between.low < between.high {
        let middle = middle_of(problem, &between);
        match probed(alloc, problem, middle, limit) {
            Some((answer, tree)) => between = narrowed(between, middle, answer, tree),
            None => return climb_between(alloc, problem, most, limit, between),
        }
    }
    Ok(met(between))
}

// The number that is tried next: as many as there are failed links in the run that was found, or halfway.
fn middle_of(problem: &Problem<'_>, between: &Between) -> u32
    requires { between.now.low < between.now.high }
    ensures least { between.now.low ≤ result }
    ensures less { result < between.now.high }
{
    let failed = failed_besides(problem.bounds(), &between.answer);
    if failed < between.high as usize {
        (failed as u32).max(between.low)
    } else {
        between.low + (between.high - between.low) / 2
    }
}

// How many links have failed in an answer besides those known to be down: as many risk groups at most.
fn failed_besides(bounds: &Bounds, answer: &Answer) -> usize
    ensures { result ≡ failed_besides bounds.now answer.now.verdict }
{
    match &answer.verdict {
        Some(Verdict::Fits(fails)) => fails.len().saturating_sub(bounds.down.len()),
        Some(Verdict::Exceeds(_) | Verdict::UsesFailed(_)) | None => 0,
    }
}

// What an exact answer for a number between the two tells.
fn narrowed(between: Between, k: u32, answer: Answer, tree: TreeCertificate) -> Between
    requires { k < between.high }
    ensures { result ≡ narrowed between k answer tree }
{
    let Between {
        low,
        below,
        high,
        answer: found,
        yes,
    } = between;
    match answer.word {
        Word::Yes => {
            drop((found, yes));
            Between {
                low,
                below,
                high: k,
                answer,
                yes: tree,
            }
        }
        Word::No | Word::Inconclusive => {
            drop((answer, below));
            Between {
                low: k + 1,
                below: Some(tree),
                high,
                answer: found,
                yes,
            }
        }
    }
}

// What is known where the two have met.
fn met(between: Between) -> Tolerance
    ensures { result ≡ met between }
{
    let Between {
        below,
        high,
        answer,
        yes,
        ..
    } = between;
    Tolerance::At {
        k: high,
        answer,
        yes,
        below,
    }
}

// Tries the numbers between the two from the least on, where halves tell nothing. That which is enough needn't be tried again.
fn climb_between(
    alloc: Global,
    problem: &Problem<'_>,
    most: u32,
    limit: u32,
    between: Between,
) -> Result<Tolerance, TolerateRefused>
    requires limit { limit ≤ NODE_LIMIT }
    requires between { IsBetween (allowing problem.now) most limit between }
    requires apart { between.low < between.high }
    ensures tolerance { IfOk result (TellsTolerance (allowing problem.now) most limit) }
    ensures refused { IfErr result (IsStoppedUpTo (allowing problem.now) most limit) }
{
    let Between {
        low,
        below,
        high,
        answer,
        yes,
    } = between;
    match climb(alloc, problem, low, high - 1, limit, below) {
        Ok(Trial::Enough(found)) => {
            drop((answer, yes));
            Ok(found)
        }
        Ok(Trial::TooFew(no)) => Ok(Tolerance::At {
            k: high,
            answer,
            yes,
            below: Some(no),
        }),
        Err(refused) => {
            drop((answer, yes));
            Err(refused)
        }
    }
}

// Tries numbers from none on.
fn from_none(
    alloc: Global,
    problem: &Problem<'_>,
    most: u32,
    limit: u32,
) -> Result<Tolerance, TolerateRefused>
    requires { limit ≤ NODE_LIMIT }
    ensures tolerance { IfOk result (TellsTolerance (allowing problem.now) most limit) }
    ensures refused { IfErr result (IsStoppedUpTo (allowing problem.now) most limit) }
{
    let last = last_tried(problem, most);
    match climb(alloc, problem, 0, last, limit, None)? {
        Trial::Enough(found) => Ok(found),
        Trial::TooFew(no) => none_up_to(alloc, problem, most, limit, last, no),
    }
}

// Tries each number from a first to a last one, up to one that is enough, where each below the first is too few.
fn climb(
    alloc: Global,
    problem: &Problem<'_>,
    first: u32,
    last: u32,
    limit: u32,
    below: Option<TreeCertificate>,
) -> Result<Trial, TolerateRefused>
    requires limit { limit ≤ NODE_LIMIT }
    requires order { first ≤ last }
    requires fewer { AreTolerated (allowing problem.now) first }
    requires below { ShowsBelow (allowing problem.now) limit first below }
    ensures tried { IfOk result (IsTrial (allowing problem.now) limit last) }
    ensures refused { IfErr result (λ refused. (most : ℕ) → last ≤ most → IsStoppedUpTo (allowing problem.now) most limit refused) }
{
    match tried(alloc, problem, first, limit, below)? {
        Trial::Enough(found) => Ok(Trial::Enough(found)),
        Trial::TooFew(no) => climb_on(alloc, problem, first, last, limit, no),
    }
}

// Tries each number past a first one, which is too few, as a tree shows. Each tree of a no is let go once there is a next one.
fn climb_on(
    alloc: Global,
    problem: &Problem<'_>,
    first: u32,
    last: u32,
    limit: u32,
    shown: TreeCertificate,
) -> Result<Trial, TolerateRefused>
    requires limit { limit ≤ NODE_LIMIT }
    requires order { first ≤ last }
    requires shown { IsShownTolerated (allowing problem.now) limit first shown }
    ensures tried { IfOk result (IsTrial (allowing problem.now) limit last) }
    ensures refused { IfErr result (λ refused. (most : ℕ) → last ≤ most → IsStoppedUpTo (allowing problem.now) most limit refused) }
{
    let mut no = shown;
    for k in first..last {
        match tried(alloc, problem, k + 1, limit, Some(no))? {
            Trial::Enough(found) => return Ok(Trial::Enough(found)),
            Trial::TooFew(tree) => no = tree,
        }
    }
    Ok(Trial::TooFew(no))
}

// Tries one number, where each smaller one is too few. `below` shows that of one failure fewer, and is there but for a number of 0.
fn tried(
    alloc: Global,
    problem: &Problem<'_>,
    k: u32,
    limit: u32,
    below: Option<TreeCertificate>,
) -> Result<Trial, TolerateRefused>
    requires limit { limit ≤ NODE_LIMIT }
    requires fewer { AreTolerated (allowing problem.now) k }
    requires below { ShowsBelow (allowing problem.now) limit k below }
    ensures tried { IfOk result (IsTrial (allowing problem.now) limit k) }
    ensures refused { IfErr result (λ refused. (most : ℕ) → k ≤ most → IsStoppedUpTo (allowing problem.now) most limit refused) }
{
    match exact(alloc, problem, k, limit) {
        Ok((answer, tree)) => Ok(trial_by(k, answer, tree, below)),
        Err(refused) => {
            drop(below);
            Err(stopped_at(k, refused))
        }
    }
}

// What an exact answer tells of a number. An exact answer is never inconclusive.
fn trial_by(k: u32, answer: Answer, tree: TreeCertificate, below: Option<TreeCertificate>) -> Trial
    ensures { result ≡ trial_by answer.word k answer tree below }
{
    match answer.word {
        Word::Yes => Trial::Enough(Tolerance::At {
            k,
            answer,
            yes: tree,
            below,
        }),
        Word::No | Word::Inconclusive => {
            drop(answer);
            drop(below);
            Trial::TooFew(tree)
        }
    }
}

// The refusal where there is no exact answer for a number.
fn stopped_at(k: u32, refused: ExactRefused) -> TolerateRefused
    ensures { result ≡ stopped_with k refused }
{
    match refused {
        ExactRefused::Memory => TolerateRefused::Memory,
        refused => TolerateRefused::Exact(k, refused),
    }
}

// What is told where no number up to the most that is asked for is enough, and there is a tree at the last one that was tried. If that
// isn't the most, there is no tree at the most yet.
fn none_up_to(
    alloc: Global,
    problem: &Problem<'_>,
    most: u32,
    limit: u32,
    last: u32,
    no: TreeCertificate,
) -> Result<Tolerance, TolerateRefused>
    requires limit { limit ≤ NODE_LIMIT }
    requires none { AreTolerated (allowing problem.now) (most + 1) }
    requires shown { ShowsNo (allowing problem.now last) limit no }
    ensures tolerance { IfOk result (TellsTolerance (allowing problem.now) most limit) }
    ensures refused { IfErr result (IsStoppedUpTo (allowing problem.now) most limit) }
{
    if last == most {
        return Ok(Tolerance::NoneUpTo { no });
    }
    drop(no);
    none_at(alloc, problem, most, limit)
}

// The tree at the most that is asked for. The exact answer there is a no, since so many are too few; it isn't looked at.
fn none_at(
    alloc: Global,
    problem: &Problem<'_>,
    most: u32,
    limit: u32,
) -> Result<Tolerance, TolerateRefused>
    requires limit { limit ≤ NODE_LIMIT }
    requires none { AreTolerated (allowing problem.now) (most + 1) }
    ensures tolerance { IfOk result (TellsTolerance (allowing problem.now) most limit) }
    ensures refused { IfErr result (IsStoppedUpTo (allowing problem.now) most limit) }
{
    match exact(alloc, problem, most, limit) {
        Ok((answer, no)) => {
            drop(answer);
            Ok(Tolerance::NoneUpTo { no })
        }
        Err(refused) => Err(stopped_at(most, refused)),
    }
}

// The last number to be tried for itself. Past that of the risk groups which aren't known to be down, nothing changes.
fn last_tried(problem: &Problem<'_>, most: u32) -> u32
    ensures { result ≡ min (groups_besides problem.now.net problem.now.bounds.down) most }
{
    groups_outside(problem.net(), &problem.bounds().down).min(most)
}

// How many risk groups aren't in a union of them.
fn groups_outside(net: &Network, known: &FailSet) -> u32
    ensures { result ≡ groups_besides net.now known.now }
{
    let mut count = 0;
    for e in 0..net.counts().links {
        if is_group_outside(net, known, LinkId(e)) {
            count += 1;
        }
    }
    count
}

// Whether a link stands for its risk group, which isn't known.
fn is_group_outside(net: &Network, known: &FailSet, link: LinkId) -> bool
    ensures { result ≡ is_group_outside net.now known.now link }
{
    !known.contains(link) && net.risk(link).0 == link.0
}
