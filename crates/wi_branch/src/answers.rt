//! Branches are opened until none is left, each below the weight of the best run that fitted before it, so that a branch without a
//! lighter run ends at once. The answer's verdict is within the whole bounds.
ghost use Rattle.std.specs.Prelude.{◌≡◌, ◌<◌, ◌≤◌, ◌⊎◌, true, false, map, IfOk, IfErr, OnOk};
ghost use Rattle.wi_world.specs.Moves.{AreBounds};
ghost use Rattle.wi_build.specs.Problems.{allowing, within};
ghost use Rattle.wi_cert.specs.declared.tree.TheConstants.{NODE_LIMIT};
ghost use Rattle.wi_accept.specs.Trees.{IsTreeAccepted};
ghost use Rattle.wi_decide.specs.Searches.{IsSearchRefused};
ghost use Rattle.wi_decide.specs.Showing.{shown_by};
ghost use Rattle.wi_branch.specs.Exactly.{IsAnswerRefused, IsAnsweredExactly, IsExact, IsExactRefused, node_under, refused_with};
ghost use Rattle.wi_branch.specs.private.Courses.{CanBeShown, IsDone, IsOpenedAt, IsOpening, answer_with, cut_of};

use crate::course::Course;
use crate::finding::tell;
use crate::opened::Opened;
use crate::refused::{AnswerRefused, ExactRefused};
use crate::tree::nodes_of;
use std::alloc::Global;
use wi_base::{Listed, NoMemory};
use wi_build::Problem;
use wi_cert::TreeCertificate;
use wi_decide::{LeastRun, SearchRefused, shown_of};
use wi_net::Bounds;
use wi_trace::{Answer, verdict};
use wi_world::Word;

/// The exact answer to a problem, where `k` risk groups may fail besides those known to be down, and the tree that shows it. It is a
/// yes or a no. A yes shows a least run among those that fit, and the links that it needs to have failed. At most `limit` nodes are
/// opened; the tree has their nodes in preorder, each leaf with the least closed heads and pairs of its branch and the rows that
/// weigh less than that run; of a no, all rows.
pub fn exact(
    alloc: Global,
    problem: &Problem<'_>,
    k: u32,
    limit: u32,
) -> Result<(Answer, TreeCertificate), ExactRefused>
    requires { limit ≤ NODE_LIMIT }
    ensures exact { IfOk result (λ found. IsExact (allowing problem.now k) limit found.0 found.1) }
    ensures accepted { IfOk result (λ found. IsTreeAccepted (allowing problem.now k) found.1) }
    ensures refused { IfErr result (IsExactRefused (allowing problem.now k) limit) }
{
    let whole = problem.bounds_allowing(k)?;
    let answered = exactly(alloc, &problem.within(&whole), limit);
    drop(whole);
    answered
}

/// The same answer, and how many nodes the tree has that shows it. The tree is not made, and of a branch nothing is kept but a run.
pub fn exact_answer(
    alloc: Global,
    problem: &Problem<'_>,
    k: u32,
    limit: u32,
) -> Result<(Answer, u32), AnswerRefused>
    requires { limit ≤ NODE_LIMIT }
    ensures answered { IfOk result (λ found. IsAnsweredExactly (allowing problem.now k) limit found.0 found.1) }
    ensures refused { IfErr result (IsAnswerRefused (allowing problem.now k) limit) }
{
    let whole = problem.bounds_allowing(k)?;
    let answered = answered(alloc, &problem.within(&whole), limit);
    drop(whole);
    answered
}

// The exact answer within a problem's own bounds, and the tree.
fn exactly(
    alloc: Global,
    problem: &Problem<'_>,
    limit: u32,
) -> Result<(Answer, TreeCertificate), ExactRefused>
    requires { limit ≤ NODE_LIMIT }
    ensures exact { IfOk result (λ found. IsExact problem.now limit found.0 found.1) }
    ensures accepted { IfOk result (λ found. IsTreeAccepted problem.now found.1) }
    ensures refused { IfErr result (IsExactRefused problem.now limit) }
{
    problem.keeps();
    let mut course = Course::new(alloc, problem.bounds().twin()?, true)?;
    match open_all(alloc, problem, limit, &mut course) {
        Ok(()) => Ok(shown_with(alloc, problem, course)?),
        Err(refused) => Err(refused_with(refused, course)),
    }
}

// The exact answer within a problem's own bounds, and how many nodes were opened.
fn answered(
    alloc: Global,
    problem: &Problem<'_>,
    limit: u32,
) -> Result<(Answer, u32), AnswerRefused>
    requires { limit ≤ NODE_LIMIT }
    ensures answered { IfOk result (λ found. IsAnsweredExactly problem.now limit found.0 found.1) }
    ensures refused { IfErr result (IsAnswerRefused problem.now limit) }
{
    problem.keeps();
    let mut course = Course::new(alloc, problem.bounds().twin()?, false)?;
    open_all(alloc, problem, limit, &mut course)?;
    let Course { best, count, .. } = course;
    let answer = answer_of(alloc, problem, best)?;
    Ok((answer, count))
}

// Opens branches until none is left.
fn open_all(
    alloc: Global,
    problem: &Problem<'_>,
    limit: u32,
    course: &mut Course,
) -> Result<(), AnswerRefused>
    requires { IsOpening problem.now limit course.old }
    ensures keeps { OnOk result (course.new.keeps ≡ course.old.keeps) }
    ensures done { OnOk result (IsDone problem.now limit course.new) }
    ensures refused { IfErr result (IsAnswerRefused problem.now limit) }
    ensures nodes { IfErr result (λ refused. course.old.keeps ≡ true → IsExactRefused problem.now limit (refused_with course.new.nodes refused)) }
{
    problem.keeps();
    while let Some(branch) = course.next() {
        if course.count >= limit {
            return Err(AnswerRefused::NodeLimit);
        }
        open_branch(alloc, problem, &branch, course)?;
    }
    Ok(())
}

// Opens a branch.
fn open_branch(
    alloc: Global,
    problem: &Problem<'_>,
    branch: &Bounds,
    course: &mut Course,
) -> Result<(), SearchRefused>
    requires branch { AreBounds problem.now.net branch.now }
    requires room { course.old.count < 4294967295 }
    ensures opened { OnOk result (IsOpenedAt problem.now branch.now course.old course.new) }
    ensures refused { IfErr result (IsSearchRefused (within problem.now branch.now) (cut_of course.old.best)) }
    ensures stands { IfErr result (λ refused. (refused ≡ SearchRefused.Memory) ⊎ (course.new ≡ course.old)) }
{
    let told = tell(alloc, &problem.within(branch), course.cut())?;
    course.note(alloc, problem.net(), branch, told)?;
    Ok(())
}

// A refusal with the nodes before it.
fn refused_with(refused: AnswerRefused, course: Course) -> ExactRefused
    ensures { result ≡ refused_with course.nodes refused }
{
    let Course { nodes, .. } = course;
    let opened = Listed::of(nodes);
    match refused {
        AnswerRefused::Overflow(overflow) => ExactRefused::Overflow { opened, overflow },
        AnswerRefused::TooLong(effort) => ExactRefused::TooLong { opened, effort },
        AnswerRefused::NodeLimit => ExactRefused::NodeLimit { opened },
        AnswerRefused::Memory => ExactRefused::Memory,
    }
}

// The answer once all branches were opened, and the tree that shows it.
fn shown_with(
    alloc: Global,
    problem: &Problem<'_>,
    course: Course,
) -> Result<(Answer, TreeCertificate), NoMemory>
    requires { CanBeShown (answer_with problem.now.net problem.now.bounds course.best) }
    ensures answer { IfOk result (λ found. found.0 ≡ answer_with problem.now.net problem.now.bounds course.best) }
    ensures shown { IfOk result (λ found. found.1.shown ≡ shown_by problem.now found.0) }
    ensures nodes { IfOk result (λ found. found.1.nodes ≡ map (node_under found.1.shown) course.nodes) }
{
    let Course { best, nodes, .. } = course;
    let answer = answer_of(alloc, problem, best)?;
    let tree = tree_of(alloc, problem, &answer, nodes)?;
    Ok((answer, tree))
}

// The tree with these nodes, which shows an answer.
fn tree_of(
    alloc: Global,
    problem: &Problem<'_>,
    answer: &Answer,
    nodes: Vec<Opened>,
) -> Result<TreeCertificate, NoMemory>
    requires { CanBeShown answer.now }
    ensures shown { IfOk result (λ tree. tree.shown ≡ shown_by problem.now answer.now) }
    ensures nodes { IfOk result (λ tree. tree.nodes ≡ map (node_under tree.shown) nodes.items) }
{
    let shown = shown_of(alloc, problem, answer)?;
    let nodes = Listed::of(nodes_of(alloc, nodes, &shown)?);
    Ok(TreeCertificate { shown, nodes })
}

// The answer with the best run.
fn answer_of(
    alloc: Global,
    problem: &Problem<'_>,
    best: Option<LeastRun>,
) -> Result<Answer, NoMemory>
    ensures { IfOk result (λ answer. answer ≡ answer_with problem.now.net problem.now.bounds best) }
{
    problem.keeps();
    let Some(LeastRun { weight, run }) = best else {
        return Ok(no());
    };
    let verdict = verdict(alloc, problem.net(), &run, problem.bounds())?;
    Ok(Answer {
        word: Word::Yes,
        weight: Some(weight),
        run: Some(run),
        verdict: Some(verdict),
    })
}

// A no shows nothing.
fn no() -> Answer
    ensures { result ≡ record { word = Word.No; weight = None; run = None; verdict = None } }
{
    Answer {
        word: Word::No,
        weight: None,
        run: None,
        verdict: None,
    }
}
