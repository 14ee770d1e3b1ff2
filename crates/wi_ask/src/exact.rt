//! As of `verify`, the report is made before the tree is stored, and both before anything is printed.
ghost use Rattle.std.specs.Prelude.{◌≡◌, Some, None, option_map, length, IfOk, IfErr, IfSome};
ghost use Rattle.wi_base.specs.Shelf.{ShelfSeen};
ghost use Rattle.wi_cert.specs.Trees.{IsTreeWritable};
ghost use Rattle.wi_build.specs.Problems.{Problem};
ghost use Rattle.wi_branch.specs.Exactly.{IsAnswerRefused, IsAnsweredExactly};
ghost use Rattle.wi_report.specs.Reports.{IsKnownRun, exact_report_of};
ghost use Rattle.wi_files.specs.Certificates.{FromKeepingTree, IsTreeStored};
ghost use Rattle.wi_files.specs.Shelves.{IsCalm, IsLeft, OthersStand};
ghost use Rattle.wi_ask.specs.Decided.{status_for};
ghost use Rattle.wi_ask.specs.Exact.{FromSplitting, FromTreeStore, IsReportedExactly, IsShownExactly};
ghost use Rattle.wi_ask.specs.Wanted.{FromAnswer};

use crate::verify::status_for;
use std::alloc::Global;
use wi_base::{NoMemory, Shelf};
use wi_branch::{AnswerRefused, exact as exact_tree, exact_answer};
use wi_build::Problem;
use wi_cert::{NODE_LIMIT, TreeCertificate};
use wi_files::store_tree;
use wi_outcome::{Printed, Refusal};
use wi_report::exact_report;
use wi_trace::Answer;

/// The report on the exact answer to a problem, or why there is none. The tree that shows the answer is stored under a name, if there is
/// one; else no tree is made.
pub fn exact<'a, S: Shelf>(
    alloc: Global,
    problem: &Problem<'_>,
    file: Option<&'a str>,
    shelf: &mut S,
) -> Result<Printed, Refusal<'a>>
    ensures told { (S.seen shelf.new).told ≡ (S.seen shelf.old).told }
    ensures others { OthersStand (option_map (λ s. s.now) file.entry) (S.seen shelf.old) (S.seen shelf.new) }
    ensures left { IfErr result (λ refusal. IsLeft refusal (S.seen shelf.old) (S.seen shelf.new)) }
    ensures calm { IfOk result (λ _. IsCalm (S.seen shelf.old) (S.seen shelf.new)) }
    ensures reported { IfOk result (λ printed. IsReportedExactly problem.now (option_map (λ s. s.now) file.entry) (S.seen shelf.new) printed.status printed.text) }
    ensures refused { IfErr result (FromAnswer FromSplitting (FromTreeStore (option_map (λ s. s.now) file.entry)) (S.seen shelf.old) (S.seen shelf.new) problem.now) }
{
    match file {
        None => reported(alloc, problem),
        Some(name) => stored(alloc, problem, name, shelf),
    }
}

// The report on the exact answer, whose tree isn't made.
fn reported<'a>(alloc: Global, problem: &Problem<'_>) -> Result<Printed, Refusal<'a>>
    ensures reported { IfOk result (λ printed. (shelf : ShelfSeen) → IsReportedExactly problem.now None shelf printed.status printed.text) }
    ensures refused { IfErr result (FromSplitting problem.now) }
{
    problem.keeps();
    let (answer, nodes) = answered_exactly(alloc, problem)?;
    let printed = printed(alloc, problem, &answer, nodes as usize);
    drop(answer);
    Ok(printed?)
}

// The report on the exact answer, once its tree is stored under a name.
fn stored<'a, S: Shelf>(
    alloc: Global,
    problem: &Problem<'_>,
    name: &'a str,
    shelf: &mut S,
) -> Result<Printed, Refusal<'a>>
    ensures told { (S.seen shelf.new).told ≡ (S.seen shelf.old).told }
    ensures others { OthersStand (Some name.now) (S.seen shelf.old) (S.seen shelf.new) }
    ensures left { IfErr result (λ refusal. IsLeft refusal (S.seen shelf.old) (S.seen shelf.new)) }
    ensures calm { IfOk result (λ _. IsCalm (S.seen shelf.old) (S.seen shelf.new)) }
    ensures reported { IfOk result (λ printed. IsReportedExactly problem.now (Some name.now) (S.seen shelf.new) printed.status printed.text) }
    ensures refused { IfErr result (FromAnswer FromSplitting (FromTreeStore (Some name.now)) (S.seen shelf.old) (S.seen shelf.new) problem.now) }
{
    let (answer, tree) = decided_exactly(alloc, problem)?;
    let printed = stored_with(alloc, problem, &answer, &tree, name, shelf);
    drop((answer, tree));
    printed
}

// The report on an exact answer, once its tree is stored under a name.
fn stored_with<'a, S: Shelf>(
    alloc: Global,
    problem: &Problem<'_>,
    answer: &Answer,
    tree: &TreeCertificate,
    name: &'a str,
    shelf: &mut S,
) -> Result<Printed, Refusal<'a>>
    requires run { IfSome answer.now.run (IsKnownRun problem.now.net) }
    requires tree { IsTreeWritable tree.now }
    ensures told { (S.seen shelf.new).told ≡ (S.seen shelf.old).told }
    ensures others { OthersStand (Some name.now) (S.seen shelf.old) (S.seen shelf.new) }
    ensures left { IfErr result (λ refusal. IsLeft refusal (S.seen shelf.old) (S.seen shelf.new)) }
    ensures calm { IfOk result (λ _. IsCalm (S.seen shelf.old) (S.seen shelf.new)) }
    ensures status { IfOk result (λ printed. printed.status ≡ status_for answer.now.word) }
    ensures text { IfOk result (λ printed. printed.text ≡ exact_report_of problem.now.net problem.now.bounds (length problem.now.vector) answer.now (length tree.now.nodes)) }
    ensures kept { IfOk result (λ _. IsTreeStored (Some name.now) (S.seen shelf.new) tree.now) }
    ensures refused { IfErr result (λ refusal. FromKeepingTree (S.seen shelf.old) (S.seen shelf.new) (Some name.now) tree.now refusal) }
{
    let printed = printed(alloc, problem, answer, tree.nodes.as_slice().len())?;
    store_tree(alloc, tree, name, shelf)?;
    Ok(printed)
}

// The report on an exact answer, whose tree has so many nodes.
fn printed(
    alloc: Global,
    problem: &Problem<'_>,
    answer: &Answer,
    nodes: usize,
) -> Result<Printed, NoMemory>
    requires { IfSome answer.now.run (IsKnownRun problem.now.net) }
    ensures status { IfOk result (λ printed. printed.status ≡ status_for answer.now.word) }
    ensures text { IfOk result (λ printed. printed.text ≡ exact_report_of problem.now.net problem.now.bounds (length problem.now.vector) answer.now nodes) }
{
    Ok(Printed {
        status: status_for(answer.word),
        text: exact_report(alloc, problem, answer, nodes)?,
    })
}

// The exact answer to a problem, and how many nodes its tree has; or why there is none.
fn answered_exactly<'a>(alloc: Global, problem: &Problem<'_>) -> Result<(Answer, u32), Refusal<'a>>
    ensures answered { IfOk result (λ found. IsAnsweredExactly problem.now NODE_LIMIT found.0 found.1) }
    ensures refused { IfErr result (FromSplitting problem.now) }
{
    match exact_answer(alloc, problem, problem.bounds().k, NODE_LIMIT) {
        Ok(found) => Ok(found),
        Err(refused) => Err(refusal_for(refused, problem.terms())),
    }
}

// The exact answer to a problem, with the tree that shows it; or why there is none.
fn decided_exactly<'a>(
    alloc: Global,
    problem: &Problem<'_>,
) -> Result<(Answer, TreeCertificate), Refusal<'a>>
    ensures shown { IfOk result (λ found. IsShownExactly problem.now found.0 found.1) }
    ensures refused { IfErr result (FromSplitting problem.now) }
{
    problem.keeps();
    match exact_tree(alloc, problem, problem.bounds().k, NODE_LIMIT) {
        Ok(found) => Ok(found),
        Err(refused) => Err(refusal_for(AnswerRefused::from(refused), problem.terms())),
    }
}

/// Why there is no exact answer. So many terms of weights are shown.
pub fn refusal_for<'a>(refused: AnswerRefused, terms: usize) -> Refusal<'a>
    ensures { (problem : Problem) → IsAnswerRefused problem NODE_LIMIT refused → terms ≡ length problem.vector → FromSplitting problem result }
{
    match refused {
        AnswerRefused::Overflow(overflow) => Refusal::Overflow(overflow.weight, terms),
        AnswerRefused::TooLong(effort) => Refusal::TooLong(effort),
        AnswerRefused::NodeLimit => Refusal::ManyNodes,
        AnswerRefused::Memory => Refusal::Memory,
    }
}
