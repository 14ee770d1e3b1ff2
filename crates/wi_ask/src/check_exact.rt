//! As of `check`, the tree is held against what is given.
ghost use Rattle.std.specs.Prelude.{◌≡◌, IfOk, IfErr, OnOk};
ghost use Rattle.wi_cert.specs.Trees.{IsTreeWritable};
ghost use Rattle.wi_accept.specs.Answers.{answer_of, word_of};
ghost use Rattle.wi_accept.specs.Trees.{IsDecidedExactly, IsTreeAccepted, IsTreeRefused};
ghost use Rattle.wi_report.specs.Reports.{accepted_text};
ghost use Rattle.wi_cert.specs.declared.tree.TreeCertificate.{TreeCertificate};
ghost use Rattle.wi_files.specs.Shelves.{AllStand, IsCalm};
ghost use Rattle.wi_ask.specs.Exact.{FromTree, IsBelievedTreeFile, IsTreeBelieved};
ghost use Rattle.wi_ask.specs.private.Stages.{FromJudgingTree};

use std::alloc::Global;
use wi_base::Shelf;
use wi_build::Problem;
use wi_cert::{CheckRefused, TreeCertificate};
use wi_check::{Accepted, check_tree};
use wi_files::fetch_tree;
use wi_outcome::{Printed, Refusal};
use wi_report::accepted_text;

/// That the tree of a file is accepted for a problem, or why not.
pub fn check_exact<'a, S: Shelf>(
    alloc: Global,
    problem: &Problem<'_>,
    file: &'a str,
    shelf: &mut S,
) -> Result<Printed, Refusal<'a>>
    ensures told { (S.seen shelf.new).told ≡ (S.seen shelf.old).told }
    ensures files { AllStand (S.seen shelf.old) (S.seen shelf.new) }
    ensures calm { IfOk result (λ _. IsCalm (S.seen shelf.old) (S.seen shelf.new)) }
    ensures believed { IfOk result (λ printed. (t : TreeCertificate) × IsBelievedTreeFile (S.seen shelf.old) problem.now file.now t × (printed.status ≡ 0) × (printed.text ≡ accepted_text (word_of t.shown.claim))) }
    ensures refused { IfErr result (λ refusal. FromTree (S.seen shelf.old) (S.seen shelf.new) problem.now file.now refusal) }
{
    problem.keeps();
    let tree = fetch_tree(alloc, file, shelf)?;
    let printed = believed(alloc, problem, &tree);
    drop(tree);
    printed
}

// That a tree is believed.
fn believed<'a>(
    alloc: Global,
    problem: &Problem<'_>,
    tree: &TreeCertificate,
) -> Result<Printed, Refusal<'a>>
    requires { IsTreeWritable tree.now }
    ensures status { IfOk result (λ printed. printed.status ≡ 0) }
    ensures text { IfOk result (λ printed. printed.text ≡ accepted_text (word_of tree.now.shown.claim)) }
    ensures believed { OnOk result (IsTreeBelieved problem.now tree.now) }
    ensures refused { IfErr result (FromJudgingTree problem.now tree.now) }
{
    problem.keeps();
    match checked(alloc, problem, tree) {
        Ok(accepted) => Ok(Printed {
            status: 0,
            text: accepted_text(alloc, accepted.word)?,
        }),
        Err(CheckRefused::Memory) => Err(Refusal::Memory),
        Err(fault) => Err(Refusal::NotAccepted(fault, problem.terms())),
    }
}

// What is said of a tree, for the problem's own number of failures.
fn checked(
    alloc: Global,
    problem: &Problem<'_>,
    tree: &TreeCertificate,
) -> Result<Accepted, CheckRefused>
    requires { IsTreeWritable tree.now }
    ensures accepted { OnOk result (IsTreeAccepted problem.now tree.now) }
    ensures word { IfOk result (λ accepted. accepted.word ≡ word_of tree.now.shown.claim) }
    ensures holds { OnOk result (IsDecidedExactly problem.now (answer_of problem.now tree.now.shown)) }
    ensures refused { IfErr result (IsTreeRefused problem.now tree.now) }
{
    check_tree(alloc, problem, problem.bounds().k, tree)
}
