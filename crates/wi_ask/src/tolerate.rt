//! What is printed, the number and the exact report there, is made first; then the two trees that show it are stored; and only then it
//! is printed.
ghost use Rattle.std.specs.Prelude.{◌≡◌, Some, option_map, IfOk, IfErr, IfSome, OnOk};
ghost use Rattle.wi_cert.specs.Trees.{IsTreeWritable};
ghost use Rattle.wi_files.specs.Certificates.{AreTreesStored, FromKeepingTrees};
ghost use Rattle.wi_files.specs.Shelves.{IsCalm, IsLeft, IsOfTwo, StandBut};
ghost use Rattle.wi_ask.specs.Tolerance.{FromTolerating, FromTreesStore, IsTold, IsToldWith, first_tree, second_tree, tolerance_status, tolerance_text};
ghost use Rattle.wi_ask.specs.Wanted.{FromAnswer};

use crate::exact::refusal_for;
use std::alloc::Global;
use wi_base::{NoMemory, Shelf};
use wi_branch::{AnswerRefused, Tolerance, TolerateRefused, tolerate as tolerance_of};
use wi_build::Problem;
use wi_cert::NODE_LIMIT;
use wi_files::store_trees;
use wi_outcome::{Printed, Refusal};
use wi_report::{none_up_to_text, tolerance_report};
use wi_text::Text;

/// How many failures it takes for a yes to a problem, if they are at most `most`; or why that isn't known. The problem's own number
/// isn't used. The trees that show it are stored under a name and that name followed by `.below`, if there is a name.
pub fn tolerate<'a, S: Shelf>(
    alloc: Global,
    problem: &Problem<'_>,
    most: u32,
    file: Option<&'a str>,
    shelf: &mut S,
) -> Result<Printed, Refusal<'a>>
    ensures told { (S.seen shelf.new).told ≡ (S.seen shelf.old).told }
    ensures others { StandBut (IsOfTwo (option_map (λ s. s.now) file.entry)) (S.seen shelf.old) (S.seen shelf.new) }
    ensures left { IfErr result (λ refusal. IsLeft refusal (S.seen shelf.old) (S.seen shelf.new)) }
    ensures calm { IfOk result (λ _. IsCalm (S.seen shelf.old) (S.seen shelf.new)) }
    ensures told_with { IfOk result (λ printed. IsToldWith problem.now most (option_map (λ s. s.now) file.entry) (S.seen shelf.old) (S.seen shelf.new) printed.status printed.text) }
    ensures refused { IfErr result (FromAnswer (FromTolerating most) (FromTreesStore most (option_map (λ s. s.now) file.entry)) (S.seen shelf.old) (S.seen shelf.new) problem.now) }
{
    let found = tolerance(alloc, problem, most)?;
    let printed = stored(alloc, problem, most, &found, file, shelf);
    drop(found);
    printed
}

// How many failures it takes, or why that isn't known.
fn tolerance<'a>(alloc: Global, problem: &Problem<'_>, most: u32) -> Result<Tolerance, Refusal<'a>>
    ensures found { IfOk result (IsTold problem.now most) }
    ensures refused { IfErr result (FromTolerating most problem.now) }
{
    match tolerance_of(alloc, problem, most, NODE_LIMIT) {
        Ok(found) => Ok(found),
        Err(TolerateRefused::Exact(_, refused)) => {
            Err(refusal_for(AnswerRefused::from(refused), problem.terms()))
        }
        Err(TolerateRefused::Memory) => Err(Refusal::Memory),
    }
}

// What is printed of it.
fn text_for(
    alloc: Global,
    problem: &Problem<'_>,
    most: u32,
    found: &Tolerance,
) -> Result<Text, NoMemory>
    requires { IsTold problem.now most found.now }
    ensures { IfOk result (λ text. text ≡ tolerance_text problem.now most found.now) }
{
    match found {
        Tolerance::At { k, answer, yes, .. } => {
            let nodes = yes.nodes.as_slice().len();
            tolerance_report(alloc, problem, *k, answer, nodes)
        }
        Tolerance::NoneUpTo { .. } => none_up_to_text(alloc, most),
    }
}

// What is printed, once the trees are stored, if there is a name for them.
fn stored<'a, S: Shelf>(
    alloc: Global,
    problem: &Problem<'_>,
    most: u32,
    found: &Tolerance,
    file: Option<&'a str>,
    shelf: &mut S,
) -> Result<Printed, Refusal<'a>>
    requires { IsTold problem.now most found.now }
    ensures told { (S.seen shelf.new).told ≡ (S.seen shelf.old).told }
    ensures others { StandBut (IsOfTwo (option_map (λ s. s.now) file.entry)) (S.seen shelf.old) (S.seen shelf.new) }
    ensures left { IfErr result (λ refusal. IsLeft refusal (S.seen shelf.old) (S.seen shelf.new)) }
    ensures calm { IfOk result (λ _. IsCalm (S.seen shelf.old) (S.seen shelf.new)) }
    ensures status { IfOk result (λ printed. printed.status ≡ tolerance_status found.now) }
    ensures text { IfOk result (λ printed. printed.text ≡ tolerance_text problem.now most found.now) }
    ensures stored { IfOk result (λ _. AreTreesStored (option_map (λ s. s.now) file.entry) (S.seen shelf.old) (S.seen shelf.new) (first_tree found.now) (second_tree found.now)) }
    ensures refused { IfErr result (FromKeepingTrees (S.seen shelf.old) (S.seen shelf.new) (option_map (λ s. s.now) file.entry) (first_tree found.now) (second_tree found.now)) }
{
    let text = text_for(alloc, problem, most, found)?;
    if let Some(name) = file {
        store_trees_of(alloc, found, name, shelf)?;
    }
    Ok(Printed {
        status: tolerance_status(found),
        text,
    })
}

// Stores the trees that tell it.
fn store_trees_of<'a, S: Shelf>(
    alloc: Global,
    found: &Tolerance,
    name: &'a str,
    shelf: &mut S,
) -> Result<(), Refusal<'a>>
    requires first { IsTreeWritable (first_tree found.now) }
    requires second { IfSome (second_tree found.now) IsTreeWritable }
    ensures told { (S.seen shelf.new).told ≡ (S.seen shelf.old).told }
    ensures others { StandBut (IsOfTwo (Some name.now)) (S.seen shelf.old) (S.seen shelf.new) }
    ensures left { IfErr result (λ refusal. IsLeft refusal (S.seen shelf.old) (S.seen shelf.new)) }
    ensures calm { OnOk result (IsCalm (S.seen shelf.old) (S.seen shelf.new)) }
    ensures stored { OnOk result (AreTreesStored (Some name.now) (S.seen shelf.old) (S.seen shelf.new) (first_tree found.now) (second_tree found.now)) }
    ensures refused { IfErr result (FromKeepingTrees (S.seen shelf.old) (S.seen shelf.new) (Some name.now) (first_tree found.now) (second_tree found.now)) }
{
    match found {
        Tolerance::At { yes, below, .. } => { store_trees(alloc, yes, below.as_ref(), name, shelf) }
        Tolerance::NoneUpTo { no } => store_trees(alloc, no, None, name, shelf),
    }
}

// The exit status.
fn tolerance_status(found: &Tolerance) -> u8
    ensures { result ≡ tolerance_status found.now }
{
    match found {
        Tolerance::At { .. } => 0,
        Tolerance::NoneUpTo { .. } => 1,
    }
}
