//! Each row stands for its rule, then what its left row stands for, then what its right row does. The places that are still to
//! be unfolded lie on a stack of our own, since a run can be longer than the program's stack is deep. A row is unfolded anew
//! for each row that it is a part of.
ghost use Rattle.std.specs.Prelude.{◌≡◌, ℕ, ◌<◌, ◌≤◌, ◌++◌, List, Some, IfOk, IfErr, IfSome, IsSome, OnOk, slice_get, length};
ghost use Rattle.std.specs.Option.{option_to_list};
ghost use Rattle.wi_weight.specs.Kinds.{pair_scale, effort_scale};
ghost use Rattle.wi_weight.specs.declared.kinds.Pair.{Pair};
ghost use Rattle.wi_weight.specs.declared.kinds.Effort.{Effort};
ghost use Rattle.wi_pds.specs.declared.rule.Rule.{Rule};
ghost use Rattle.wi_saturate.specs.declared.row.Row.{Row};
ghost use Rattle.wi_saturate.specs.Rows.{EachAfter, IsMade};
ghost use Rattle.wi_witness.specs.GoalRuns.{IsNamedRun};
ghost use Rattle.wi_witness.specs.Derivations.{IsDerivation, with_effort};
ghost use Rattle.wi_witness.specs.Refusals.{IsRefusal};

use crate::refused::UnfoldRefused;
use std::alloc::Global;
use wi_base::NoMemory;
use wi_pds::RuleId;
use wi_saturate::{Row, Table};
use wi_weight::{Domain, Effort, Pair};

// Puts the places on the stack, so that the left one comes first.
fn put_off(todo: &mut Vec<usize>, left: Option<usize>, right: Option<usize>) -> Result<(), NoMemory>
    ensures { OnOk result (todo.new.items ≡ todo.old.items ++ (option_to_list right ++ option_to_list left)) }
{
    if let Some(j) = right {
        todo.push(j)?;
    }
    if let Some(i) = left {
        todo.push(i)?;
    }
    Ok(())
}

// The rules of the run that the row at a place stands for. The places of the rows that are still to be unfolded are kept on
// a stack of our own: a run can be longer than the program's stack is deep.
fn run_of_row<W: Domain>(
    alloc: Global,
    rows: &[Row<W>],
    place: usize,
) -> Result<Vec<RuleId>, NoMemory>
    requires made { (rules : ℕ → ℕ → List (Rule W)) × EachAfter (IsMade W.scale W.components rules) rows.now }
    requires within { place < length rows.now }
    ensures { IfOk result (λ ids. (row : Row W) (rules : ℕ → ℕ → List (Rule W)) → slice_get rows.now place ≡ Some row →
        EachAfter (IsMade W.scale W.components rules) rows.now →
        IsNamedRun W.scale W.components rules row.p row.g row.q ids.items (W.components row.weight)) }
{
    let mut ids: Vec<RuleId> = Vec::new(alloc);
    let mut todo: Vec<usize> = Vec::new(alloc);
    todo.push(place)?;
    'rules: while let Some(i) = todo.pop() {
        let row = rows[i];
        ids.push(row.id)?;
        put_off(&mut todo, row.left, row.right)?;
    }
    Ok(ids)
}

/// The rules of a run to the table's goal, in the order of the run, which weighs the goal's weight. Where each rule's
/// effort is 1, the run has as many rules as the goal's effort, and so no more than the limit.
pub fn unfold<A: Domain>(
    alloc: Global,
    table: &Table<Pair<A, Effort>>,
    limit: u64,
) -> Result<Vec<RuleId>, UnfoldRefused>
    // The table is one of some system, and has a goal.
    requires derived { (rules : ℕ → ℕ → List (Rule (Pair A Effort))) × (goal : ℕ × ℕ × ℕ) ×
        IsDerivation (pair_scale A.scale effort_scale) (with_effort A.components) rules goal table.now.rows table.now.best }
    requires reached { IsSome table.now.best }

    // The run is one of every system that the table is of.
    ensures run { IfOk result (λ ids. (rules : ℕ → ℕ → List (Rule (Pair A Effort))) (goal : ℕ × ℕ × ℕ) →
        IsDerivation (pair_scale A.scale effort_scale) (with_effort A.components) rules goal table.now.rows table.now.best →
        IfSome table.now.best (λ w. IsNamedRun (pair_scale A.scale effort_scale) (with_effort A.components) rules goal.0 goal.1 goal.2 ids.items (with_effort A.components w))) }
    ensures short { IfOk result (λ _. IfSome table.now.best (λ w. w.second.count ≤ limit)) }
    ensures refusal { IfErr result (λ refused. IfSome table.now.best (λ w. IsRefusal w.second.count limit refused)) }
{
    let rows = table.rows();
    let last = rows.len() - 1;
    let effort = rows[last].weight.second.count;
    if effort > limit as u128 {
        return Err(UnfoldRefused::TooLong { effort });
    }
    Ok(run_of_row(alloc, rows, last)?)
}
