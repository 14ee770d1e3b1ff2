//! Runs by example.
ghost use Rattle.std.specs.Prelude.{◌≡◌, ℕ, List, IfOk, IfSome};
ghost use Rattle.wi_weight.specs.Kinds.{pair_scale, effort_scale};
ghost use Rattle.wi_pds.specs.Rules.{rules_at};
ghost use Rattle.wi_pds.specs.Runs.{Least};
ghost use Rattle.wi_pds.specs.Closed.{AreClosed};
ghost use Rattle.wi_saturate.specs.LeastTables.{AreReady};
ghost use Rattle.wi_witness.specs.GoalRuns.{IsNamedRun};
ghost use Rattle.wi_witness.specs.Derivations.{with_effort};

use crate::systems::two_ways;
use crate::tables::table_of;
use std::alloc::Global;
use std::test::Fail;
use wi_base::NoMemory;
use wi_pds::{Heads, RuleId, RuleList};
use wi_weight::{Domain, Effort, Pair};
use wi_witness::{UnfoldRefused, unfold};

// A least run of the list to the goal (0, 0, 1), where there is one.
fn least_run<A: Domain>(
    alloc: Global,
    list: &RuleList<Pair<A, Effort>>,
    heads: &Heads,
    limit: u64,
) -> Option<Result<Vec<RuleId>, UnfoldRefused>>
    requires closed { AreClosed (rules_at list.now.rules) list.now.start heads.now.heads heads.now.pairs }
    requires ready { AreReady (with_effort A.components) (rules_at list.now.rules) heads.now.heads }
    requires start { list.now.start ≡ (0, 0) }
    ensures { IfSome result (λ unfolded. IfOk unfolded (λ ids. (w : List ℕ) ×
        Least (pair_scale A.scale effort_scale) (with_effort A.components) (rules_at list.now.rules) 0 0 1 w ×
        IsNamedRun (pair_scale A.scale effort_scale) (with_effort A.components) (rules_at list.now.rules) 0 0 1 ids.items w)) }
{
    let Ok(table) = table_of(alloc, list, heads, (0, 0, 1), None) else {
        return None;
    };
    let Some(_weight) = table.best() else {
        drop(table);
        return None;
    };
    let run = unfold(alloc, &table, limit);
    drop(table);
    Some(run)
}

fn pair(count: u128) -> Pair<Effort, Effort>
    ensures { result ≡ record { first = record { count = count }; second = record { count = 1 } } }
{
    Pair {
        first: Effort { count },
        second: Effort { count: 1 },
    }
}

// The run of the system of two ways, up to the limit.
fn unfolded(
    alloc: Global,
    limit: u64,
) -> Result<Option<Result<Vec<RuleId>, UnfoldRefused>>, NoMemory> {
    let (list, heads) = two_ways(alloc, pair(1), pair(2), pair(5))?;
    let run = least_run(alloc, &list, &heads, limit);
    drop(list);
    drop(heads);
    Ok(run)
}

#[test]
fn a_run_is_shown_up_to_the_limit(rt: HostRuntime) -> Result<(), Fail> {
    let Some(Ok(ids)) = unfolded(rt.alloc(), 3)? else {
        assert!(rt; false);
        return Ok(());
    };
    let wanted = [
        RuleId { p: 0, g: 0, at: 0 },
        RuleId { p: 2, g: 1, at: 1 },
        RuleId { p: 3, g: 0, at: 0 },
    ];
    assert_eq!(rt; ids.as_slice(), wanted.as_slice());
    Ok(())
}

#[test]
fn a_longer_run_is_refused(rt: HostRuntime) -> Result<(), Fail> {
    let Some(Err(refused)) = unfolded(rt.alloc(), 2)? else {
        assert!(rt; false);
        return Ok(());
    };
    assert_eq!(rt; refused, UnfoldRefused::TooLong { effort: 3 });
    Ok(())
}
