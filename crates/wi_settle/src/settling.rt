//! A yes settles each outage off its way. A no is asked again where one risk group more may fail: a no there settles each outage of
//! a single one. Where none may fail, a yes there tells a risk group that breaks something by itself; it is kept up, and the others are
//! asked for.
ghost use Rattle.std.specs.Prelude.{◌≡◌, ◌<◌, ◌+◌, IfOk, OnOk};
ghost use Rattle.wi_branch.specs.Tolerance.{HasTrace};
ghost use Rattle.wi_build.specs.Problems.{allowing};
ghost use Rattle.wi_settle.specs.Findings.{IsSettled};
ghost use Rattle.wi_settle.specs.private.Asking.{AreKept, IsReply, kept_by};

use crate::asking::ask;
use crate::found::Found;
use crate::free::free_groups;
use crate::sets::insert_outside;
use crate::settled::{Reply, Settled};
use std::alloc::Global;
use wi_base::NoMemory;
use wi_build::Problem;
use wi_net::{Bounds, FailSet};

/// What is known of a problem for all its outages, by few searches: one; after a no, where all outages are single risk groups, one
/// with one more that may fail; and where none may fail, one for each risk group by which there is a matching trace. A search that
/// comes to no exact answer settles nothing.
pub fn settle(alloc: Global, problem: &Problem<'_>, single: bool) -> Result<Settled, NoMemory>
    ensures { IfOk result (IsSettled problem.now) }
{
    let mut settled = begun(alloc, problem)?;
    match settle_further(alloc, problem, single, &mut settled) {
        Ok(()) => Ok(settled),
        Err(error) => {
            drop(settled);
            Err(error)
        }
    }
}

// What is known once it was asked while nothing is out.
fn begun(alloc: Global, problem: &Problem<'_>) -> Result<Settled, NoMemory>
    ensures { IfOk result (IsSettled problem.now) }
{
    let reply = ask(alloc, problem)?;
    Settled::of(alloc, reply)
}

// After a no, outages of single risk groups are settled, too.
fn settle_further(
    alloc: Global,
    problem: &Problem<'_>,
    single: bool,
    settled: &mut Settled,
) -> Result<(), NoMemory>
    requires { IsSettled problem.now settled.old }
    ensures { OnOk result (IsSettled problem.now settled.new) }
{
    if !single {
        return Ok(());
    }
    match settled.own() {
        Found::No => settle_groups(alloc, problem, settled),
        Found::Yes | Found::Open => Ok(()),
    }
}

// What is known of outages of single risk groups, where there is no matching trace while nothing is out.
fn settle_groups(
    alloc: Global,
    problem: &Problem<'_>,
    settled: &mut Settled,
) -> Result<(), NoMemory>
    requires settled { IsSettled problem.now settled.old }
    requires no { HasTrace problem.now → ⊥ }
    ensures { OnOk result (IsSettled problem.now settled.new) }
{
    problem.keeps();
    let k = problem.bounds().k;
    let free = free_groups(problem.net(), problem.bounds());
    if free <= k {
        settled.keep(FailSet::new(alloc));
        return Ok(());
    }
    if k > 0 {
        return settle_at_one_more(alloc, problem, k + 1, settled);
    }
    settle_one_by_one(alloc, problem, free, settled)
}

// The same, where one risk group more may fail.
fn settle_at_one_more(
    alloc: Global,
    problem: &Problem<'_>,
    more: u32,
    settled: &mut Settled,
) -> Result<(), NoMemory>
    requires settled { IsSettled problem.now settled.old }
    requires more { more ≡ problem.now.bounds.k + 1 }
    ensures { OnOk result (IsSettled problem.now settled.new) }
{
    problem.keeps();
    let reply = ask_allowing(alloc, problem, more)?;
    settled.keep_where_none(&reply, &FailSet::new(alloc))?;
    settled.note(reply)?;
    Ok(())
}

// Asks where so many risk groups may fail.
fn ask_allowing(alloc: Global, problem: &Problem<'_>, k: u32) -> Result<Reply, NoMemory>
    ensures { IfOk result (IsReply (allowing problem.now k)) }
{
    let bounds = problem.bounds_allowing(k)?;
    let reply = ask(alloc, &problem.within(&bounds));
    drop(bounds);
    reply
}

// The same, where no risk group may fail: each that is found to break something is kept up, at most so many.
fn settle_one_by_one(
    alloc: Global,
    problem: &Problem<'_>,
    most: u32,
    settled: &mut Settled,
) -> Result<(), NoMemory>
    requires settled { IsSettled problem.now settled.old }
    requires none { problem.now.bounds.k ≡ 0 }
    ensures { OnOk result (IsSettled problem.now settled.new) }
{
    let mut bounds = problem.bounds_allowing(1)?;
    let done = keep_up(alloc, problem, most, &mut bounds, settled);
    drop(bounds);
    done
}

// Asks until there is no run, or no exact answer. Each run that is found keeps one risk group more up, of those that may fail: after as
// many runs as there are of these, each of them has one.
fn keep_up(
    alloc: Global,
    problem: &Problem<'_>,
    most: u32,
    bounds: &mut Bounds,
    settled: &mut Settled,
) -> Result<(), NoMemory>
    requires settled { IsSettled problem.now settled.old }
    requires none { problem.now.bounds.k ≡ 0 }
    requires kept { AreKept problem.now bounds.old }
    ensures { OnOk result (IsSettled problem.now settled.new) }
{
    for _i in 0..most {
        if !keep_up_one(alloc, problem, bounds, settled)? {
            return Ok(());
        }
    }
    Ok(())
}

// Asks once. It answers whether a run was found: then what has failed is kept up.
fn keep_up_one(
    alloc: Global,
    problem: &Problem<'_>,
    bounds: &mut Bounds,
    settled: &mut Settled,
) -> Result<bool, NoMemory>
    requires settled { IsSettled problem.now settled.old }
    requires none { problem.now.bounds.k ≡ 0 }
    requires kept { AreKept problem.now bounds.old }
    ensures settled { OnOk result (IsSettled problem.now settled.new) }
    ensures kept { OnOk result (AreKept problem.now bounds.new) }
{
    problem.keeps();
    let reply = ask(alloc, &problem.within(bounds))?;
    settled.keep_where_none(&reply, &bounds.up)?;
    let goes_on = keep_failed(&reply, bounds)?;
    settled.note(reply)?;
    Ok(goes_on)
}

// Keeps up what has failed besides what is known to be down, where a run was found.
fn keep_failed(reply: &Reply, bounds: &mut Bounds) -> Result<bool, NoMemory>
    ensures { OnOk result (bounds.new ≡ kept_by bounds.old reply.now) }
{
    match reply {
        Reply::Yes(witness) => {
            insert_outside(&mut bounds.up, &witness.fails, &bounds.down)?;
            Ok(true)
        }
        Reply::No | Reply::Open => Ok(false),
    }
}
