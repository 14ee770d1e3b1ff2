//! One walk judges a run and its end under a set of failed links and in the moving world: they differ in what is failed at the
//! start and in what stands against a step. A trace is made by a second walk, only where nothing stands against any step or the
//! end; it has a copy of the header at each link, so it costs the heights of all of them.
ghost use Rattle.std.specs.Prelude.{◌≡◌, ℕ, ◌++◌, ◌∷◌, [], true, None, Some, Err, IfOk, IfErr, OnOk};
ghost use Rattle.wi_world.specs.Moves.{is_trace, AreBounds};
ghost use Rattle.wi_world.specs.Moving.{IsMovingRun};
ghost use Rattle.wi_world.specs.Runs.{locations, trace_of};
ghost use Rattle.wi_trace.specs.declared.cause.Cause.{Cause};
ghost use Rattle.wi_trace.specs.Replays.{first_fault, moving_fault, run_fault, IsNoTrace, IsNoMovingRun};
ghost use Rattle.wi_trace.specs.private.Hops.{cause_in, end_cause_in};

use crate::cause::{Cause, ReplayRefused};
use crate::hop::{Location, World, end_fault, follow, hop, twin_of};
use crate::start::is_start;
use std::alloc::Global;
use wi_base::{Listed, NoMemory};
use wi_labels::Header;
use wi_net::{Bounds, FailSet, LinkId, Network};
use wi_world::{End, Run, Step};

/// The links of a run, each with the header that the packet has on it.
pub type Trace = Listed<(LinkId, Header)>;

/// The trace of a run under one set of failed links: its start may be, each step takes a member of the first group that has a
/// link outside the set, over such a link, with operations that are defined, and its end may be.
pub fn replay(
    alloc: Global,
    net: &Network,
    fails: &FailSet,
    run: &Run,
) -> Result<Trace, ReplayRefused>
    ensures trace { IfOk result (λ trace. (is_trace net.now fails.now run.now ≡ true) × (trace ≡ trace_of net.now run.now)) }
    ensures refused { IfErr result (λ fault. IsNoTrace net.now fails.now run.now fault) }
{
    let fault = fault_in(alloc, net, &World::Fixed(fails), fails, run)?;
    replayed(alloc, net, run, fault)
}

/// The trace of a run of the moving world: each step can be made, and the end be, at some moment of a course of failures, repairs
/// and hops that keeps within the bounds.
pub fn replay_moving(
    alloc: Global,
    net: &Network,
    bounds: &Bounds,
    run: &Run,
) -> Result<Trace, ReplayRefused>
    requires { AreBounds net.now bounds.now }
    ensures trace { IfOk result (λ trace. IsMovingRun net.now bounds.now run.now × (trace ≡ trace_of net.now run.now)) }
    ensures refused { IfErr result (λ fault. IsNoMovingRun net.now bounds.now run.now fault) }
{
    net.keeps();
    let fault = moving_fault(alloc, net, bounds, run)?;
    replayed(alloc, net, run, fault)
}

/// The first of a run's steps that can be made at no moment of a course that keeps within the bounds, or its end if that can't be,
/// and the first cause. Steps count from 1, the start is step 0, and the end is the step after the last.
pub fn moving_fault(
    alloc: Global,
    net: &Network,
    bounds: &Bounds,
    run: &Run,
) -> Result<Option<(usize, Cause)>, NoMemory>
    ensures { IfOk result (λ fault. fault ≡ moving_fault net.now bounds.now run.now) }
{
    fault_in(alloc, net, &World::Moving(bounds), &bounds.down, run)
}

// The first fault of a run in a world where these links are failed at the start.
fn fault_in(
    alloc: Global,
    net: &Network,
    world: &World,
    fails: &FailSet,
    run: &Run,
) -> Result<Option<(usize, Cause)>, NoMemory>
    ensures { IfOk result (λ fault. fault ≡ run_fault net.now fails.now (cause_in world.now net.now) (end_cause_in world.now net.now run.now.end) run.now) }
{
    if !is_start(net, fails, run) {
        return Ok(Some((0, Cause::BadStart)));
    }
    let header = twin_of(&run.header)?;
    fault_after(
        alloc,
        net,
        world,
        (run.first, header),
        run.steps.as_slice(),
        run.end,
    )
}

// The first fault of steps from a place on, and of the end behind them.
#[tactic(auto, using(crate::proofs::WalkLemmas::walk_laws))]
fn fault_after(
    alloc: Global,
    net: &Network,
    world: &World,
    mut at: Location,
    steps: &[Step],
    end: End,
) -> Result<Option<(usize, Cause)>, NoMemory>
    ensures { IfOk result (λ fault. fault ≡ first_fault net.now (cause_in world.now net.now) (end_cause_in world.now net.now end) 1 at steps.now) }
{
    for (i, step) in steps.iter().enumerate() {
        if let Some(cause) = hop(alloc, net, world, &mut at, *step)? {
            return Ok(Some((i + 1, cause)));
        }
    }
    match end_fault(alloc, net, world, &at, end)? {
        Some(cause) => Ok(Some((steps.len() + 1, cause))),
        None => Ok(None),
    }
}

// What is answered for a run with this first fault, if it has one.
fn replayed(
    alloc: Global,
    net: &Network,
    run: &Run,
    fault: Option<(usize, Cause)>,
) -> Result<Trace, ReplayRefused>
    ensures none { OnOk result (fault ≡ None) }
    ensures trace { IfOk result (λ trace. trace ≡ trace_of net.now run.now) }
    ensures fault { (n : ℕ) (cause : Cause) → result ≡ Err (ReplayRefused.Fault n cause) → fault ≡ Some (n, cause) }
{
    match fault {
        Some((step, cause)) => Err(ReplayRefused::Fault { step, cause }),
        None => Ok(trace_of(alloc, net, run)?),
    }
}

// The links of a run as far as its steps lead, whatever is failed.
fn trace_of(alloc: Global, net: &Network, run: &Run) -> Result<Trace, NoMemory>
    ensures { IfOk result (λ trace. trace ≡ trace_of net.now run.now) }
{
    let header = twin_of(&run.header)?;
    let trace = locations(alloc, net, (run.first, header), run.steps.as_slice())?;
    Ok(Listed::of(trace))
}

// The places of a packet, from one on.
#[tactic(auto, using(crate::proofs::WalkLemmas::walk_laws))]
fn locations(
    alloc: Global,
    net: &Network,
    mut at: Location,
    steps: &[Step],
) -> Result<Vec<Location>, NoMemory>
    ensures { IfOk result (λ trace. trace.items ≡ locations net.now at steps.now) }
{
    let mut trace = Vec::new(alloc);
    for step in steps {
        note(&mut trace, &at)?;
        if !follow(net, &mut at, *step)? {
            return Ok(trace);
        }
    }
    note(&mut trace, &at)?;
    Ok(trace)
}

// Notes a place.
fn note(trace: &mut Vec<Location>, at: &Location) -> Result<(), NoMemory>
    ensures { OnOk result (trace.new.items ≡ trace.old.items ++ at.now ∷ []) }
{
    let header = twin_of(&at.1)?;
    match trace.push((at.0, header)) {
        Ok(()) => Ok(()),
        Err(_failed) => Err(NoMemory::Memory),
    }
}
