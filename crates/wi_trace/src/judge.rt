//! What a run needs and whether it fits is told by the tables along the run, so that whoever doubts an answer needs no search.
//! It walks along the run twice at most, with the set of links before its group for each step and the end of the first walk.
ghost use Rattle.std.specs.Prelude.{◌≡◌, if◌then◌else◌, Some, None, IfOk};
ghost use Rattle.std.specs.List.{find};
ghost use Rattle.wi_net.specs.LinkSet.{has};
ghost use Rattle.wi_world.specs.Moves.{AreBounds, needed_to_end};
ghost use Rattle.wi_world.specs.Runs.{needs, verdict_of, used_to_end};
ghost use Rattle.wi_trace.specs.private.Hops.{gathered, used_in};

use crate::hop::{Location, follow, groups_of, member_at, twin_of};
use crate::sets::{count_outside, insert_all};
use std::alloc::Global;
use wi_base::NoMemory;
use wi_net::{Bounds, FailSet, LinkId, Network};
use wi_world::{End, Run, Step, Verdict};

/// What must have failed by the end of a run, together with what is known to be down. A run whose steps don't all lead on
/// counts as far as they do.
#[tactic(auto, using(crate::proofs::NeedsLemmas::needs_gathered))]
pub fn needs(alloc: Global, net: &Network, run: &Run, bounds: &Bounds) -> Result<FailSet, NoMemory>
    requires { AreBounds net.now bounds.now }
    ensures { IfOk result (λ s. s ≡ needs net.now bounds.now run.now) }
{
    let header = twin_of(&run.header)?;
    let down = bounds.down.twin()?;
    gather(
        alloc,
        net,
        (run.first, header),
        down,
        run.steps.as_slice(),
        run.end,
    )
}

// Adds what each step and the end need.
#[tactic(auto, using(crate::proofs::WalkLemmas::gather_laws))]
fn gather(
    alloc: Global,
    net: &Network,
    mut at: Location,
    mut all: FailSet,
    steps: &[Step],
    end: End,
) -> Result<FailSet, NoMemory>
    ensures { IfOk result (λ s. s ≡ gathered net.now all end at steps.now) }
{
    for step in steps {
        let before = net.links_before(alloc, groups_of(net, &at), step.group as usize)?;
        insert_all(&mut all, &before)?;
        if !follow(net, &mut at, *step)? {
            return Ok(all);
        }
    }
    let before = end_needs(alloc, net, &at, end)?;
    insert_all(&mut all, &before)?;
    Ok(all)
}

/// What must have failed for a packet to end so.
pub fn end_needs(alloc: Global, net: &Network, at: &Location, end: End) -> Result<FailSet, NoMemory>
    ensures { IfOk result (λ s. s ≡ needed_to_end net.now at.now end) }
{
    let groups = groups_of(net, at);
    match end {
        End::Arrives => Ok(FailSet::new(alloc)),
        End::Inactive => net.links_before(alloc, groups, groups.len()),
        End::Undefined(step) => net.links_before(alloc, groups, step.group as usize),
    }
}

/// Whether what a run needs may fail, and spares the links that the run uses.
pub fn verdict(
    alloc: Global,
    net: &Network,
    run: &Run,
    bounds: &Bounds,
) -> Result<Verdict, NoMemory>
    requires { AreBounds net.now bounds.now }
    ensures { IfOk result (λ v. v ≡ verdict_of net.now bounds.now run.now) }
{
    let needs = needs(alloc, net, run, bounds)?;
    let count = count_outside(net, &needs, &bounds.down);
    if count > bounds.k as usize {
        return Ok(Verdict::Exceeds(count));
    }
    let header = twin_of(&run.header)?;
    match first_used(
        net,
        (run.first, header),
        &needs,
        run.steps.as_slice(),
        run.end,
    )? {
        Some(link) => Ok(Verdict::UsesFailed(link)),
        None => Ok(Verdict::Fits(needs)),
    }
}

// The first link that a packet uses that is in a set.
#[tactic(auto, using(crate::proofs::WalkLemmas::used_laws))]
fn first_used(
    net: &Network,
    mut at: Location,
    set: &FailSet,
    steps: &[Step],
    end: End,
) -> Result<Option<LinkId>, NoMemory>
    ensures { IfOk result (λ e. e ≡ used_in net.now set.now end at steps.now) }
{
    for step in steps {
        if set.contains(at.0) {
            return Ok(Some(at.0));
        }
        if !follow(net, &mut at, *step)? {
            return Ok(None);
        }
    }
    if set.contains(at.0) {
        return Ok(Some(at.0));
    }
    Ok(end_used(net, &at, set, end))
}

// The link of an end's member, if it is in a set.
fn end_used(net: &Network, at: &Location, set: &FailSet, end: End) -> Option<LinkId>
    ensures { result ≡ find (λ e. has set.now e) (used_to_end net.now at.now end) }
{
    let End::Undefined(step) = end else {
        return None;
    };
    match member_at(net, at, step) {
        Some(member) => if_in(set, member.link),
        None => None,
    }
}

// A link, if it is in a set.
fn if_in(set: &FailSet, link: LinkId) -> Option<LinkId>
    ensures { result ≡ (if has set.now link then Some link else None) }
{
    if set.contains(link) { Some(link) } else { None }
}
