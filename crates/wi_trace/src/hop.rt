//! Single steps, and ends, are judged here for both worlds, which differ in what stands against a link. The packet moves in place:
//! a step costs its operations and not the height of the header, and leaves the packet where it was if it isn't allowed. In the
//! moving world it takes the set of links before its group besides. An end at a member takes a copy of the header, on which the
//! operations are tried.
ghost use Rattle.std.specs.Prelude.{◌≡◌, ℕ, true, false, Ok, Err, IfOk, IfErr, OnErr, option_map};
ghost use Rattle.wi_net.specs.Net.{first_active};
ghost use Rattle.wi_world.specs.Moves.{groups_at, member_at, moved};
ghost use Rattle.wi_world.specs.declared.run.End.{End};
ghost use Rattle.wi_trace.specs.declared.cause.Cause.{Cause};
ghost use Rattle.wi_trace.specs.Replays.{hop_cause, moving_cause, needs_cause, defined_cause};
ghost use Rattle.wi_trace.specs.private.Hops.{named, is_first, fixed_against, moving_against, against, taken_in, cause_in, inactive_in, end_cause_in, Goes};

use crate::cause::Cause;
use crate::sets::{count_outside, first_in};
use std::alloc::Global;
use wi_base::NoMemory;
use wi_labels::{Applied, Header};
use wi_net::{Bounds, FailSet, Group, LinkId, Member, Network, first_active};
use wi_world::{End, Step};

/// A link, and the header that a packet has on it.
pub type Location = (LinkId, Header);

/// Which steps may be taken.
#[derive(Clone, Copy)]
pub(crate) enum World<'a> {
    /// Those that may be taken while just these links are failed.
    Fixed(&'a FailSet),
    /// Those that may be taken at some moment, within these bounds.
    Moving(&'a Bounds),
}

/// An equal header.
pub fn twin_of(header: &Header) -> Result<Header, NoMemory>
    ensures { IfOk result (λ twin. twin ≡ header.now) }
{
    match header.twin() {
        Ok(header) => Ok(header),
        Err(_) => Err(NoMemory::Memory),
    }
}

/// The groups that the tables have for a place.
pub fn groups_of<'a>(net: &'a Network, at: &Location) -> &'a [Group]
    ensures { result.now ≡ groups_at net.now at.now.0 at.now.1 }
{
    match at.1.at(0) {
        Some((top, _)) => net.entry(at.0, top),
        None => &[],
    }
}

/// The member that a step names there, if there is one.
pub fn member_at<'a>(net: &'a Network, at: &Location, step: Step) -> Option<&'a Member>
    ensures { option_map (λ member. member.now) result ≡ member_at net.now at.now step }
{
    groups_of(net, at)
        .get(step.group as usize)?
        .as_slice()
        .get(step.member as usize)
}

// The member that a step names, or why there is none.
pub(crate) fn named(groups: &[Group], step: Step) -> Result<&Member, Cause>
    ensures ok { IfOk result (λ member. named groups.now step ≡ Ok member.now) }
    ensures err { IfErr result (λ cause. named groups.now step ≡ Err cause) }
{
    match groups.get(step.group as usize) {
        Some(group) => match group.as_slice().get(step.member as usize) {
            Some(member) => Ok(member),
            None => Err(Cause::NoMember),
        },
        None => Err(Cause::NoGroup),
    }
}

// Whether a group is the first that has a link outside a set.
fn is_first(fails: &FailSet, groups: &[Group], group: usize) -> bool
    ensures { result ≡ is_first fails.now groups.now group }
{
    match first_active(groups, fails) {
        Some(first) => first == group,
        None => false,
    }
}

// What stands against a link of a group under one set of failed links.
fn fixed_against(fails: &FailSet, groups: &[Group], group: usize, link: LinkId) -> Option<Cause>
    ensures { result ≡ fixed_against fails.now groups.now group link }
{
    if !is_first(fails, groups, group) {
        return Some(Cause::NotFirstActive);
    }
    if fails.contains(link) {
        return Some(Cause::LinkFailed);
    }
    None
}

// Why links that must have failed can't all be down at a moment, if they can't.
fn needs_against(net: &Network, bounds: &Bounds, needs: &FailSet) -> Option<Cause>
    ensures { result ≡ needs_cause net.now bounds.now needs.now }
{
    let count = count_outside(net, needs, &bounds.down);
    if count > bounds.k as usize {
        return Some(Cause::TooManyBefore(count));
    }
    match first_in(needs, &bounds.up) {
        Some(up) => Some(Cause::NeedsUp(up)),
        None => None,
    }
}

// What stands against a link in the moving world, where others must have failed.
fn moving_against(net: &Network, bounds: &Bounds, needs: &FailSet, link: LinkId) -> Option<Cause>
    ensures { result ≡ moving_against net.now bounds.now needs.now link }
{
    if let Some(cause) = needs_against(net, bounds, needs) {
        return Some(cause);
    }
    if needs.contains(link) || bounds.down.contains(link) {
        return Some(Cause::LinkBefore);
    }
    None
}

// What stands against a link of a group.
fn against(
    alloc: Global,
    net: &Network,
    world: &World,
    groups: &[Group],
    group: usize,
    link: LinkId,
) -> Result<Option<Cause>, NoMemory>
    ensures { IfOk result (λ cause. cause ≡ against world.now net.now groups.now group link) }
{
    match world {
        World::Fixed(fails) => Ok(fixed_against(fails, groups, group, link)),
        World::Moving(bounds) => {
            let needs = net.links_before(alloc, groups, group)?;
            Ok(moving_against(net, bounds, &needs, link))
        }
    }
}

// The member that a step names, if it is taken, its operations apart; or the first cause why it isn't.
#[tactic(auto, using(crate::proofs::HopLemmas::taken_laws))]
fn taken<'a>(
    alloc: Global,
    net: &'a Network,
    world: &World,
    at: &Location,
    step: Step,
) -> Result<Result<&'a Member, Cause>, NoMemory>
    ensures ok { IfOk result (λ taken. IfOk taken (λ member. taken_in world.now net.now at.now step ≡ Ok member.now)) }
    ensures err { IfOk result (λ taken. IfErr taken (λ cause. taken_in world.now net.now at.now step ≡ Err cause)) }
{
    let groups = groups_of(net, at);
    let member = match named(groups, step) {
        Ok(member) => member,
        Err(cause) => return Ok(Err(cause)),
    };
    match against(alloc, net, world, groups, step.group as usize, member.link)? {
        Some(cause) => Ok(Err(cause)),
        None => Ok(Ok(member)),
    }
}

/// Takes a step, if it may be taken. If it may not, the answer is its first cause, and the packet is where it was; so it is where
/// memory runs out.
#[tactic(auto, using(crate::proofs::HopLemmas::hop_laws))]
pub(crate) fn hop(
    alloc: Global,
    net: &Network,
    world: &World,
    at: &mut Location,
    step: Step,
) -> Result<Option<Cause>, NoMemory>
    ensures cause { IfOk result (λ cause. cause ≡ cause_in world.now net.now at.old step) }
    ensures on { result ≡ Ok None → moved net.now at.old step ≡ Some at.new }
    ensures kept { (cause : Cause) → result ≡ Ok (Some cause) → at.new ≡ at.old }
    ensures err { OnErr result (at.new ≡ at.old) }
{
    let member = match taken(alloc, net, world, at, step)? {
        Ok(member) => member,
        Err(cause) => return Ok(Some(cause)),
    };
    match apply(member, at)? {
        Applied::Done => Ok(None),
        Applied::Undefined(i) => Ok(Some(Cause::Undefined(i))),
    }
}

/// Takes a step, if it is a hop while just these links are failed. If it isn't, the answer is its first cause, and the packet
/// is where it was; so it is where memory runs out.
pub fn hop_under(
    alloc: Global,
    net: &Network,
    fails: &FailSet,
    at: &mut Location,
    step: Step,
) -> Result<Option<Cause>, NoMemory>
    ensures cause { IfOk result (λ cause. cause ≡ hop_cause net.now fails.now at.old step) }
    ensures on { result ≡ Ok None → moved net.now at.old step ≡ Some at.new }
    ensures kept { (cause : Cause) → result ≡ Ok (Some cause) → at.new ≡ at.old }
    ensures err { OnErr result (at.new ≡ at.old) }
{
    hop(alloc, net, &World::Fixed(fails), at, step)
}

/// Takes a step, if it can be made at some moment of a course of failures, repairs and hops that keeps within the bounds. If it
/// can't, the answer is its first cause, and the packet is where it was; so it is where memory runs out.
pub fn hop_within(
    alloc: Global,
    net: &Network,
    bounds: &Bounds,
    at: &mut Location,
    step: Step,
) -> Result<Option<Cause>, NoMemory>
    ensures cause { IfOk result (λ cause. cause ≡ moving_cause net.now bounds.now at.old step) }
    ensures on { result ≡ Ok None → moved net.now at.old step ≡ Some at.new }
    ensures kept { (cause : Cause) → result ≡ Ok (Some cause) → at.new ≡ at.old }
    ensures err { OnErr result (at.new ≡ at.old) }
{
    hop(alloc, net, &World::Moving(bounds), at, step)
}

/// Where a step leads, whatever is failed. It answers whether it leads on.
pub fn follow(net: &Network, at: &mut Location, step: Step) -> Result<bool, NoMemory>
    ensures on { result ≡ Ok true → moved net.now at.old step ≡ Some at.new }
    ensures off { result ≡ Ok false → moved net.now at.old step ≡ None }
{
    let member = match named(groups_of(net, at), step) {
        Ok(member) => member,
        Err(_) => return Ok(false),
    };
    match apply(member, at)? {
        Applied::Done => Ok(true),
        Applied::Undefined(_) => Ok(false),
    }
}

// Goes by a member.
fn apply(member: &Member, at: &mut Location) -> Result<Applied, NoMemory>
    ensures goes { IfOk result (λ answer. Goes member.now at.old answer at.new) }
    ensures kept { (i : ℕ) → result ≡ Ok (Applied.Undefined i) → at.new ≡ at.old }
    ensures err { OnErr result (at.new ≡ at.old) }
{
    match at.1.apply(member.ops.as_slice()) {
        Ok(Applied::Done) => {
            at.0 = member.link;
            Ok(Applied::Done)
        }
        Ok(Applied::Undefined(i)) => Ok(Applied::Undefined(i)),
        Err(_) => Err(NoMemory::Memory),
    }
}

/// Why a packet can't end so, if it can't: the first cause.
#[tactic(auto, using(crate::proofs::HopLemmas::end_laws))]
pub(crate) fn end_fault(
    alloc: Global,
    net: &Network,
    world: &World,
    at: &Location,
    end: End,
) -> Result<Option<Cause>, NoMemory>
    ensures { IfOk result (λ cause. cause ≡ end_cause_in world.now net.now end at.now) }
{
    match end {
        End::Arrives => Ok(None),
        End::Inactive => inactive_fault(alloc, net, world, groups_of(net, at)),
        End::Undefined(step) => match taken(alloc, net, world, at, step)? {
            Ok(member) => undefined_fault(member, &at.1),
            Err(cause) => Ok(Some(cause)),
        },
    }
}

// Why no packet is dropped since none of these groups is active, if none is.
fn inactive_fault(
    alloc: Global,
    net: &Network,
    world: &World,
    groups: &[Group],
) -> Result<Option<Cause>, NoMemory>
    ensures { IfOk result (λ cause. cause ≡ inactive_in world.now net.now groups.now) }
{
    match world {
        World::Fixed(fails) => Ok(active_fault(groups, fails)),
        World::Moving(bounds) => {
            let needs = net.links_before(alloc, groups, groups.len())?;
            Ok(needs_against(net, bounds, &needs))
        }
    }
}

// The first group that has a link outside a set, if there is one.
fn active_fault(groups: &[Group], fails: &FailSet) -> Option<Cause>
    ensures { result ≡ option_map Cause.Active (first_active fails.now groups.now) }
{
    match first_active(groups, fails) {
        Some(first) => Some(Cause::Active(first)),
        None => None,
    }
}

// Why no packet is dropped by a member's operations: since they are defined on its header, if they are.
fn undefined_fault(member: &Member, header: &Header) -> Result<Option<Cause>, NoMemory>
    ensures { IfOk result (λ cause. cause ≡ defined_cause header.now member.now) }
{
    let mut header = twin_of(header)?;
    match header.apply(member.ops.as_slice()) {
        Ok(Applied::Done) => Ok(Some(Cause::Defined)),
        Ok(Applied::Undefined(_)) => Ok(None),
        Err(_) => Err(NoMemory::Memory),
    }
}
