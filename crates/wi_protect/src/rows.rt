//! A path's packets carry the path's label on its inner links, and the bypass's on top of it where they go around a link. The
//! bypass's is taken off one hop before the bypass ends (penultimate hop popping, RFC 3031, 3.16), so where a bypass ends
//! there is the row of the link that it leads around. Each row is added once: it costs a look-up of the way around its link.
ghost use Rattle.std.specs.Prelude.{◌≡◌, ◌+◌, ◌≤◌, ◌<◌, ◌^◌, ◌-◌, ◌∷◌, [], true, length, IfOk, OnOk};
ghost use Rattle.wi_protect.specs.Labels.{moved_by, paths_labels, bypasses_labels};
ghost use Rattle.wi_protect.specs.Rows.{label, only, row, onto, next_groups, end_rows, arrivals, path_rows, via_rows, paths_rows, bypasses_rows};
ghost use Rattle.wi_protect.specs.private.Held.{rows_at, round_now};
ghost use Rattle.wi_protect.specs.private.Detours.{round_by};
ghost use Rattle.wi_protect.specs.private.Adding.{CanAdd, with_rows, are_low};
ghost use Rattle.wi_net.specs.declared.limits.TheConstants.{LABEL_LIMIT};

use crate::detours::{Detour, round_of};
use crate::labels::{Numbers, bypass_labels, path_labels};
use std::alloc::Global;
use wi_base::{Listed, NoMemory};
use wi_labels::{Class, Label, Op, Ops};
use wi_net::{Group, LinkId, Member, NetworkBuilder};
use wi_plan::{Bypass, Path};

// A group of one member.
fn only(alloc: Global, link: LinkId, ops: &[Op]) -> Result<Group, NoMemory>
    ensures { IfOk result (λ group. group ≡ only link ops.now) }
{
    let ops = match Ops::from_slice(alloc, ops) {
        Ok(ops) => ops,
        Err(_) => return Err(NoMemory::Memory),
    };
    let mut members = Vec::new(alloc);
    members.push(Member { link, ops })?;
    Ok(Listed::of(members))
}

// The groups of a hop onto a link.
fn onto(
    alloc: Global,
    round: Option<(&[LinkId], u32)>,
    op: Op,
    link: LinkId,
) -> Result<Vec<Group>, NoMemory>
    ensures { IfOk result (λ groups. groups.items ≡ onto (round_now round.entry) op link) }
{
    let mut groups = Vec::new(alloc);
    groups.push(only(alloc, link, &[op])?)?;
    if let Some((via, first)) = round {
        match via {
            [] => {}
            [next] => groups.push(only(alloc, *next, &[op])?)?,
            [next, ..] => {
                let push = Op::Push(Label(first), Class::Mpls);
                groups.push(only(alloc, *next, &[op, push])?)?;
            }
        }
    }
    Ok(groups)
}

// The groups at a path's label of a number, where these links are still to come.
fn next_groups(
    alloc: Global,
    bypasses: &[Bypass],
    detours: &[Option<Detour>],
    number: u32,
    links: &[LinkId],
) -> Result<Vec<Group>, NoMemory>
    requires room { number < LABEL_LIMIT }
    ensures { IfOk result (λ groups. groups.items ≡ next_groups (round_by bypasses.now detours.now) number links.now) }
{
    match links {
        [] => Ok(Vec::new(alloc)),
        [next] => {
            let mut groups = Vec::new(alloc);
            groups.push(only(alloc, *next, &[Op::Pop])?)?;
            Ok(groups)
        }
        [next, ..] => {
            let swap = Op::Swap(Label(number + 1), Class::Smpls);
            onto(alloc, round_of(bypasses, detours, *next), swap, *next)
        }
    }
}

// Adds a row that breaks no rule: so a refusal is for want of memory.
fn add_row(
    builder: &mut NetworkBuilder,
    link: LinkId,
    label: Label,
    groups: Vec<Group>,
) -> Result<(), NoMemory>
    requires { CanAdd builder.old (row link label groups.items ∷ []) }
    ensures { OnOk result (builder.new ≡ with_rows builder.old (row link label groups.items ∷ [])) }
{
    match builder.table(link, label, groups) {
        Ok(()) => Ok(()),
        Err(_) => Err(NoMemory::Memory),
    }
}

// Adds the rows where a link of a path is reached, and where the way around it ends.
fn add_arrivals(
    builder: &mut NetworkBuilder,
    alloc: Global,
    bypasses: &[Bypass],
    detours: &[Option<Detour>],
    number: u32,
    link: LinkId,
    links: &[LinkId],
) -> Result<(), NoMemory>
    requires room { number < LABEL_LIMIT }
    requires rules { CanAdd builder.old (arrivals (round_by bypasses.now detours.now link) link (label number) (next_groups (round_by bypasses.now detours.now) number links.now)) }
    ensures { OnOk result (builder.new ≡ with_rows builder.old (arrivals (round_by bypasses.now detours.now link) link (label number) (next_groups (round_by bypasses.now detours.now) number links.now))) }
{
    let groups = next_groups(alloc, bypasses, detours, number, links)?;
    add_row(builder, link, Label(number), groups)?;
    match round_of(bypasses, detours, link) {
        Some((via, _)) => add_end(builder, alloc, bypasses, detours, number, via, links),
        None => Ok(()),
    }
}

// Adds the row where the way around a link ends.
fn add_end(
    builder: &mut NetworkBuilder,
    alloc: Global,
    bypasses: &[Bypass],
    detours: &[Option<Detour>],
    number: u32,
    via: &[LinkId],
    links: &[LinkId],
) -> Result<(), NoMemory>
    requires room { number < LABEL_LIMIT }
    requires rules { CanAdd builder.old (end_rows via.now (label number) (next_groups (round_by bypasses.now detours.now) number links.now)) }
    ensures { OnOk result (builder.new ≡ with_rows builder.old (end_rows via.now (label number) (next_groups (round_by bypasses.now detours.now) number links.now))) }
{
    match via.last() {
        Some(end) => {
            let groups = next_groups(alloc, bypasses, detours, number, links)?;
            add_row(builder, *end, Label(number), groups)?;
            Ok(())
        }
        None => Ok(()),
    }
}

// Adds the rows from a link of a path on, which is reached with the label of a number.
fn add_from(
    builder: &mut NetworkBuilder,
    alloc: Global,
    bypasses: &[Bypass],
    detours: &[Option<Detour>],
    number: u32,
    links: &[LinkId],
) -> Result<(), NoMemory>
    requires room { number + length links.now ≤ 20001 }
    requires rules { CanAdd builder.old (rows_at (round_by bypasses.now detours.now) number links.now) }
    ensures { OnOk result (builder.new ≡ with_rows builder.old (rows_at (round_by bypasses.now detours.now) number links.now)) }
{
    let mut left = links;
    let mut number = number;
    while let Some((link, rest)) = left.split_first() {
        if !rest.is_empty() {
            add_arrivals(builder, alloc, bypasses, detours, number, *link, rest)?;
            number += 1;
        }
        left = rest;
    }
    Ok(())
}

// Adds the rows of a path, whose labels begin at a number.
fn add_path(
    builder: &mut NetworkBuilder,
    alloc: Global,
    bypasses: &[Bypass],
    detours: &[Option<Detour>],
    number: u32,
    ip: Label,
    links: &[LinkId],
) -> Result<(), NoMemory>
    requires room { number + (length links.now - 2) ≤ LABEL_LIMIT }
    requires rules { CanAdd builder.old (path_rows (round_by bypasses.now detours.now) number ip links.now) }
    ensures { OnOk result (builder.new ≡ with_rows builder.old (path_rows (round_by bypasses.now detours.now) number ip links.now)) }
{
    match links {
        [] => Ok(()),
        [_] => Ok(()),
        [link, rest @ ..] => {
            let push = Op::Push(Label(number), Class::Smpls);
            let next = rest[0];
            let groups = onto(alloc, round_of(bypasses, detours, next), push, next)?;
            add_row(builder, *link, ip, groups)?;
            add_from(builder, alloc, bypasses, detours, number, rest)
        }
    }
}

// Adds the rows along a bypass, whose labels begin at a number.
fn add_via(
    builder: &mut NetworkBuilder,
    alloc: Global,
    number: u32,
    via: &[LinkId],
) -> Result<(), NoMemory>
    requires room { number + (length via.now - 1) ≤ LABEL_LIMIT }
    requires rules { CanAdd builder.old (via_rows number via.now) }
    ensures { OnOk result (builder.new ≡ with_rows builder.old (via_rows number via.now)) }
{
    let mut left = via;
    let mut number = number;
    while let Some((link, rest)) = left.split_first() {
        if let Some(next) = rest.first() {
            let op = if rest.len() == 1 {
                Op::Pop
            } else {
                Op::Swap(Label(number + 1), Class::Mpls)
            };
            add_hop(builder, alloc, *link, Label(number), *next, op)?;
            number += 1;
        }
        left = rest;
    }
    Ok(())
}

// Adds a row of one group with one member, which has one operation.
fn add_hop(
    builder: &mut NetworkBuilder,
    alloc: Global,
    link: LinkId,
    label: Label,
    next: LinkId,
    op: Op,
) -> Result<(), NoMemory>
    requires { CanAdd builder.old (row link label (only next (op ∷ []) ∷ []) ∷ []) }
    ensures { OnOk result (builder.new ≡ with_rows builder.old (row link label (only next (op ∷ []) ∷ []) ∷ [])) }
{
    let mut groups = Vec::new(alloc);
    groups.push(only(alloc, next, &[op])?)?;
    add_row(builder, link, label, groups)
}

/// Adds the rows of paths, the first of whose labels has this number.
pub fn add_paths(
    builder: &mut NetworkBuilder,
    alloc: Global,
    paths: &[Path],
    bypasses: &[Bypass],
    detours: &[Option<Detour>],
    numbers: Numbers,
) -> Result<(), NoMemory>
    requires room { numbers.path + paths_labels paths.now ≤ LABEL_LIMIT }
    requires ips { are_low numbers.new paths.now ≡ true }
    requires rules { CanAdd builder.old (paths_rows (round_by bypasses.now detours.now) (moved_by numbers.new) numbers.path paths.now) }
    ensures { OnOk result (builder.new ≡ with_rows builder.old (paths_rows (round_by bypasses.now detours.now) (moved_by numbers.new) numbers.path paths.now)) }
{
    let mut number = numbers.path;
    for path in paths {
        let links = path.links.as_slice();
        let ip = Label(path.ip.0 + numbers.new);
        add_path(builder, alloc, bypasses, detours, number, ip, links)?;
        number += path_labels(path) as u32;
    }
    Ok(())
}

/// Adds the rows of bypasses, the first of whose labels has this number.
pub fn add_bypasses(
    builder: &mut NetworkBuilder,
    alloc: Global,
    bypasses: &[Bypass],
    first: u32,
) -> Result<(), NoMemory>
    requires room { first + bypasses_labels bypasses.now ≤ LABEL_LIMIT }
    requires rules { CanAdd builder.old (bypasses_rows first bypasses.now) }
    ensures { OnOk result (builder.new ≡ with_rows builder.old (bypasses_rows first bypasses.now)) }
{
    let mut number = first;
    for bypass in bypasses {
        add_via(builder, alloc, number, bypass.via.as_slice())?;
        number += bypass_labels(bypass) as u32;
    }
    Ok(())
}
