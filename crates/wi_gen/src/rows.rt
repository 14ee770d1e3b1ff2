//! The tables, row by row. What is still to be added is known at each place, so that each row is the next of those that are
//! stated.
ghost use Rattle.std.specs.Prelude.{◌≡◌, ◌<◌, ◌≤◌, ◌+◌, [], OnOk};
ghost use Rattle.wi_net.specs.Builder.{with_row};
ghost use Rattle.wi_gen.specs.Ring.{rows_of};
ghost use Rattle.wi_gen.specs.private.Making.{IsAllowed, Lacks};
ghost use Rattle.wi_gen.specs.private.Rows.{middle_row, last_row, from_middle, from_last, from_bypass, from_place};

use crate::groups::{bypass_groups, first_groups, last_groups, middle_groups};
use crate::parts::put_row;
use crate::ring::{ENTRY, RingPlan};
use std::alloc::Global;
use wi_base::NoMemory;
use wi_net::{LinkId, NetworkBuilder};

/// All rows.
pub fn add_rows(
    alloc: Global,
    builder: &mut NetworkBuilder,
    ring: &RingPlan,
) -> Result<(), NoMemory>
    requires { Lacks ring.now builder.old (rows_of ring.now) }
    ensures { OnOk result (Lacks ring.now builder.new []) }
{
    add_first_row(alloc, builder, ring)?;
    for i in 1..ring.path() {
        add_middle_rows(alloc, builder, ring, i)?;
    }
    add_last_rows(alloc, builder, ring)?;
    for i in 0..ring.path() {
        add_bypass_rows(alloc, builder, ring, i)?;
    }
    Ok(())
}

// At `r0`, for what comes from `s`.
fn add_first_row(
    alloc: Global,
    builder: &mut NetworkBuilder,
    ring: &RingPlan,
) -> Result<(), NoMemory>
    requires { Lacks ring.now builder.old (rows_of ring.now) }
    ensures { OnOk result (Lacks ring.now builder.new (from_middle ring.now 1)) }
{
    let groups = first_groups(alloc, ring)?;
    put_row(builder, ENTRY, ring.destination(), groups)
}

// At a router within the path: from along it, and from the bypass.
fn add_middle_rows(
    alloc: Global,
    builder: &mut NetworkBuilder,
    ring: &RingPlan,
    i: u32,
) -> Result<(), NoMemory>
    requires first { 1 ≤ i }
    requires last { i < ring.now.path }
    requires left { Lacks ring.now builder.old (from_middle ring.now i) }
    ensures { OnOk result (Lacks ring.now builder.new (from_middle ring.now (i + 1))) }
{
    add_middle_row(alloc, builder, ring, i, ring.forward(i - 1))?;
    add_middle_row(alloc, builder, ring, i, ring.backward(i))
}

fn add_middle_row(
    alloc: Global,
    builder: &mut NetworkBuilder,
    ring: &RingPlan,
    i: u32,
    arrival: LinkId,
) -> Result<(), NoMemory>
    requires first { 1 ≤ i }
    requires last { i < ring.now.path }
    requires rules { IsAllowed builder.old (middle_row ring.now i arrival) }
    ensures { OnOk result (builder.new ≡ with_row builder.old (middle_row ring.now i arrival)) }
{
    let groups = middle_groups(alloc, ring, i)?;
    put_row(builder, arrival, ring.along(i).0, groups)
}

// At the path's last router.
fn add_last_rows(
    alloc: Global,
    builder: &mut NetworkBuilder,
    ring: &RingPlan,
) -> Result<(), NoMemory>
    requires { Lacks ring.now builder.old (from_last ring.now) }
    ensures { OnOk result (Lacks ring.now builder.new (from_bypass ring.now 0)) }
{
    let last = ring.path();
    add_last_row(alloc, builder, ring, ring.forward(last - 1))?;
    add_last_row(alloc, builder, ring, ring.backward(last))
}

fn add_last_row(
    alloc: Global,
    builder: &mut NetworkBuilder,
    ring: &RingPlan,
    arrival: LinkId,
) -> Result<(), NoMemory>
    requires { IsAllowed builder.old (last_row ring.now arrival) }
    ensures { OnOk result (builder.new ≡ with_row builder.old (last_row ring.now arrival)) }
{
    ring.keeps();
    let last = ring.path();
    let groups = last_groups(alloc)?;
    put_row(builder, arrival, ring.along(last).0, groups)
}

// On the bypass of the path's link from a router, place after place.
fn add_bypass_rows(
    alloc: Global,
    builder: &mut NetworkBuilder,
    ring: &RingPlan,
    i: u32,
) -> Result<(), NoMemory>
    requires within { i < ring.now.path }
    requires left { Lacks ring.now builder.old (from_bypass ring.now i) }
    ensures { OnOk result (Lacks ring.now builder.new (from_bypass ring.now (i + 1))) }
{
    for d in 1..ring.size() - 1 {
        add_bypass_row(alloc, builder, ring, i, d)?;
    }
    Ok(())
}

fn add_bypass_row(
    alloc: Global,
    builder: &mut NetworkBuilder,
    ring: &RingPlan,
    i: u32,
    d: u32,
) -> Result<(), NoMemory>
    requires within { i < ring.now.path }
    requires first { 1 ≤ d }
    requires last { d + 1 < ring.now.size }
    requires left { Lacks ring.now builder.old (from_place ring.now i d) }
    ensures { OnOk result (Lacks ring.now builder.new (from_place ring.now i (d + 1))) }
{
    let groups = bypass_groups(alloc, ring, i, d)?;
    let arrival = ring.backward(ring.back(i, d));
    put_row(builder, arrival, ring.bypass(i).0, groups)
}
