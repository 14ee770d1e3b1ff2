//! What a ring's rows say: along the path, else into a bypass; and on a bypass on round. Each group has one member. They are made
//! for one row, whose they become.
ghost use Rattle.std.specs.Prelude.{◌≡◌, ◌<◌, ◌≤◌, ◌+◌, [], ◌∷◌, ◌++◌, IfOk, OnOk};
ghost use Rattle.wi_gen.specs.Ring.{way};
ghost use Rattle.wi_gen.specs.private.Rows.{first_groups, middle_groups, last_groups, bypass_groups, bypass_op};

use crate::ring::{EXIT, RingPlan, push, swap};
use std::alloc::Global;
use wi_base::{Listed, NoMemory};
use wi_labels::{Op, Ops};
use wi_net::{Group, LinkId, Member};

/// At `r0`, for what comes from `s`.
pub fn first_groups(alloc: Global, ring: &RingPlan) -> Result<Vec<Group>, NoMemory>
    ensures { IfOk result (λ groups. groups.items ≡ first_groups ring.now) }
{
    ring.keeps();
    let last = ring.size() - 1;
    let onto = push(ring.along(1));
    let aside = push(ring.bypass(0));
    two_ways(
        alloc,
        ring.forward(0),
        &[onto],
        ring.backward(last),
        &[onto, aside],
    )
}

/// At a router within the path.
pub fn middle_groups(alloc: Global, ring: &RingPlan, i: u32) -> Result<Vec<Group>, NoMemory>
    requires first { 1 ≤ i }
    requires last { i < ring.now.path }
    ensures { IfOk result (λ groups. groups.items ≡ middle_groups ring.now i) }
{
    ring.keeps();
    let next = swap(ring.along(i + 1));
    let aside = push(ring.bypass(i));
    two_ways(
        alloc,
        ring.forward(i),
        &[next],
        ring.backward(i - 1),
        &[next, aside],
    )
}

/// At the path's last router.
pub fn last_groups(alloc: Global) -> Result<Vec<Group>, NoMemory>
    ensures { IfOk result (λ groups. groups.items ≡ last_groups) }
{
    let mut groups = Vec::new(alloc);
    add_way(alloc, &mut groups, EXIT, &[Op::Pop])?;
    Ok(groups)
}

/// So many places back on the bypass of the path's link from a router.
pub fn bypass_groups(alloc: Global, ring: &RingPlan, i: u32, d: u32) -> Result<Vec<Group>, NoMemory>
    requires within { i < ring.now.path }
    requires far { d + 1 < ring.now.size }
    ensures { IfOk result (λ groups. groups.items ≡ bypass_groups ring.now i d) }
{
    ring.keeps();
    let next = ring.backward(ring.back(i, d + 1));
    let mut groups = Vec::new(alloc);
    add_way(alloc, &mut groups, next, &[bypass_op(ring, i, d)])?;
    Ok(groups)
}

// The router before the end of the bypass takes its label off.
fn bypass_op(ring: &RingPlan, i: u32, d: u32) -> Op
    requires { i < ring.now.path }
    ensures { result ≡ bypass_op ring.now i d }
{
    ring.keeps();
    if d == ring.size() - 2 {
        Op::Pop
    } else {
        swap(ring.bypass(i))
    }
}

fn two_ways(
    alloc: Global,
    first: LinkId,
    first_ops: &[Op],
    second: LinkId,
    second_ops: &[Op],
) -> Result<Vec<Group>, NoMemory>
    ensures { IfOk result (λ groups. groups.items ≡ way first first_ops.now ∷ way second second_ops.now ∷ []) }
{
    let mut groups = Vec::new(alloc);
    add_way(alloc, &mut groups, first, first_ops)?;
    add_way(alloc, &mut groups, second, second_ops)?;
    Ok(groups)
}

fn add_way(alloc: Global, groups: &mut Vec<Group>, link: LinkId, ops: &[Op]) -> Result<(), NoMemory>
    ensures { OnOk result (groups.new.items ≡ groups.old.items ++ way link ops.now ∷ []) }
{
    let member = Member {
        link,
        ops: ops_of(alloc, ops)?,
    };
    let members = vec![in alloc; member]?;
    groups.push(Listed::of(members))?;
    Ok(())
}

fn ops_of(alloc: Global, ops: &[Op]) -> Result<Ops, NoMemory>
    ensures { IfOk result (λ list. list ≡ ops.now) }
{
    match Ops::from_slice(alloc, ops) {
        Ok(list) => Ok(list),
        Err(_) => Err(NoMemory::Memory),
    }
}
