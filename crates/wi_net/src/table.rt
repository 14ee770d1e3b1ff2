//! The rules of a table are checked before the table is added, in the order in which the builder's refusals are told. It
//! goes over the members once.
ghost use Rattle.std.specs.Prelude.{◌≡◌, ◌+◌, ◌≤◌, length, IfOk};
ghost use Rattle.std.specs.List.{list_all};
ghost use Rattle.wi_labels.specs.Header.{same_class};
ghost use Rattle.wi_net.specs.Tables.{group_members};
ghost use Rattle.wi_net.specs.Net.{label_known};
ghost use Rattle.wi_net.specs.Network.{op_known, leaves};
ghost use Rattle.wi_net.specs.Builder.{member_rules, members_rules, group_rules, groups_rules, Gives};

use crate::builder::NetworkBuilder;
use crate::limits::{MEMBER_LIMIT, OPERATION_LIMIT};
use crate::parts::{Group, LinkId, Member, RouterId};
use crate::refused::{BuildRefused, Field, Limited};
use wi_labels::{Class, Label, Op};

/// How many members there are with those of groups, or the first rule that they break.
pub(crate) fn groups_total(
    builder: &NetworkBuilder,
    router: RouterId,
    so_far: usize,
    groups: &[Group],
) -> Result<usize, BuildRefused>
    requires { so_far ≤ MEMBER_LIMIT }
    ensures answer { Gives (λ n. n) result (groups_rules builder.now.net router so_far groups.now) }
    ensures total { IfOk result (λ n. n ≡ so_far + group_members groups.now) }
    ensures few { IfOk result (λ n. n ≤ MEMBER_LIMIT) }
{
    let mut members = so_far;
    for group in groups {
        members = group_total(builder, router, members, group.as_slice())?;
    }
    Ok(members)
}

#[tactic(auto, unfolding(crate::specs::Builder::group_rules))]
fn group_total(
    builder: &NetworkBuilder,
    router: RouterId,
    so_far: usize,
    group: &[Member],
) -> Result<usize, BuildRefused>
    requires { so_far ≤ MEMBER_LIMIT }
    ensures answer { Gives (λ n. n) result (group_rules builder.now.net router so_far group.now) }
    ensures total { IfOk result (λ n. n ≡ so_far + length group.now) }
    ensures few { IfOk result (λ n. n ≤ MEMBER_LIMIT) }
{
    if group.is_empty() {
        return Err(BuildRefused::EmptyGroup);
    }
    members_total(builder, router, so_far, group)
}

fn members_total(
    builder: &NetworkBuilder,
    router: RouterId,
    so_far: usize,
    group: &[Member],
) -> Result<usize, BuildRefused>
    requires { so_far ≤ MEMBER_LIMIT }
    ensures answer { Gives (λ n. n) result (members_rules builder.now.net router so_far group.now) }
    ensures total { IfOk result (λ n. n ≡ so_far + length group.now) }
    ensures few { IfOk result (λ n. n ≤ MEMBER_LIMIT) }
{
    let mut members = so_far;
    for member in group {
        members = member_total(builder, router, members, member)?;
    }
    Ok(members)
}

#[tactic(auto, unfolding(crate::specs::Builder::member_rules))]
fn member_total(
    builder: &NetworkBuilder,
    router: RouterId,
    so_far: usize,
    member: &Member,
) -> Result<usize, BuildRefused>
    requires { so_far ≤ MEMBER_LIMIT }
    ensures answer { Gives (λ n. n) result (member_rules builder.now.net router so_far member.now) }
    ensures total { IfOk result (λ n. n ≡ so_far + 1) }
    ensures few { IfOk result (λ n. n ≤ MEMBER_LIMIT) }
{
    if so_far >= MEMBER_LIMIT as usize {
        return Err(BuildRefused::Limit(Limited::Members, MEMBER_LIMIT));
    }
    if !leaves(builder, router, member.link) {
        return Err(BuildRefused::Unknown(Field::Out));
    }
    if member.ops.as_slice().len() > OPERATION_LIMIT as usize {
        return Err(BuildRefused::Limit(Limited::Operations, OPERATION_LIMIT));
    }
    if !are_known(builder, member.ops.as_slice()) {
        return Err(BuildRefused::Unknown(Field::Name));
    }
    Ok(so_far + 1)
}

fn leaves(builder: &NetworkBuilder, router: RouterId, link: LinkId) -> bool
    ensures { result ≡ leaves builder.now.net router link }
{
    match builder.link_at(link) {
        Some(found) => found.from.0 == router.0,
        None => false,
    }
}

fn are_known(builder: &NetworkBuilder, ops: &[Op]) -> bool
    ensures { result ≡ list_all (op_known builder.now.net) ops.now }
{
    ops.iter().all(|op| is_known(builder, *op))
}

fn is_known(builder: &NetworkBuilder, op: Op) -> bool
    ensures { result ≡ op_known builder.now.net op }
{
    match op {
        Op::Swap(label, class) => is_label_known(builder, label, class),
        Op::Push(label, class) => is_label_known(builder, label, class),
        Op::Pop => true,
    }
}

fn is_label_known(builder: &NetworkBuilder, label: Label, class: Class) -> bool
    ensures { result ≡ label_known builder.now.net.classes (label, class) }
{
    match builder.class(label) {
        Some(found) => found == class,
        None => false,
    }
}
