//! A table's own checks come before those of its groups, and a member's before the next member's, as the format's order of
//! faults has it. What was checked here isn't checked by the builder again: a member costs a look-up for each name.
ghost use Rattle.std.specs.Prelude.{◌≡◌, ◌+◌, ◌≤◌, ◌<◌, [], codes, length, OnOk, IfOk};
ghost use Rattle.serde_json.specs.Find.{get};
ghost use Rattle.serde_json.specs.View.{view, items_view};
ghost use Rattle.wi_net.specs.Tables.{group_members};
ghost use Rattle.wi_netjson.specs.Reading.{Gives, each, list};
ghost use Rattle.wi_netjson.specs.Tables.{member_at, way_at, group_at, group_members_at, table_at, table_ends, tables_of};

use crate::fault::{MemberPart, NetFault, Place, TablePart};
use crate::operations::operations;
use crate::room::push;
use crate::shape::{limited, list, object, text};
use serde_json::Value;
use std::alloc::Global;
use wi_base::Listed;
use wi_labels::Label;
use wi_net::{
    Group, LinkId, MEMBER_LIMIT, Member, NetworkBuilder, OPERATION_LIMIT, ROW_LIMIT, RouterId,
    TableRow,
};

/// Adds the tables of a file.
#[tactic(auto, unfolding(crate::specs::Tables::tables_of))]
pub fn tables(alloc: Global, builder: &mut NetworkBuilder, file: Value) -> Result<(), NetFault>
    ensures { Gives (λ _. builder.new) result (tables_of builder.old (view file)) }
{
    let values = taken(file)?;
    limited(
        Place::Tables,
        ROW_LIMIT,
        builder.row_count(),
        values.as_slice(),
    )?;
    each_table(alloc, builder, values)
}

// Takes the list of tables out of a file, and lets go of the rest.
fn taken(mut file: Value) -> Result<Vec<Value>, NetFault>
    ensures { Gives (λ values. items_view values.items) result (list Place.Tables (get (codes "tables") (view file))) }
{
    let Some(value) = file.get_mut("tables") else {
        return Err(NetFault::WrongShape(Place::Tables));
    };
    match value.take() {
        Value::Array(values) => Ok(values),
        _ => Err(NetFault::WrongShape(Place::Tables)),
    }
}

// Reads each table, and lets it go.
fn each_table(
    alloc: Global,
    builder: &mut NetworkBuilder,
    values: Vec<Value>,
) -> Result<(), NetFault>
    requires { length builder.old.net.rows + length values.items ≤ ROW_LIMIT }
    ensures { Gives (λ _. builder.new) result (each table_at builder.old 0 (items_view values.items)) }
{
    let mut i = 0;
    for value in values {
        table(alloc, builder, i, &value)?;
        drop(value);
        i += 1;
    }
    Ok(())
}

#[tactic(auto, unfolding(crate::specs::Tables::table_at))]
fn table(
    alloc: Global,
    builder: &mut NetworkBuilder,
    i: usize,
    value: &Value,
) -> Result<(), NetFault>
    requires { length builder.old.net.rows < ROW_LIMIT }
    ensures answer { Gives (λ _. builder.new) result (table_at builder.old i (view value.now)) }
    ensures count { OnOk result (length builder.new.net.rows ≡ length builder.old.net.rows + 1) }
{
    let table = object(Place::Table(i), Some(value))?;
    let at = text(Place::TablePart(i, TablePart::At), table.get("at"))?;
    let into = text(Place::TablePart(i, TablePart::In), table.get("in"))?;
    let name = text(Place::TablePart(i, TablePart::Label), table.get("label"))?;
    let values = list(Place::TablePart(i, TablePart::Groups), table.get("groups"))?;
    let (router, link, label) = table_ends(builder, i, at, into, name)?;
    let so_far = builder.member_count();
    let (groups, members) = groups(alloc, builder, router, so_far, i, values)?;
    let row = TableRow {
        link,
        label,
        groups: Listed::of(groups),
    };
    builder.row(row, members)?;
    Ok(())
}

// The router, the arrival link and the label of a table.
#[tactic(auto, unfolding(crate::specs::Tables::table_ends))]
fn table_ends(
    builder: &NetworkBuilder,
    i: usize,
    at: &str,
    into: &str,
    name: &str,
) -> Result<(RouterId, LinkId, Label), NetFault>
    ensures { Gives (λ ends. ends) result (table_ends builder.now.net i at.now into.now name.now) }
{
    let Some(router) = builder.find_router(at) else {
        return Err(NetFault::UnknownRouter(Place::TablePart(i, TablePart::At)));
    };
    let Some(link) = builder.find_in(router, into) else {
        return Err(NetFault::UnknownInterface(Place::TablePart(i, TablePart::In)));
    };
    let Some(label) = builder.find_label(name) else {
        return Err(NetFault::UnknownLabel(Place::TablePart(i, TablePart::Label)));
    };
    if builder.has_row(link, label) {
        return Err(NetFault::RepeatedTable(Place::TablePart(i, TablePart::Label)));
    }
    Ok((router, link, label))
}

// The groups of a table, and how many members there then are in all.
fn groups(
    alloc: Global,
    builder: &NetworkBuilder,
    router: RouterId,
    so_far: usize,
    i: usize,
    values: &[Value],
) -> Result<(Vec<Group>, usize), NetFault>
    requires { so_far ≤ MEMBER_LIMIT }
    ensures answer { Gives (λ r. r.0.items) result (each (group_at builder.now.net router so_far i) [] 0 (items_view values.now)) }
    ensures members { IfOk result (λ r. r.1 ≡ so_far + group_members r.0.items) }
{
    let mut groups = Vec::new(alloc);
    let mut members = so_far;
    for (j, value) in values.iter().enumerate() {
        let group = group(alloc, builder, router, members, i, j, value)?;
        let count = group.len();
        push(&mut groups, Listed::of(group))?;
        members += count;
    }
    Ok((groups, members))
}

// The members of a group.
#[tactic(auto, using(crate::proofs::Walk::len_of_items), unfolding(crate::specs::Tables::group_members_at))]
fn group(
    alloc: Global,
    builder: &NetworkBuilder,
    router: RouterId,
    so_far: usize,
    i: usize,
    j: usize,
    value: &Value,
) -> Result<Vec<Member>, NetFault>
    requires { so_far ≤ MEMBER_LIMIT }
    ensures answer { Gives (λ v. v.items) result (group_members_at builder.now.net router so_far i j (view value.now)) }
    ensures few { IfOk result (λ v. so_far + length v.items ≤ MEMBER_LIMIT) }
{
    let values = list(Place::Group(i, j), Some(value))?;
    if values.is_empty() {
        return Err(NetFault::EmptyGroup(Place::Group(i, j)));
    }
    members(alloc, builder, router, so_far, i, j, values)
}

fn members(
    alloc: Global,
    builder: &NetworkBuilder,
    router: RouterId,
    so_far: usize,
    i: usize,
    j: usize,
    values: &[Value],
) -> Result<Vec<Member>, NetFault>
    requires { so_far ≤ MEMBER_LIMIT }
    ensures answer { Gives (λ v. v.items) result (each (member_at builder.now.net router so_far i j) [] 0 (items_view values.now)) }
    ensures few { IfOk result (λ v. so_far + length v.items ≤ MEMBER_LIMIT) }
{
    let mut members = Vec::new(alloc);
    for (m, value) in values.iter().enumerate() {
        let before = members.len();
        let member = member(alloc, builder, router, so_far + before, i, j, m, value)?;
        push(&mut members, member)?;
    }
    Ok(members)
}

// A way out of a router, where so many members come before it.
#[tactic(auto, unfolding(crate::specs::Tables::way_at))]
fn member(
    alloc: Global,
    builder: &NetworkBuilder,
    router: RouterId,
    so_far: usize,
    i: usize,
    j: usize,
    m: usize,
    value: &Value,
) -> Result<Member, NetFault>
    ensures answer { Gives (λ member. member) result (way_at builder.now.net router so_far i j m (view value.now)) }
    ensures few { OnOk result (so_far < MEMBER_LIMIT) }
{
    let member = object(Place::Member(i, j, m), Some(value))?;
    let out_place = Place::MemberPart(i, j, m, MemberPart::Out);
    let ops_place = Place::MemberPart(i, j, m, MemberPart::Ops);
    let out_if = text(out_place, member.get("out"))?;
    let values = list(ops_place, member.get("ops"))?;
    if so_far >= MEMBER_LIMIT as usize {
        return Err(NetFault::OverLimit(Place::Member(i, j, m), MEMBER_LIMIT));
    }
    let Some(link) = builder.find_out(router, out_if) else {
        return Err(NetFault::UnknownInterface(out_place));
    };
    limited(ops_place, OPERATION_LIMIT, 0, values)?;
    let ops = operations(alloc, builder, i, j, m, values)?;
    Ok(Member { link, ops })
}
