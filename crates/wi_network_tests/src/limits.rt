//! How many of each part a network may have, by the builder's answers at its limits.
ghost use Rattle.std.specs.Prelude.{◌≡◌, true};
ghost use Rattle.std.specs.List.{list_all};
ghost use Rattle.wi_labels.specs.declared.label.Class.TheVariants.{Mpls};
ghost use Rattle.wi_net.specs.Network.{is_no_later};

use crate::building::Stacked;
use crate::common::{S10, equal, groups};
use std::alloc::Global;
use std::process::Abort;
use std::test::Fail;
use wi_base::Listed;
use wi_labels::{Class, Label, Ops};
use wi_net::BuildRefused::Limit;
use wi_net::{Group, Limited, LinkId, Member, NetworkBuilder};
use wi_samples::add_class;

fn digits(alloc: Global, number: u32) -> Result<String, Fail> {
    Ok(format!(in alloc; "{number}")?)
}

fn add_routers(alloc: Global, builder: &mut NetworkBuilder, count: u32) -> Result<(), Fail> {
    for i in 0..count {
        builder.router(digits(alloc, i)?.as_str())?;
    }
    Ok(())
}

// The limit comes before the name, which is none.
fn takes_routers(rt: &impl Abort, alloc: Global, builder: &mut NetworkBuilder) -> Result<(), Fail> {
    add_routers(alloc, builder, 10000)?;
    equal(rt, builder.router(""), Err(Limit(Limited::Routers, 10000)));
    Ok(())
}

#[test]
fn there_are_at_most_10000_routers(rt: HostRuntime) -> Result<(), Fail> {
    let mut builder = NetworkBuilder::new(rt.alloc());
    let taken = takes_routers(&rt, rt.alloc(), &mut builder);
    drop(builder);
    taken
}

// So many labels.
fn stack(alloc: Global, stacked: &mut Stacked, count: u32) -> Result<(), Fail> {
    for i in 0..count {
        stacked.label(digits(alloc, i)?.as_str())?;
    }
    Ok(())
}

fn takes_labels(rt: &impl Abort, alloc: Global, stacked: &mut Stacked) -> Result<(), Fail> {
    stack(alloc, stacked, 20000)?;
    equal(rt, stacked.label(""), Err(Limit(Limited::Labels, 20000)));
    Ok(())
}

#[test]
fn there_are_at_most_20000_labels(rt: HostRuntime) -> Result<(), Fail> {
    let mut stacked = Stacked::new(rt.alloc());
    let taken = takes_labels(&rt, rt.alloc(), &mut stacked);
    stacked.close();
    taken
}

// A link of a router to itself, by interfaces of one name.
fn add_loop(alloc: Global, builder: &mut NetworkBuilder, number: u32) -> Result<(), Fail> {
    let name = digits(alloc, number)?;
    builder.link("r", name.as_str(), "r", name.as_str(), 1, None)?;
    Ok(())
}

fn add_loops(alloc: Global, builder: &mut NetworkBuilder, count: u32) -> Result<(), Fail> {
    builder.router("r")?;
    for number in 0..count {
        add_loop(alloc, builder, number)?;
    }
    Ok(())
}

fn takes_links(rt: &impl Abort, alloc: Global, builder: &mut NetworkBuilder) -> Result<(), Fail> {
    add_loops(alloc, builder, 20000)?;
    let refused = Limit(Limited::Links, 20000);
    equal(rt, builder.link("", "", "", "", 1, Some("")), Err(refused));
    Ok(())
}

#[test]
fn there_are_at_most_20000_links(rt: HostRuntime) -> Result<(), Fail> {
    let mut builder = NetworkBuilder::new(rt.alloc());
    let taken = takes_links(&rt, rt.alloc(), &mut builder);
    drop(builder);
    taken
}

fn add_bare_rows(
    alloc: Global,
    builder: &mut NetworkBuilder,
    top: Label,
    links: u32,
) -> Result<(), Fail> {
    for link in 0..links {
        builder.table(LinkId(link), top, Vec::new(alloc))?;
    }
    Ok(())
}

fn add_all_rows(alloc: Global, builder: &mut NetworkBuilder) -> Result<(), Fail> {
    for top in 0..10 {
        add_bare_rows(alloc, builder, Label(top), 20000)?;
    }
    Ok(())
}

const TEN: &[&str] = &["0", "1", "2", "3", "4", "5", "6", "7", "8", "9"];

// The limit comes before the link, which isn't there.
fn refuses_a_row(rt: &impl Abort, alloc: Global, builder: &mut NetworkBuilder) -> Result<(), Fail> {
    let groups = groups(alloc, &[&[(0, &[])]])?;
    let refused = Limit(Limited::Rows, 200000);
    equal(rt, builder.table(LinkId(20000), S10, groups), Err(refused));
    Ok(())
}

fn takes_rows(rt: &impl Abort, alloc: Global, builder: &mut NetworkBuilder) -> Result<(), Fail>
    requires { list_all (λ c. is_no_later c Mpls) builder.old.net.classes ≡ true }
{
    add_class(builder, Class::Mpls, TEN)?;
    add_loops(alloc, builder, 20000)?;
    add_all_rows(alloc, builder)?;
    refuses_a_row(rt, alloc, builder)
}

#[test]
fn there_are_at_most_200000_rows(rt: HostRuntime) -> Result<(), Fail> {
    let mut builder = NetworkBuilder::new(rt.alloc());
    let taken = takes_rows(&rt, rt.alloc(), &mut builder);
    drop(builder);
    taken
}

// A group of so many members that go out over the first link.
fn many(alloc: Global, count: usize) -> Result<Group, Fail> {
    let mut members = Vec::new(alloc);
    for _ in 0..count {
        let member = Member {
            link: LinkId(0),
            ops: Ops::new(alloc),
        };
        members.push(member)?;
    }
    Ok(Listed::of(members))
}

fn add_members(alloc: Global, builder: &mut NetworkBuilder, count: usize) -> Result<(), Fail> {
    let group = many(alloc, count)?;
    builder.table(LinkId(0), Label(0), vec![in alloc; group]?)?;
    Ok(())
}

// The limit comes before the link of the member, which isn't there.
fn refuses_a_member(
    rt: &impl Abort,
    alloc: Global,
    builder: &mut NetworkBuilder,
) -> Result<(), Fail> {
    let groups = groups(alloc, &[&[(9, &[])]])?;
    let refused = Limit(Limited::Members, 400000);
    equal(rt, builder.table(LinkId(0), S10, groups), Err(refused));
    Ok(())
}

fn takes_members(rt: &impl Abort, alloc: Global, builder: &mut NetworkBuilder) -> Result<(), Fail>
    requires { list_all (λ c. is_no_later c Mpls) builder.old.net.classes ≡ true }
{
    add_class(builder, Class::Mpls, &["0", "1"])?;
    add_loops(alloc, builder, 1)?;
    add_members(alloc, builder, 400000)?;
    refuses_a_member(rt, alloc, builder)
}

#[test]
fn there_are_at_most_400000_members(rt: HostRuntime) -> Result<(), Fail> {
    let mut builder = NetworkBuilder::new(rt.alloc());
    let taken = takes_members(&rt, rt.alloc(), &mut builder);
    drop(builder);
    taken
}
