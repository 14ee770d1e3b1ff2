//! A network as a table of constants, and what builds it. The builder that is made is let go at each way out by `drop`, since
//! one that falls out of scope makes long proofs.
ghost use Rattle.std.specs.Prelude.{◌≡◌, true, OnOk};
ghost use Rattle.std.specs.List.{list_all};
ghost use Rattle.wi_net.specs.Network.{is_no_later};

use std::alloc::Global;
use wi_base::Listed;
use wi_labels::{Class, Label, Op, Ops};
use wi_net::{BuildRefused, Group, LinkId, Member, Network, NetworkBuilder};

/// From a router by an interface to a router by one; the distance; and the name of the risk group.
pub type Line<'a> = (&'a str, &'a str, &'a str, &'a str, u32, Option<&'a str>);

/// A member: its link and its operations.
pub type Way<'a> = (u32, &'a [Op]);

/// A link, a label, and groups of members.
pub type RowOf<'a> = (u32, u32, &'a [&'a [Way<'a>]]);

/// A network in short. Labels are numbered from 0 through the three lists of names.
#[derive(Clone, Copy)]
pub struct Sample<'a> {
    pub mpls: &'a [&'a str],
    pub smpls: &'a [&'a str],
    pub ip: &'a [&'a str],
    pub routers: &'a [&'a str],
    pub links: &'a [Line<'a>],
    pub rows: &'a [RowOf<'a>],
}

/// The network of a sample.
pub fn network(alloc: Global, sample: &Sample) -> Result<Network, BuildRefused> {
    let mut builder = NetworkBuilder::new(alloc);
    match fill(alloc, &mut builder, sample) {
        Ok(()) => Ok(builder.finish()?),
        Err(refused) => {
            drop(builder);
            Err(refused)
        }
    }
}

/// Adds all of a sample to a builder that has no label of a later class than `mpls`.
pub fn fill(
    alloc: Global,
    builder: &mut NetworkBuilder,
    sample: &Sample,
) -> Result<(), BuildRefused>
    requires { list_all (λ c. is_no_later c Class.Mpls) builder.old.net.classes ≡ true }
{
    add_labels(builder, sample)?;
    add_routers(builder, sample.routers)?;
    add_links(builder, sample.links)?;
    add_rows(alloc, builder, sample.rows)
}

fn add_labels(builder: &mut NetworkBuilder, sample: &Sample) -> Result<(), BuildRefused>
    requires { list_all (λ c. is_no_later c Class.Mpls) builder.old.net.classes ≡ true }
{
    add_class(builder, Class::Mpls, sample.mpls)?;
    add_class(builder, Class::Smpls, sample.smpls)?;
    add_class(builder, Class::Ip, sample.ip)
}

/// Adds labels of a class to a builder that has none of a later one.
pub fn add_class(
    builder: &mut NetworkBuilder,
    class: Class,
    names: &[&str],
) -> Result<(), BuildRefused>
    requires { list_all (λ c. is_no_later c class) builder.old.net.classes ≡ true }
    ensures { OnOk result (list_all (λ c. is_no_later c class) builder.new.net.classes ≡ true) }
{
    for name in names {
        add_label(builder, class, name)?;
    }
    Ok(())
}

/// Adds a label of a class to a builder that has none of a later one.
#[tactic(auto, using(wi_net::proofs::Classes::one_later), unfolding(wi_net::specs::Builder::add_label))]
pub(crate) fn add_label(
    builder: &mut NetworkBuilder,
    class: Class,
    name: &str,
) -> Result<(), BuildRefused>
    requires { list_all (λ c. is_no_later c class) builder.old.net.classes ≡ true }
    ensures { OnOk result (list_all (λ c. is_no_later c class) builder.new.net.classes ≡ true) }
{
    builder.label(class, name)?;
    Ok(())
}

fn add_routers(builder: &mut NetworkBuilder, names: &[&str]) -> Result<(), BuildRefused> {
    for name in names {
        builder.router(name)?;
    }
    Ok(())
}

fn add_links(builder: &mut NetworkBuilder, lines: &[Line]) -> Result<(), BuildRefused> {
    for line in lines {
        let (from, out, to, into, distance, group) = *line;
        builder.link(from, out, to, into, distance, group)?;
    }
    Ok(())
}

fn add_rows(
    alloc: Global,
    builder: &mut NetworkBuilder,
    rows: &[RowOf],
) -> Result<(), BuildRefused> {
    for (link, label, ways) in rows {
        add_row(alloc, builder, LinkId(*link), Label(*label), ways)?;
    }
    Ok(())
}

/// Adds a row of groups of members.
pub(crate) fn add_row(
    alloc: Global,
    builder: &mut NetworkBuilder,
    link: LinkId,
    label: Label,
    ways: &[&[Way]],
) -> Result<(), BuildRefused> {
    let groups = groups(alloc, ways)?;
    builder.table(link, label, groups)
}

fn groups(alloc: Global, ways: &[&[Way]]) -> Result<Vec<Group>, BuildRefused> {
    let mut groups = Vec::new(alloc);
    for members in ways {
        groups.push(group(alloc, members)?)?;
    }
    Ok(groups)
}

fn group(alloc: Global, ways: &[Way]) -> Result<Group, BuildRefused> {
    let mut members = Vec::new(alloc);
    for (link, ops) in ways {
        members.push(member(alloc, *link, ops)?)?;
    }
    Ok(Listed::of(members))
}

fn member(alloc: Global, link: u32, ops: &[Op]) -> Result<Member, BuildRefused> {
    match Ops::from_slice(alloc, ops) {
        Ok(ops) => Ok(Member {
            link: LinkId(link),
            ops,
        }),
        Err(_) => Err(BuildRefused::Memory),
    }
}
