//! A network in which each of many runs needs a link to have failed that it takes later: with more of them an exact answer takes many
//! nodes.
ghost use Rattle.std.specs.Prelude.{◌≡◌, true, OnOk};
ghost use Rattle.std.specs.List.{list_all};
ghost use Rattle.wi_net.specs.Network.{is_no_later};

use crate::sample::{add_label, add_row};
use std::alloc::Global;
use wi_labels::{Class, Label};
use wi_net::{BuildRefused, LinkId, Network, NetworkBuilder};

// The number of the first link from a to b.
const FIRST_WAY: u32 = 4;

/// Links from x to a, from a to c, from c to a, and from b to y, by the numbers 0 to 3; then so many from a to b. A packet with the label
/// `ip0`, `ip1` and so on takes a way of its own from a to b. Only while that is down, a sends it to c, which sends it back.
pub fn returning(alloc: Global, count: u32) -> Result<Network, BuildRefused> {
    let mut builder = NetworkBuilder::new(alloc);
    match fill(alloc, &mut builder, count) {
        Ok(()) => Ok(builder.finish()?),
        Err(refused) => {
            drop(builder);
            Err(refused)
        }
    }
}

fn fill(alloc: Global, builder: &mut NetworkBuilder, count: u32) -> Result<(), BuildRefused>
    requires { list_all (λ c. is_no_later c Class.Ip) builder.old.net.classes ≡ true }
{
    add_labels(alloc, builder, count)?;
    add_routers(builder)?;
    add_links(alloc, builder, count)?;
    for number in 0..count {
        add_rows(alloc, builder, number)?;
    }
    Ok(())
}

fn add_labels(alloc: Global, builder: &mut NetworkBuilder, count: u32) -> Result<(), BuildRefused>
    requires { list_all (λ c. is_no_later c Class.Ip) builder.old.net.classes ≡ true }
    ensures { OnOk result (list_all (λ c. is_no_later c Class.Ip) builder.new.net.classes ≡ true) }
{
    for number in 0..count {
        let name = format!(in alloc; "ip{number}")?;
        add_label(builder, Class::Ip, name.as_str())?;
    }
    Ok(())
}

fn add_routers(builder: &mut NetworkBuilder) -> Result<(), BuildRefused> {
    for name in ["x", "a", "b", "c", "y"] {
        builder.router(name)?;
    }
    Ok(())
}

fn add_links(alloc: Global, builder: &mut NetworkBuilder, count: u32) -> Result<(), BuildRefused> {
    builder.link("x", "o", "a", "x", 1, None)?;
    builder.link("a", "c", "c", "a", 1, None)?;
    builder.link("c", "a2", "a", "c2", 1, None)?;
    builder.link("b", "y", "y", "b", 1, None)?;
    for number in 0..count {
        let name = format!(in alloc; "way{number}")?;
        builder.link("a", name.as_str(), "b", name.as_str(), 1, None)?;
    }
    Ok(())
}

fn add_rows(alloc: Global, builder: &mut NetworkBuilder, number: u32) -> Result<(), BuildRefused> {
    let label = Label(number);
    let way = FIRST_WAY.saturating_add(number);
    add_row(
        alloc,
        builder,
        LinkId(0),
        label,
        &[&[(way, &[])], &[(1, &[])]],
    )?;
    add_row(alloc, builder, LinkId(1), label, &[&[(2, &[])]])?;
    add_row(alloc, builder, LinkId(2), label, &[&[(way, &[])]])?;
    add_row(alloc, builder, LinkId(way), label, &[&[(3, &[])]])
}
