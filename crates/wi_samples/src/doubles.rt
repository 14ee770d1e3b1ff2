//! A network whose least runs double with each label: what is too long, or too large to weigh, comes from few lines of it.
ghost use Rattle.std.specs.Prelude.{◌≡◌, true, OnOk};
ghost use Rattle.std.specs.List.{list_all};
ghost use Rattle.wi_net.specs.Network.{is_no_later};

use crate::sample::{add_label, add_row};
use std::alloc::Global;
use wi_labels::{Class, Label, Op};
use wi_net::{BuildRefused, LinkId, Network, NetworkBuilder};

/// One router `r` with a link `r.o#r.i` to itself, so many labels `d0`, `d1` and so on, `s1` and `ip1`. Each of the first
/// becomes two of the one before, and `d0` is popped.
pub fn doubling(alloc: Global, count: u32) -> Result<Network, BuildRefused> {
    let mut builder = NetworkBuilder::new(alloc);
    match fill(alloc, &mut builder, count) {
        Ok(()) => Ok(builder.finish()?),
        Err(refused) => {
            drop(builder);
            Err(refused)
        }
    }
}

fn fill(alloc: Global, builder: &mut NetworkBuilder, count: u32) -> Result<(), BuildRefused>
    requires { list_all (λ c. is_no_later c Class.Mpls) builder.old.net.classes ≡ true }
{
    add_labels(alloc, builder, count)?;
    builder.router("r")?;
    builder.link("r", "o", "r", "i", 1, None)?;
    add_rows(alloc, builder, count)
}

fn add_labels(alloc: Global, builder: &mut NetworkBuilder, count: u32) -> Result<(), BuildRefused>
    requires { list_all (λ c. is_no_later c Class.Mpls) builder.old.net.classes ≡ true }
{
    add_doubles(alloc, builder, count)?;
    add_label(builder, Class::Smpls, "s1")?;
    add_label(builder, Class::Ip, "ip1")
}

fn add_doubles(alloc: Global, builder: &mut NetworkBuilder, count: u32) -> Result<(), BuildRefused>
    requires { list_all (λ c. is_no_later c Class.Mpls) builder.old.net.classes ≡ true }
    ensures { OnOk result (list_all (λ c. is_no_later c Class.Mpls) builder.new.net.classes ≡ true) }
{
    for number in 0..count {
        let name = format!(in alloc; "d{number}")?;
        add_label(builder, Class::Mpls, name.as_str())?;
    }
    Ok(())
}

fn add_rows(alloc: Global, builder: &mut NetworkBuilder, count: u32) -> Result<(), BuildRefused> {
    add_row(alloc, builder, LinkId(0), Label(0), &[&[(0, &[Op::Pop])]])?;
    for number in 1..count {
        let below = Label(number - 1);
        let ops = [Op::Swap(below, Class::Mpls), Op::Push(below, Class::Mpls)];
        add_row(alloc, builder, LinkId(0), Label(number), &[&[(0, &ops)]])?;
    }
    Ok(())
}
