//! Routers and labels, each list in the order of its numbers. A name's text is made for the call alone: the builder keeps its own.
ghost use Rattle.std.specs.Prelude.{◌≡◌, [], OnOk};
ghost use Rattle.wi_gen.specs.Ring.{routers_of, labels_of, classes_of};
ghost use Rattle.wi_gen.specs.private.Making.{with_routers, with_labels, bypass_labels, path_labels};

use crate::parts::{put_label, put_router};
use crate::ring::RingPlan;
use crate::texts::numbered;
use std::alloc::Global;
use wi_base::NoMemory;
use wi_labels::Class;
use wi_net::NetworkBuilder;

/// The routers.
pub fn add_routers(
    alloc: Global,
    builder: &mut NetworkBuilder,
    ring: &RingPlan,
) -> Result<(), NoMemory>
    requires { builder.old ≡ with_routers [] }
    ensures { OnOk result (builder.new ≡ with_routers (routers_of ring.now)) }
{
    ring.keeps();
    put_router(builder, "s")?;
    put_router(builder, "t")?;
    for i in 0..ring.size() {
        let name = numbered(alloc, "r", i)?;
        put_router(builder, name.as_str())?;
    }
    Ok(())
}

/// The labels, class by class.
pub fn add_labels(
    alloc: Global,
    builder: &mut NetworkBuilder,
    ring: &RingPlan,
) -> Result<(), NoMemory>
    requires { builder.old ≡ with_labels ring.now [] [] }
    ensures { OnOk result (builder.new ≡ with_labels ring.now (labels_of ring.now) (classes_of ring.now)) }
{
    ring.keeps();
    add_bypass_labels(alloc, builder, ring)?;
    add_path_labels(alloc, builder, ring)?;
    put_label(builder, Class::Ip, "ip0")
}

// One for each bypass.
fn add_bypass_labels(
    alloc: Global,
    builder: &mut NetworkBuilder,
    ring: &RingPlan,
) -> Result<(), NoMemory>
    requires { builder.old ≡ bypass_labels ring.now 0 }
    ensures { OnOk result (builder.new ≡ bypass_labels ring.now ring.now.path) }
{
    ring.keeps();
    for i in 0..ring.path() {
        let name = numbered(alloc, "b", i)?;
        put_label(builder, Class::Mpls, name.as_str())?;
    }
    Ok(())
}

// One for each router of the path after the first.
fn add_path_labels(
    alloc: Global,
    builder: &mut NetworkBuilder,
    ring: &RingPlan,
) -> Result<(), NoMemory>
    requires { builder.old ≡ path_labels ring.now 0 }
    ensures { OnOk result (builder.new ≡ path_labels ring.now ring.now.path) }
{
    ring.keeps();
    for i in 0..ring.path() {
        let name = numbered(alloc, "s", 1 + i)?;
        put_label(builder, Class::Smpls, name.as_str())?;
    }
    Ok(())
}
