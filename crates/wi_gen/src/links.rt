//! Links: from `s` and to `t`, and round the circle one way and the other. A link costs the texts of its routers' names, which
//! are made for the call alone.
ghost use Rattle.std.specs.Prelude.{◌≡◌, ◌<◌, ◌≤◌, ◌+◌, [], ◌∷◌, ◌++◌, None, Ok, IsOk, OnOk, codes};
ghost use Rattle.wi_net.specs.Builder.{add_link};
ghost use Rattle.wi_gen.specs.Ring.{links_of, interfaces, numbered, further};
ghost use Rattle.wi_gen.specs.private.Ring.{distance_of};
ghost use Rattle.wi_gen.specs.private.Making.{with_links, forward_links, backward_links};

use crate::parts::put_link;
use crate::ring::{ENTRY, EXIT, RingPlan};
use crate::texts::numbered;
use std::alloc::Global;
use wi_base::NoMemory;
use wi_net::NetworkBuilder;

/// The links, in the order of their numbers.
pub fn add_links(
    alloc: Global,
    builder: &mut NetworkBuilder,
    ring: &RingPlan,
) -> Result<(), NoMemory>
    requires { builder.old ≡ with_links ring.now [] [] }
    ensures { OnOk result (builder.new ≡ with_links ring.now interfaces (links_of ring.now)) }
{
    ring.keeps();
    add_end_links(alloc, builder, ring)?;
    for i in 0..ring.size() {
        add_forward_link(alloc, builder, ring, i)?;
    }
    for i in 0..ring.size() {
        add_backward_link(alloc, builder, ring, i)?;
    }
    Ok(())
}

// From `s` to the circle, and from the path's last router to `t`.
fn add_end_links(
    alloc: Global,
    builder: &mut NetworkBuilder,
    ring: &RingPlan,
) -> Result<(), NoMemory>
    requires { builder.old ≡ with_links ring.now [] [] }
    ensures { OnOk result (builder.new ≡ forward_links ring.now 0) }
{
    ring.keeps();
    let last = numbered(alloc, "r", ring.path())?;
    put_link(builder, "s", "r0", "o", ring.distance(ENTRY))?;
    put_link(builder, last.as_str(), "t", "x", ring.distance(EXIT))
}

// From a router of the circle to the next.
fn add_forward_link(
    alloc: Global,
    builder: &mut NetworkBuilder,
    ring: &RingPlan,
    i: u32,
) -> Result<(), NoMemory>
    requires within { i < ring.now.size }
    requires before { builder.old ≡ forward_links ring.now i }
    ensures { OnOk result (builder.new ≡ forward_links ring.now (i + 1)) }
{
    ring.keeps();
    let from = numbered(alloc, "r", i)?;
    let to = numbered(alloc, "r", ring.further(i, 1))?;
    let distance = ring.distance(ring.forward(i));
    put_link(builder, from.as_str(), to.as_str(), "f", distance)
}

// To a router of the circle from the next.
fn add_backward_link(
    alloc: Global,
    builder: &mut NetworkBuilder,
    ring: &RingPlan,
    i: u32,
) -> Result<(), NoMemory>
    requires within { i < ring.now.size }
    requires before { builder.old ≡ backward_links ring.now i }
    ensures { OnOk result (builder.new ≡ backward_links ring.now (i + 1)) }
{
    ring.keeps();
    let from = numbered(alloc, "r", ring.further(i, 1))?;
    let to = numbered(alloc, "r", i)?;
    let distance = ring.distance(ring.backward(i));
    put_link(builder, from.as_str(), to.as_str(), "g", distance)
}
