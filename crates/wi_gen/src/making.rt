//! The network is made by the builder, which keeps the rules of a network; that it refuses none of a ring's parts is shown where
//! they are added. Each part costs one call of the builder.
ghost use Rattle.std.specs.Prelude.{◌≡◌, ◌≤◌, [], string_bytes, IfOk, OnOk};
ghost use Rattle.wi_net.specs.Builder.{empty};
ghost use Rattle.wi_gen.specs.Ring.{net_of, ring_of};
ghost use Rattle.wi_gen.specs.Texts.{query_text, weights_text};
ghost use Rattle.wi_gen.specs.private.Making.{draft_of};

use crate::links::add_links;
use crate::names::{add_labels, add_routers};
use crate::ring::RingPlan;
use crate::rows::add_rows;
use crate::texts::{query_text, weights_text};
use std::alloc::Global;
use wi_base::NoMemory;
use wi_net::{Network, NetworkBuilder};

/// A network that is generated, and what is asked of it.
#[derive(Drop)]
pub struct Generated {
    pub network: Network,
    /// The text of a query of the network.
    pub query: String,
    /// The text of what runs are weighed by.
    pub weights: String,
}

/// The ring of so many routers, from 4 to 2,000, and what is asked of it. The same seed and size give the same.
pub fn generate(alloc: Global, seed: u64, size: u32) -> Result<Generated, NoMemory>
    requires least { 4 ≤ size }
    requires most { size ≤ 2000 }
    ensures network { IfOk result (λ generated. generated.network ≡ net_of (ring_of seed size)) }
    ensures query { IfOk result (λ generated. string_bytes generated.query ≡ query_text (ring_of seed size)) }
    ensures weights { IfOk result (λ generated. string_bytes generated.weights ≡ weights_text) }
{
    let ring = RingPlan::new(seed, size);
    let query = query_text(alloc, &ring)?;
    let weights = weights_text(alloc)?;
    Ok(Generated {
        network: network(alloc, &ring)?,
        query,
        weights,
    })
}

fn network(alloc: Global, ring: &RingPlan) -> Result<Network, NoMemory>
    ensures { IfOk result (λ network. network ≡ net_of ring.now) }
{
    let mut builder = NetworkBuilder::new(alloc);
    match fill(alloc, &mut builder, ring) {
        Ok(()) => builder.finish(),
        Err(refused) => {
            drop(builder);
            Err(refused)
        }
    }
}

// Adds all of a ring to a network with nothing in it.
fn fill(alloc: Global, builder: &mut NetworkBuilder, ring: &RingPlan) -> Result<(), NoMemory>
    requires { builder.old ≡ empty }
    ensures { OnOk result (builder.new ≡ draft_of (net_of ring.now)) }
{
    ring.keeps();
    add_routers(alloc, builder, ring)?;
    add_labels(alloc, builder, ring)?;
    add_links(alloc, builder, ring)?;
    add_rows(alloc, builder, ring)
}
