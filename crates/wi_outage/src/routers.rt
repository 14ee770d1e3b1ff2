//! The links at all routers are gathered in one walk over the links: looking for those at one router at a time would be a walk for
//! each.
ghost use Rattle.std.specs.Prelude.{◌≡◌, ◌<◌, ◌++◌, ◌∷◌, [], length, map, OnOk, IfOk};
ghost use Rattle.std.specs.List.{range_with_len};
ghost use Rattle.wi_outage.specs.Outages.{all_routers, links_at, router_outages};
ghost use Rattle.wi_outage.specs.private.Making.{router_outages_of, with_link_at};

use crate::outage::{Outage, add_spared};
use std::alloc::{AllocError, Global};
use wi_base::{Listed, NoMemory};
use wi_net::{Bounds, FailSet, LinkId, Network, RouterId};

/// The outages of the routers that a link leaves or reaches, but for those with a link that is given as down or up: in the order of
/// the routers' numbers. It costs in the number of links, and in the sizes of the outages.
pub fn router_outages(
    alloc: Global,
    net: &Network,
    given: &Bounds,
) -> Result<Listed<Outage>, NoMemory>
    ensures { IfOk result (λ outages. outages ≡ router_outages net.now given.now) }
{
    let index = links_by_router(alloc, net)?;
    let outages = outages_by(alloc, net, given, index.as_slice());
    drop(index);
    outages
}

// The same, where the links of each router are at hand.
fn outages_by(
    alloc: Global,
    net: &Network,
    given: &Bounds,
    index: &[FailSet],
) -> Result<Listed<Outage>, NoMemory>
    requires { index.now ≡ map (links_at net.now) (all_routers net.now) }
    ensures { IfOk result (λ outages. outages ≡ router_outages net.now given.now) }
{
    let mut outages = Vec::new(alloc);
    match add_routers(alloc, net, given, index, &mut outages) {
        Ok(()) => Ok(Listed::of(outages)),
        Err(error) => {
            drop(outages);
            Err(error)
        }
    }
}

// Adds the outages of all routers.
fn add_routers(
    alloc: Global,
    net: &Network,
    given: &Bounds,
    index: &[FailSet],
    outages: &mut Vec<Outage>,
) -> Result<(), NoMemory>
    requires { index.now ≡ map (links_at net.now) (all_routers net.now) }
    ensures { OnOk result (outages.new.items ≡ outages.old.items ++ router_outages_of net.now given.now (all_routers net.now)) }
{
    for r in 0..net.counts().routers {
        add_router(alloc, net, given, RouterId(r), &index[r as usize], outages)?;
    }
    Ok(())
}

// Adds the outage of a router, if it has links.
fn add_router(
    alloc: Global,
    net: &Network,
    given: &Bounds,
    router: RouterId,
    links: &FailSet,
    outages: &mut Vec<Outage>,
) -> Result<(), NoMemory>
    requires { links.now ≡ links_at net.now router }
    ensures { OnOk result (outages.new.items ≡ outages.old.items ++ router_outages_of net.now given.now (router ∷ [])) }
{
    if links.len() > 0 {
        add_spared(outages, given, Some(router), net.widen(alloc, links)?)?;
    }
    Ok(())
}

// For each router the links that leave or reach it.
fn links_by_router(alloc: Global, net: &Network) -> Result<Vec<FailSet>, NoMemory>
    ensures { IfOk result (λ index. index.items ≡ map (links_at net.now) (all_routers net.now)) }
{
    let mut index = no_links(alloc, net.counts().routers as usize)?;
    match put_all(net, &mut index) {
        Ok(()) => Ok(index),
        Err(error) => {
            drop(index);
            Err(error)
        }
    }
}

// So many empty sets.
fn no_links(alloc: Global, count: usize) -> Result<Vec<FailSet>, AllocError>
    ensures { IfOk result (λ index. index.items ≡ map (λ i. []) (range_with_len 0 count)) }
{
    (0..count).map(|_| FailSet::new(alloc)).collect(alloc)
}

// Puts each link at the routers that it leaves and reaches, where no links are put yet.
fn put_all(net: &Network, index: &mut Vec<FailSet>) -> Result<(), NoMemory>
    requires { index.old.items ≡ map (λ i. []) (range_with_len 0 (length net.now.routers)) }
    ensures { OnOk result (index.new.items ≡ map (links_at net.now) (all_routers net.now)) }
{
    for e in 0..net.counts().links {
        let link = *net.link(LinkId(e));
        put(index, link.from, LinkId(e))?;
        put(index, link.to, LinkId(e))?;
    }
    Ok(())
}

// Puts a link at a router.
fn put(index: &mut Vec<FailSet>, router: RouterId, link: LinkId) -> Result<(), NoMemory>
    requires { router.0 < length index.old.items }
    ensures { OnOk result (index.new.items ≡ with_link_at index.old.items router link) }
{
    let links = &mut index[router.0 as usize];
    links.insert(link)?;
    Ok(())
}
