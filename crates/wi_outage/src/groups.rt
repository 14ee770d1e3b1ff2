//! A risk group is named by its least link, so one walk over the links comes to each group once, and in the order of their least
//! links.
ghost use Rattle.std.specs.Prelude.{◌≡◌, ◌++◌, ◌∷◌, [], OnOk, IfOk};
ghost use Rattle.wi_net.specs.Net.{all_links, widened};
ghost use Rattle.wi_outage.specs.Outages.{group_outages};
ghost use Rattle.wi_outage.specs.private.Making.{group_outages_of};

use crate::outage::{Outage, add_spared};
use std::alloc::Global;
use wi_base::{Listed, NoMemory};
use wi_net::{Bounds, FailSet, LinkId, Network};

/// The outages of a network's risk groups, but for those with a link that is given as down or up: in the order of their least
/// links. It costs in the number of links.
pub fn group_outages(
    alloc: Global,
    net: &Network,
    given: &Bounds,
) -> Result<Listed<Outage>, NoMemory>
    ensures { IfOk result (λ outages. outages ≡ group_outages net.now given.now) }
{
    let mut outages = Vec::new(alloc);
    match add_groups(alloc, net, given, &mut outages) {
        Ok(()) => Ok(Listed::of(outages)),
        Err(error) => {
            drop(outages);
            Err(error)
        }
    }
}

// Adds the outages of all risk groups.
fn add_groups(
    alloc: Global,
    net: &Network,
    given: &Bounds,
    outages: &mut Vec<Outage>,
) -> Result<(), NoMemory>
    ensures { OnOk result (outages.new.items ≡ outages.old.items ++ group_outages_of net.now given.now (all_links net.now)) }
{
    for e in 0..net.counts().links {
        add_group(alloc, net, given, LinkId(e), outages)?;
    }
    Ok(())
}

// Adds the outage of the risk group that a link names, if it names one.
fn add_group(
    alloc: Global,
    net: &Network,
    given: &Bounds,
    link: LinkId,
    outages: &mut Vec<Outage>,
) -> Result<(), NoMemory>
    ensures { OnOk result (outages.new.items ≡ outages.old.items ++ group_outages_of net.now given.now (link ∷ [])) }
{
    if net.risk(link).0 == link.0 {
        add_spared(outages, given, None, group_of(alloc, net, link)?)?;
    }
    Ok(())
}

// The links of a link's risk group.
fn group_of(alloc: Global, net: &Network, link: LinkId) -> Result<FailSet, NoMemory>
    ensures { IfOk result (λ links. links ≡ widened net.now (link ∷ [])) }
{
    let mut links = FailSet::new(alloc);
    links.insert(link)?;
    net.widen(alloc, &links)
}
