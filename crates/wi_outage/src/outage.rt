//! The links of an outage are made once, as a set, since many questions are asked with them down. A router is kept beside them, since
//! an outage of one is called by it, and one of a risk group by its links.
ghost use Rattle.std.specs.Prelude.{◌≡◌, ◌++◌, ◌∷◌, [], OnOk};
ghost use Rattle.wi_outage.specs.Outages.{is_spared, spared};

use crate::sets::are_apart;
use wi_base::NoMemory;
use wi_net::{Bounds, FailSet, RouterId};

/// What is taken out: a router, or a risk group.
#[derive(Drop)]
pub struct Outage {
    /// The router. Without one it is a risk group.
    pub router: Option<RouterId>,
    /// The links that are down then, in whole risk groups.
    pub links: FailSet,
}

/// Adds an outage, unless one of its links is given as down or up.
pub(crate) fn add_spared(
    outages: &mut Vec<Outage>,
    given: &Bounds,
    router: Option<RouterId>,
    links: FailSet,
) -> Result<(), NoMemory>
    ensures { OnOk result (outages.new.items ≡ outages.old.items ++ spared given.now (record { router = router; links = links } ∷ [])) }
{
    if is_spared(given, &links) {
        outages.push(Outage { router, links })?;
    } else {
        drop(links);
    }
    Ok(())
}

// Whether no link of a set is given as down or up.
fn is_spared(given: &Bounds, links: &FailSet) -> bool
    ensures { result ≡ is_spared given.now links.now }
{
    are_apart(links, &given.down) && are_apart(links, &given.up)
}
