//! How many risk groups may fail at all: where no more than the bounds allow, one that is taken out adds nothing.
ghost use Rattle.std.specs.Prelude.{◌≡◌, ◌&&◌, ◌==◌, not};
ghost use Rattle.wi_net.specs.LinkSet.{has};
ghost use Rattle.wi_net.specs.Net.{risk_of};
ghost use Rattle.wi_settle.specs.private.Asking.{free_groups};

use wi_net::{Bounds, LinkId, Network};

/// How many risk groups are neither known to be down nor known to be up. It costs in the number of links.
pub(crate) fn free_groups(net: &Network, bounds: &Bounds) -> u32
    ensures { result ≡ free_groups net.now bounds.now }
{
    let mut count = 0;
    for e in 0..net.counts().links {
        if is_free(net, bounds, LinkId(e)) {
            count += 1;
        }
    }
    count
}

// Whether a link stands for its risk group, of which nothing is known.
fn is_free(net: &Network, bounds: &Bounds, link: LinkId) -> bool
    ensures { result ≡ (not (has bounds.now.up link) && not (has bounds.now.down link) && ((risk_of net.now link).0 == link.0)) }
{
    !bounds.up.contains(link) && !bounds.down.contains(link) && net.risk(link).0 == link.0
}
