//! Whether a run that was found settles an outage, too, is asked for each outage and each policy, so it takes neither memory nor a
//! search.
ghost use Rattle.std.specs.Prelude.{◌≡◌};
ghost use Rattle.wi_outage.specs.Survival.{is_survived};

use crate::sets::{are_apart, are_outside, count_besides};
use wi_net::{Bounds, FailSet, LinkId, Network};

/// Whether a run that uses these links, while others have failed, goes on while those of an outage are down, too, within the
/// bounds with these known to be down. The failed links and those of the outage are unions of risk groups. It costs in the sizes of
/// the sets, with a look-up by halves for each link, and takes no memory.
#[tactic(auto, using(crate::proofs::Unions::apart_flip))]
pub fn is_survived(
    net: &Network,
    bounds: &Bounds,
    fails: &FailSet,
    used: &[LinkId],
    outage: &FailSet,
) -> bool
    ensures { result ≡ is_survived net.now bounds.now fails.now used.now outage.now }
{
    are_apart(outage, &bounds.up)
        && are_outside(used, outage)
        && count_besides(net, fails, &bounds.down, outage) <= bounds.k as usize
}
