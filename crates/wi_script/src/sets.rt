//! A repair takes a whole risk group out of the failed links in place, without memory. Each link is looked for by halves, and
//! moves those behind it.
ghost use Rattle.std.specs.Prelude.{◌≡◌};
ghost use Rattle.wi_net.specs.LinkSet.{outside};

use wi_net::FailSet;
use wi_trace::nth;

/// Takes each link of another set out. It takes no memory.
#[tactic(auto, using(wi_labels::proofs::HeaderLemmas::drop_at, crate::proofs::SetLemmas::outside_next, crate::proofs::SetLemmas::outside_none))]
pub(crate) fn remove_all(set: &mut FailSet, fewer: &FailSet)
    ensures { set.new ≡ outside set.old fewer.now }
{
    for i in 0..fewer.len() {
        set.remove(nth(fewer, i));
    }
}
