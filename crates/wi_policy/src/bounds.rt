//! The links that are given are joined to the bounds of a query in place, in whole risk groups as both have them. What is torn
//! is looked for in the joined bounds, since a link that is given as up may be one that the query knows down.
ghost use Rattle.std.specs.Prelude.{◌≡◌, OnOk};
ghost use Rattle.std.specs.List.{find};
ghost use Rattle.wi_net.specs.LinkSet.{has};
ghost use Rattle.wi_policy.specs.Policies.{joined, torn};

use wi_base::NoMemory;
use wi_net::{Bounds, FailSet, LinkId};
use wi_trace::{insert_all, nth};

/// Takes in the links that are given as down and up.
pub(crate) fn join(bounds: &mut Bounds, given: &Bounds) -> Result<(), NoMemory>
    ensures { OnOk result (bounds.new ≡ joined bounds.old given.now) }
{
    insert_all(&mut bounds.down, &given.down)?;
    insert_all(&mut bounds.up, &given.up)
}

/// The least link that is both down and up.
pub(crate) fn first_torn(bounds: &Bounds) -> Option<LinkId>
    ensures { result ≡ torn bounds.now }
{
    first_in(&bounds.down, &bounds.up)
}

// The least link of a set that is in another one.
#[tactic(auto, using(wi_labels::proofs::HeaderLemmas::drop_at))]
fn first_in(set: &FailSet, other: &FailSet) -> Option<LinkId>
    ensures { result ≡ find (λ e. has other.now e) set.now }
{
    for i in 0..set.len() {
        let link = nth(set, i);
        if other.contains(link) {
            return Some(link);
        }
    }
    None
}
