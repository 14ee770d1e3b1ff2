//! What is asked of two sets is answered without making a third: each link of the one is looked up in the other, by halves.
ghost use Rattle.std.specs.Prelude.{◌≡◌, OnOk};
ghost use Rattle.wi_net.specs.LinkSet.{is_within, outside};
ghost use Rattle.wi_net.specs.RiskGroups.{union};

use wi_base::NoMemory;
use wi_net::FailSet;
use wi_trace::nth;

/// Whether each link of a set is in another one.
#[tactic(auto, using(wi_labels::proofs::HeaderLemmas::drop_at))]
pub(crate) fn is_within(set: &FailSet, other: &FailSet) -> bool
    ensures { result ≡ is_within set.now other.now }
{
    for i in 0..set.len() {
        if !other.contains(nth(set, i)) {
            return false;
        }
    }
    true
}

/// Adds the links of another set that aren't in a third.
#[tactic(auto, using(wi_labels::proofs::HeaderLemmas::drop_at))]
pub(crate) fn insert_outside(
    set: &mut FailSet,
    more: &FailSet,
    known: &FailSet,
) -> Result<(), NoMemory>
    ensures { OnOk result (set.new ≡ union set.old (outside more.now known.now)) }
{
    for i in 0..more.len() {
        let link = nth(more, i);
        if !known.contains(link) {
            set.insert(link)?;
        }
    }
    Ok(())
}
