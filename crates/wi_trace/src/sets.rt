//! What is asked of two sets is answered without making a third: each link of the one is looked up in the other, by halves. A
//! union is made in place, and each link that is added moves those behind it.
ghost use Rattle.std.specs.Prelude.{◌≡◌, ◌<◌, ◌&&◌, ◌==◌, ℕ, not, length, slice_get, take, OnErr, OnOk};
ghost use Rattle.std.specs.List.{find};
ghost use Rattle.wi_net.specs.LinkSet.{has, outside};
ghost use Rattle.wi_net.specs.Net.{risk_of, risk_count};
ghost use Rattle.wi_net.specs.RiskGroups.{union};

use wi_base::NoMemory;
use wi_net::{FailSet, LinkId, Network};

/// The link at a place of a set, in rising order. It takes no memory.
pub fn nth(set: &FailSet, i: usize) -> LinkId
    requires { i < length set.now }
    ensures { slice_get set.now i ≡ Some result }
{
    set.at(i).unwrap()
}

/// How many risk groups of a union of them aren't in another one. It takes no memory.
pub(crate) fn count_outside(net: &Network, set: &FailSet, known: &FailSet) -> usize
    ensures { result ≡ risk_count net.now (outside set.now known.now) }
{
    let mut count = 0;
    for i in 0..set.len() {
        if counts(net, known, nth(set, i)) {
            count += 1;
        }
    }
    count
}

// Whether a link stands for its risk group, which isn't known.
fn counts(net: &Network, known: &FailSet, link: LinkId) -> bool
    ensures { result ≡ (not (has known.now link) && ((risk_of net.now link).0 == link.0)) }
{
    !known.contains(link) && net.risk(link).0 == link.0
}

/// The first link of a set that is in another one. It takes no memory.
#[tactic(auto, using(wi_labels::proofs::HeaderLemmas::drop_at))]
pub(crate) fn first_in(set: &FailSet, other: &FailSet) -> Option<LinkId>
    ensures { result ≡ find (λ e. has other.now e) set.now }
{
    for i in 0..set.len() {
        let link = nth(set, i);
        if other.contains(link) {
            return Some(link);
        }
    }
    None
}

/// Adds each link of another set, in rising order. Where memory runs out, the first so many of them have been added.
pub fn insert_all(set: &mut FailSet, more: &FailSet) -> Result<(), NoMemory>
    ensures ok { OnOk result (set.new ≡ union set.old more.now) }
    ensures err { OnErr result ((n : ℕ) × (set.new ≡ union set.old (take n more.now))) }
{
    for i in 0..more.len() {
        set.insert(nth(more, i))?;
    }
    Ok(())
}
