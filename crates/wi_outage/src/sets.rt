//! What is asked of sets is answered without making another: each link of the one is looked up in the other, by halves.
ghost use Rattle.std.specs.Prelude.{◌≡◌, ◌<◌, ◌&&◌, ◌==◌, not, length, slice_get, Some};
ghost use Rattle.wi_net.specs.LinkSet.{has, is_apart, outside};
ghost use Rattle.wi_net.specs.Net.{risk_of, risk_count};

use wi_net::{FailSet, LinkId, Network};

// The link at a place of a set, in rising order.
fn nth(set: &FailSet, i: usize) -> LinkId
    requires { i < length set.now }
    ensures { slice_get set.now i ≡ Some result }
{
    set.at(i).unwrap()
}

/// Whether two sets have no link in common. It takes no memory.
#[tactic(auto, using(wi_labels::proofs::HeaderLemmas::drop_at))]
pub fn are_apart(set: &FailSet, other: &FailSet) -> bool
    ensures { result ≡ is_apart set.now other.now }
{
    for i in 0..set.len() {
        if other.contains(nth(set, i)) {
            return false;
        }
    }
    true
}

/// Whether none of the listed links is in a set.
pub(crate) fn are_outside(links: &[LinkId], set: &FailSet) -> bool
    ensures { result ≡ is_apart links.now set.now }
{
    links.iter().all(|link| !set.contains(*link))
}

/// How many risk groups of a union of them are in neither of two others.
pub(crate) fn count_besides(net: &Network, set: &FailSet, one: &FailSet, other: &FailSet) -> usize
    ensures { result ≡ risk_count net.now (outside (outside set.now one.now) other.now) }
{
    let mut count = 0;
    for i in 0..set.len() {
        if counts(net, one, other, nth(set, i)) {
            count += 1;
        }
    }
    count
}

// Whether a link stands for its risk group, which is in neither set.
fn counts(net: &Network, one: &FailSet, other: &FailSet, link: LinkId) -> bool
    ensures { result ≡ (not (has one.now link) && not (has other.now link) && ((risk_of net.now link).0 == link.0)) }
{
    !one.contains(link) && !other.contains(link) && net.risk(link).0 == link.0
}
