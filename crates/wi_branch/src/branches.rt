//! What a branch leaves open: a link by which it can be split.
ghost use Rattle.std.specs.Prelude.{◌≡◌, ◌<◌, ◌&&◌, not, length, slice_get, Some};
ghost use Rattle.std.specs.List.{find};
ghost use Rattle.wi_net.specs.LinkSet.{has};

use wi_net::{Bounds, FailSet, LinkId};

// The link at a place.
fn link_at(set: &FailSet, i: usize) -> LinkId
    requires { i < length set.now }
    ensures { slice_get set.now i ≡ Some result }
{
    set.at(i).unwrap()
}

/// The first link of a set that a branch has neither down nor up. It takes no memory.
#[tactic(auto, using(wi_labels::proofs::HeaderLemmas::drop_at))]
pub(crate) fn first_free(set: &FailSet, branch: &Bounds) -> Option<LinkId>
    ensures { result ≡ find (λ e. not (has branch.now.down e) && not (has branch.now.up e)) set.now }
{
    for i in 0..set.len() {
        let link = link_at(set, i);
        if is_free(branch, link) {
            return Some(link);
        }
    }
    None
}

// Whether a branch has a link neither down nor up.
fn is_free(branch: &Bounds, link: LinkId) -> bool
    ensures { result ≡ (not (has branch.now.down link) && not (has branch.now.up link)) }
{
    !branch.down.contains(link) && !branch.up.contains(link)
}
