//! A branch is bounds, and so are its two children: nothing of the network is copied for them but two lists of links.
ghost use Rattle.std.specs.Prelude.{◌≡◌, ◌<◌, IfOk};
ghost use Rattle.wi_net.specs.Net.{widened, with_risk};
ghost use Rattle.wi_world.specs.Moves.{AreBounds};
ghost use Rattle.wi_trees.specs.Branches.{with_down, with_up};

use std::alloc::Global;
use wi_base::NoMemory;
use wi_net::{Bounds, FailSet, LinkId, Network};

// A union of risk groups with a link's risk group.
#[tactic(auto, using(crate::proofs::WidenLaws::widened_with))]
fn with_risk(alloc: Global, net: &Network, set: &FailSet, link: LinkId) -> Result<FailSet, NoMemory>
    requires { widened net.now set.now ≡ set.now }
    ensures { IfOk result (λ s. s ≡ with_risk net.now set.now link) }
{
    let mut more = set.twin()?;
    more.insert(link)?;
    net.widen(alloc, &more)
}

/// The child of a branch in which a link's risk group is down.
pub fn with_down(
    alloc: Global,
    net: &Network,
    branch: &Bounds,
    link: LinkId,
) -> Result<Bounds, NoMemory>
    requires bounds { AreBounds net.now branch.now }
    requires room { 0 < branch.now.k }
    ensures { IfOk result (λ child. child ≡ with_down net.now branch.now link) }
{
    let down = with_risk(alloc, net, &branch.down, link)?;
    let up = branch.up.twin()?;
    Ok(Bounds {
        k: branch.k - 1,
        down,
        up,
    })
}

/// The child of a branch in which it is up.
pub fn with_up(
    alloc: Global,
    net: &Network,
    branch: &Bounds,
    link: LinkId,
) -> Result<Bounds, NoMemory>
    requires { AreBounds net.now branch.now }
    ensures { IfOk result (λ child. child ≡ with_up net.now branch.now link) }
{
    let down = branch.down.twin()?;
    let up = with_risk(alloc, net, &branch.up, link)?;
    Ok(Bounds {
        k: branch.k,
        down,
        up,
    })
}
