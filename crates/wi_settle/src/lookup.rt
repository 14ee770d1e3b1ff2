//! An outage is looked up for each question that is asked, so no query is read for that, no automaton made, and no memory taken.
ghost use Rattle.std.specs.Prelude.{◌≡◌, true, Some, IfSome};
ghost use Rattle.wi_net.specs.LinkSet.{is_within};
ghost use Rattle.wi_build.specs.Problems.{Problem, IsProblem};
ghost use Rattle.wi_settle.specs.Findings.{IsFound, IsOutageOf, IsSettled, during};

use crate::found::Found;
use crate::sets::is_within;
use crate::settled::Settled;
use wi_net::{Bounds, FailSet, Network};

/// What is known of a question while these links are down, too, if anything is. The network and the bounds are the question's, the
/// links are whole risk groups without one that the bounds know to be up, and where `single` is said they are a single one. It costs
/// in the number of runs that were found, each with the sizes of the sets.
pub fn settled_for(
    settled: &Settled,
    net: &Network,
    bounds: &Bounds,
    outage: &FailSet,
    single: bool,
) -> Option<Found>
    ensures found { (problem : Problem) → IsProblem problem → problem.net ≡ net.now → problem.bounds ≡ bounds.now → IsSettled problem settled.now → IsOutageOf problem single outage.now → IfSome result (IsFound (during problem outage.now)) }
    ensures known { is_within outage.now bounds.now.down ≡ true → result ≡ Some settled.now.own }
{
    if is_within(outage, &bounds.down) {
        return Some(settled.own());
    }
    if settled.survives(net, bounds, outage) {
        return Some(Found::Yes);
    }
    if single && settled.has_none(outage) {
        return Some(Found::No);
    }
    None
}
