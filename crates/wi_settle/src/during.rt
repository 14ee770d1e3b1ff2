//! What isn't settled for an outage is asked with the outage's links known to be down.
ghost use Rattle.std.specs.Prelude.{◌≡◌, IfOk, OnOk};
ghost use Rattle.wi_outage.specs.Survival.{with_down};
ghost use Rattle.wi_world.specs.Moves.{AreBounds};
ghost use Rattle.wi_build.specs.Problems.{Problem};
ghost use Rattle.wi_settle.specs.Findings.{AskAlike, IsFound, IsSettled, during};
ghost use Rattle.wi_settle.specs.private.Asking.{IsReply};

use crate::asking::ask;
use crate::found::Found;
use crate::settled::{Reply, Settled};
use std::alloc::Global;
use wi_base::NoMemory;
use wi_build::Problem;
use wi_net::{Bounds, FailSet};
use wi_trace::insert_all;

/// What is found of a problem while these links are down, too, by a search. A run that is found is taken in, so that it settles
/// other outages, also where what is known is of another reading of the same question. Where memory runs out, it is as before.
pub fn ask_during(
    alloc: Global,
    settled: &mut Settled,
    problem: &Problem<'_>,
    outage: &FailSet,
) -> Result<Found, NoMemory>
    requires { AreBounds problem.now.net (with_down problem.now.bounds outage.now) }
    ensures found { IfOk result (IsFound (during problem.now outage.now)) }
    ensures settled { (known : Problem) → AskAlike known problem.now → IsSettled known settled.old → IsSettled known settled.new }
{
    let reply = reply_during(alloc, problem, outage)?;
    settled.note(reply)
}

// Asks while these links are down, too.
fn reply_during(alloc: Global, problem: &Problem<'_>, outage: &FailSet) -> Result<Reply, NoMemory>
    requires { AreBounds problem.now.net (with_down problem.now.bounds outage.now) }
    ensures { IfOk result (IsReply (during problem.now outage.now)) }
{
    let bounds = bounds_during(problem.bounds(), outage)?;
    let reply = ask(alloc, &problem.within(&bounds));
    drop(bounds);
    reply
}

// The bounds, with these links known to be down, too.
fn bounds_during(bounds: &Bounds, outage: &FailSet) -> Result<Bounds, NoMemory>
    ensures { IfOk result (λ during. during ≡ with_down bounds.now outage.now) }
{
    let mut during = bounds.twin()?;
    match insert_all(&mut during.down, outage) {
        Ok(()) => Ok(during),
        Err(error) => {
            drop(during);
            Err(error)
        }
    }
}
