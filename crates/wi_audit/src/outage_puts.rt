//! Policies are asked for all outages at once first, and then outage by outage for what isn't settled by that; what becomes of them in one
//! is put before the next one is tried.
ghost use Rattle.std.specs.Prelude.{◌≡◌, ◌<◌, ◌-◌, ◌^◌, ℕ, List, not, IfOk, IfErr, OnOk};
ghost use Rattle.std.specs.List.{All};
ghost use Rattle.wi_world.specs.Moves.{AreBounds};
ghost use Rattle.wi_outcome.specs.Edges.{PutAll};
ghost use Rattle.wi_audit.specs.Audits.{AreAskable, AreOutagesBrokenOff, AreOutagesTested, tried_outages};
ghost use Rattle.wi_audit.specs.Outages.{IsOutageTested};
ghost use Rattle.wi_audit.specs.Series.{IsBrokenOff, IsSeries};
ghost use Rattle.wi_audit.specs.private.Puts.{AreAllPut, AreSomePut};
ghost use Rattle.wi_audit.specs.private.Trials.{AreQuestions, IsTrial};

use crate::outage_text::test_of;
use crate::outcome::Fulfilment;
use crate::question::{Question, questions};
use crate::series::{Test, exit_status, put_plan, put_test, worse};
use crate::trying::tried_during;
use std::alloc::Global;
use wi_base::{Listed, NoMemory, PutRefused, Sink};
use wi_net::{Bounds, Network};
use wi_outage::{Outage, group_outages, router_outages};
use wi_policy::Policy;

/// Asks policies of a network, where some links are given as down or up, while one risk group or, where that is said, one router is out,
/// for each by itself. It puts the plan, and then the lines of each outage. The exit status is as that of `audit`. Each policy costs the
/// searches that settle it for all outages at once, and one for each outage that isn't settled by them.
pub fn outages<O: Sink>(
    alloc: Global,
    net: &Network,
    given: &Bounds,
    policies: &[Policy],
    routers: bool,
    out: &mut O,
) -> Result<u8, PutRefused>
    requires out { (O.seen out.old).faults < 2 ^ 64 - 1 }
    requires bounds { AreBounds net.now given.now }
    requires askable { AreAskable net.now given.now policies.now }
    ensures told { (O.seen out.new).told ≡ (O.seen out.old).told }
    ensures tested { IfOk result (λ status. (text : List ℕ) × AreOutagesTested net.now given.now policies.now routers text status × PutAll text (O.seen out.old) (O.seen out.new)) }
    ensures broken { IfErr result (λ refused. AreOutagesBrokenOff net.now given.now policies.now routers refused (O.seen out.old) (O.seen out.new)) }
{
    match tried_outages(alloc, net, given, routers) {
        Ok(outages) => {
            let status = put_all(
                alloc,
                net,
                given,
                policies,
                outages.as_slice(),
                !routers,
                out,
            );
            drop(outages);
            status
        }
        Err(NoMemory::Memory) => Err(PutRefused::Memory),
    }
}

// The outages that are tried.
fn tried_outages(
    alloc: Global,
    net: &Network,
    given: &Bounds,
    routers: bool,
) -> Result<Listed<Outage>, NoMemory>
    ensures outages { IfOk result (λ outages. outages ≡ tried_outages net.now given.now routers) }
    ensures trials { IfOk result (λ outages. All (IsTrial net.now (not routers)) outages) }
{
    if routers {
        router_outages(alloc, net, given)
    } else {
        group_outages(alloc, net, given)
    }
}

// Puts how many outages there are, and then the lines of each.
fn put_all<O: Sink>(
    alloc: Global,
    net: &Network,
    given: &Bounds,
    policies: &[Policy],
    outages: &[Outage],
    single: bool,
    out: &mut O,
) -> Result<u8, PutRefused>
    requires out { (O.seen out.old).faults < 2 ^ 64 - 1 }
    requires bounds { AreBounds net.now given.now }
    requires askable { AreAskable net.now given.now policies.now }
    requires trials { All (IsTrial net.now single) outages.now }
    ensures told { (O.seen out.new).told ≡ (O.seen out.old).told }
    ensures tested { IfOk result (λ status. (text : List ℕ) × IsSeries (IsOutageTested net.now given.now policies.now) outages.now text status × PutAll text (O.seen out.old) (O.seen out.new)) }
    ensures broken { IfErr result (λ refused. IsBrokenOff (IsOutageTested net.now given.now policies.now) outages.now refused (O.seen out.old) (O.seen out.new)) }
{
    put_plan(alloc, outages.len(), out)?;
    match questions(alloc, net, given, policies, single) {
        Ok(mut questions) => {
            let status = put_each(
                alloc,
                net,
                given,
                policies,
                &mut questions,
                outages,
                single,
                out,
            );
            drop(questions);
            status
        }
        Err(NoMemory::Memory) => Err(PutRefused::Memory),
    }
}

// Puts the lines of each outage.
fn put_each<O: Sink>(
    alloc: Global,
    net: &Network,
    given: &Bounds,
    policies: &[Policy],
    questions: &mut Vec<Question>,
    outages: &[Outage],
    single: bool,
    out: &mut O,
) -> Result<u8, PutRefused>
    requires out { (O.seen out.old).faults < 2 ^ 64 - 1 }
    requires bounds { AreBounds net.now given.now }
    requires askable { AreAskable net.now given.now policies.now }
    requires questions { AreQuestions net.now given.now policies.now questions.old.items }
    requires trials { All (IsTrial net.now single) outages.now }
    ensures told { (O.seen out.new).told ≡ (O.seen out.old).told }
    ensures all { IfOk result (λ status. AreAllPut (IsOutageTested net.now given.now policies.now) outages.now status (O.seen out.old) (O.seen out.new)) }
    ensures some { IfErr result (λ refused. AreSomePut (IsOutageTested net.now given.now policies.now) outages.now refused (O.seen out.old) (O.seen out.new)) }
{
    let mut worst = Fulfilment::AsExpected;
    for (i, outage) in outages.iter().enumerate() {
        let made = outage_tested(
            alloc,
            net,
            given,
            policies,
            questions,
            i + 1,
            outage,
            single,
        );
        let fulfilment = put_test(made, out)?;
        worst = worse(worst, fulfilment);
    }
    Ok(exit_status(worst))
}

// The test of an outage with its number, from 1.
fn outage_tested(
    alloc: Global,
    net: &Network,
    given: &Bounds,
    policies: &[Policy],
    questions: &mut Vec<Question>,
    number: usize,
    outage: &Outage,
    single: bool,
) -> Result<Test, NoMemory>
    requires bounds { AreBounds net.now given.now }
    requires askable { AreAskable net.now given.now policies.now }
    requires questions { AreQuestions net.now given.now policies.now questions.old.items }
    requires trial { IsTrial net.now single outage.now }
    ensures tested { IfOk result (IsOutageTested net.now given.now policies.now number outage.now) }
    ensures questions { OnOk result (AreQuestions net.now given.now policies.now questions.new.items) }
{
    let tried = tried_during(
        alloc,
        net,
        given,
        policies,
        questions,
        &outage.links,
        single,
    )?;
    let test = test_of(alloc, net, number, outage, policies, &tried);
    drop(tried);
    test
}
