//! Most of what is asked for an outage is known from what was asked for all of them. A query is read again only for what isn't.
ghost use Rattle.std.specs.Prelude.{◌≡◌, true, IfOk, OnOk, string_bytes};
ghost use Rattle.wi_query.specs.declared.query.Query.{Query};
ghost use Rattle.wi_world.specs.Moves.{AreBounds};
ghost use Rattle.wi_net.specs.LinkSet.{is_apart};
ghost use Rattle.wi_net.specs.Net.{widened};
ghost use Rattle.wi_policy.specs.Policies.{IsAskable, IsAsked};
ghost use Rattle.wi_audit.specs.Audits.{AreAskable};
ghost use Rattle.wi_audit.specs.Outages.{AreTried, IsTried};
ghost use Rattle.wi_audit.specs.Questions.{IsQuestion, IsTaken};
ghost use Rattle.wi_audit.specs.private.Trials.{AreQuestions, IsFoundIn};

use crate::question::Question;
use std::alloc::Global;
use wi_base::NoMemory;
use wi_build::Problem;
use wi_net::{Bounds, FailSet, Network};
use wi_outage::are_apart;
use wi_policy::{Policy, asked_by};
use wi_quantity::Vector;
use wi_settle::{Found, Settled, ask_during, settled_for};

/// What is found of a policy while an outage's links are down, too, or that it isn't asked, since its bounds know one of them to be up.
/// The links are whole risk groups, where `single` is said a single one. It takes a search only where it isn't known, and what that finds
/// is taken in.
pub fn found_during(
    alloc: Global,
    net: &Network,
    given: &Bounds,
    policy: &Policy,
    question: &mut Question,
    outage: &FailSet,
    single: bool,
) -> Result<Option<Found>, NoMemory>
    requires bounds { AreBounds net.now given.now }
    requires askable { (query : Query) × IsAskable net.now given.now (string_bytes policy.now.query) query }
    requires question { IsQuestion net.now given.now policy.now question.old }
    requires taken { IsTaken net.now single outage.now }
    ensures tried { IfOk result (IsTried net.now given.now outage.now policy.now) }
    ensures question { OnOk result (IsQuestion net.now given.now policy.now question.new) }
{
    if !are_apart(outage, &question.bounds.up) {
        return Ok(None);
    }
    match settled_for(&question.settled, net, &question.bounds, outage, single) {
        Some(found) => Ok(Some(found)),
        None => {
            let found = found_by_search(alloc, net, given, policy, &mut question.settled, outage)?;
            Ok(Some(found))
        }
    }
}

// The same by a search, where the policy is asked.
fn found_by_search(
    alloc: Global,
    net: &Network,
    given: &Bounds,
    policy: &Policy,
    settled: &mut Settled,
    outage: &FailSet,
) -> Result<Found, NoMemory>
    requires bounds { AreBounds net.now given.now }
    requires askable { (query : Query) × IsAskable net.now given.now (string_bytes policy.now.query) query }
    requires asked { (query : Query) → IsAsked net.now given.now (string_bytes policy.now.query) query → is_apart outage.now query.bounds.up ≡ true }
    requires whole { widened net.now outage.now ≡ outage.now }
    ensures { IfOk result (IsFoundIn net.now given.now outage.now policy.now settled.old settled.new) }
{
    let query = asked_by(alloc, net, given, policy)?;
    let vector = Vector::new(alloc);
    let problem = Problem::of(net, &query, &vector);
    problem.keeps();
    let found = ask_during(alloc, settled, &problem, outage);
    drop((query, vector));
    found
}

/// What is found of each policy.
pub(crate) fn tried_during(
    alloc: Global,
    net: &Network,
    given: &Bounds,
    policies: &[Policy],
    questions: &mut Vec<Question>,
    outage: &FailSet,
    single: bool,
) -> Result<Vec<Option<Found>>, NoMemory>
    requires bounds { AreBounds net.now given.now }
    requires askable { AreAskable net.now given.now policies.now }
    requires questions { AreQuestions net.now given.now policies.now questions.old.items }
    requires taken { IsTaken net.now single outage.now }
    ensures tried { IfOk result (λ tried. AreTried net.now given.now outage.now policies.now tried.items) }
    ensures questions { OnOk result (AreQuestions net.now given.now policies.now questions.new.items) }
{
    let mut tried = Vec::new(alloc);
    for (i, policy) in policies.iter().enumerate() {
        tried.push(found_during(alloc, net, given, policy, &mut questions[i], outage, single)?)?;
    }
    Ok(tried)
}
