//! The automata of a policy, its answer and the tree that shows it are let go before the next policy is asked: all that is kept of
//! one is its lines.
ghost use Rattle.std.specs.Prelude.{◌≡◌, IfOk, string_bytes};
ghost use Rattle.wi_query.specs.declared.query.Query.{Query};
ghost use Rattle.wi_world.specs.Moves.{AreBounds};
ghost use Rattle.wi_policy.specs.Policies.{IsAskable};
ghost use Rattle.wi_audit.specs.Outcomes.{fulfilment_of};
ghost use Rattle.wi_audit.specs.Texts.{IsAudited, policy_text};
ghost use Rattle.wi_audit.specs.private.Shows.{IsShowable, IsToldOf};

use crate::outcome::{Outcome, fulfilment_of, outcome_of};
use crate::series::Test;
use crate::text::lines_by;
use std::alloc::Global;
use wi_base::NoMemory;
use wi_build::Problem;
use wi_net::{Bounds, Network};
use wi_policy::{Policy, asked_by};
use wi_quantity::Vector;

/// Asks a policy of a network, where some links are given as down or up: its lines, with its number from 1, and whether it is as
/// expected.
pub fn audited(
    alloc: Global,
    net: &Network,
    given: &Bounds,
    number: usize,
    policy: &Policy,
) -> Result<Test, NoMemory>
    requires bounds { AreBounds net.now given.now }
    requires askable { (query : Query) × IsAskable net.now given.now (string_bytes policy.now.query) query }
    ensures { IfOk result (IsAudited net.now given.now number policy.now) }
{
    let query = asked_by(alloc, net, given, policy)?;
    let vector = Vector::new(alloc);
    let audited = audited_by(alloc, &Problem::of(net, &query, &vector), number, policy);
    drop((query, vector));
    audited
}

// The lines of a policy that asks this problem.
fn audited_by(
    alloc: Global,
    problem: &Problem<'_>,
    number: usize,
    policy: &Policy,
) -> Result<Test, NoMemory>
    ensures { IfOk result (IsToldOf problem.now number policy.now) }
{
    problem.keeps();
    let outcome = outcome_of(alloc, problem)?;
    let audited = told_of(alloc, problem, number, policy, &outcome);
    drop(outcome);
    audited
}

// The lines of a policy with this outcome.
fn told_of(
    alloc: Global,
    problem: &Problem<'_>,
    number: usize,
    policy: &Policy,
    outcome: &Outcome,
) -> Result<Test, NoMemory>
    requires { IsShowable problem.now.net outcome.now }
    ensures text { IfOk result (λ test. test.text ≡ policy_text problem.now number policy.now outcome.now) }
    ensures fulfilment { IfOk result (λ test. test.fulfilment ≡ fulfilment_of policy.now.word outcome.now) }
{
    let fulfilment = fulfilment_of(policy.word, outcome);
    let text = lines_by(alloc, fulfilment, problem, number, policy, outcome)?;
    Ok(Test { text, fulfilment })
}
