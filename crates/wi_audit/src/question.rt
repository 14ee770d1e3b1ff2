//! A policy is asked for all outages at once as far as that goes. What is known of it then is kept, and its query isn't, whose automata
//! may take as much memory as a whole file of policies.
ghost use Rattle.std.specs.Prelude.{◌≡◌, [], IfOk, OnOk, string_bytes};
ghost use Rattle.wi_query.specs.declared.query.Query.{Query};
ghost use Rattle.wi_world.specs.Moves.{AreBounds};
ghost use Rattle.wi_policy.specs.Policies.{IsAskable};
ghost use Rattle.wi_audit.specs.Audits.{AreAskable};
ghost use Rattle.wi_audit.specs.Questions.{IsKnown, IsQuestion};
ghost use Rattle.wi_audit.specs.private.Trials.{AreQuestions};

use std::alloc::Global;
use wi_base::NoMemory;
use wi_build::Problem;
use wi_net::{Bounds, Network};
use wi_policy::{Policy, asked_by};
use wi_quantity::Vector;
use wi_settle::{Settled, settle};

/// What is known of a policy for all outages at once, within the bounds in which it is asked.
#[derive(Drop)]
pub struct Question {
    pub bounds: Bounds,
    pub settled: Settled,
}

/// Asks a policy of a network, where some links are given as down or up, for all outages at once; `single` says that each of them is a
/// single risk group. It costs the searches that `settle` makes.
pub fn question_of(
    alloc: Global,
    net: &Network,
    given: &Bounds,
    policy: &Policy,
    single: bool,
) -> Result<Question, NoMemory>
    requires bounds { AreBounds net.now given.now }
    requires askable { (query : Query) × IsAskable net.now given.now (string_bytes policy.now.query) query }
    ensures { IfOk result (IsQuestion net.now given.now policy.now) }
{
    let query = asked_by(alloc, net, given, policy)?;
    let vector = Vector::new(alloc);
    let question = known_of(alloc, &Problem::of(net, &query, &vector), single);
    drop((query, vector));
    question
}

// What is known of a problem for all outages at once.
fn known_of(alloc: Global, problem: &Problem<'_>, single: bool) -> Result<Question, NoMemory>
    ensures { IfOk result (IsKnown problem.now) }
{
    problem.keeps();
    let bounds = problem.bounds().twin()?;
    match settle(alloc, problem, single) {
        Ok(settled) => Ok(Question { bounds, settled }),
        Err(error) => {
            drop(bounds);
            Err(error)
        }
    }
}

/// The questions of policies, in order.
pub(crate) fn questions(
    alloc: Global,
    net: &Network,
    given: &Bounds,
    policies: &[Policy],
    single: bool,
) -> Result<Vec<Question>, NoMemory>
    requires bounds { AreBounds net.now given.now }
    requires askable { AreAskable net.now given.now policies.now }
    ensures { IfOk result (λ questions. AreQuestions net.now given.now policies.now questions.items) }
{
    let mut questions = Vec::new(alloc);
    match add_questions(alloc, net, given, policies, single, &mut questions) {
        Ok(()) => Ok(questions),
        Err(error) => {
            drop(questions);
            Err(error)
        }
    }
}

// Adds them where there are none yet.
fn add_questions(
    alloc: Global,
    net: &Network,
    given: &Bounds,
    policies: &[Policy],
    single: bool,
    questions: &mut Vec<Question>,
) -> Result<(), NoMemory>
    requires bounds { AreBounds net.now given.now }
    requires askable { AreAskable net.now given.now policies.now }
    requires none { questions.old.items ≡ [] }
    ensures { OnOk result (AreQuestions net.now given.now policies.now questions.new.items) }
{
    for policy in policies {
        questions.push(question_of(alloc, net, given, policy, single)?)?;
    }
    Ok(())
}
