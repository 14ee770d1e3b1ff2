//! All is read before the first policy is asked, so that a fault of any line is told before anything is printed. What is printed then
//! stands, whatever comes after it. Of outages the same is read as of policies, and only then is it decided what is tested.
ghost use Rattle.std.specs.Prelude.{◌≡◌, ◌<◌, ◌-◌, ◌^◌, ℕ, List, Some, IfOk, IfErr};
ghost use Rattle.wi_world.specs.Moves.{AreBounds};
ghost use Rattle.wi_audit.specs.Audits.{AreAskable};
ghost use Rattle.wi_words.specs.Commands.{Audit};
ghost use Rattle.wi_words.specs.Shown.{auditing_shown};
ghost use Rattle.wi_files.specs.Shelves.{AllStand};
ghost use Rattle.wi_outcome.specs.Edges.{PutAll};
ghost use Rattle.wi_app.specs.Audited.{AreTested, IsBrokenOff};
ghost use Rattle.wi_app.specs.Run.{DoesBy};
ghost use Rattle.wi_app.specs.private.Stages.{IsTelling};

use std::alloc::Global;
use wi_audit::{audit as test_policies, outages as test_outages};
use wi_base::{PutRefused, Shelf, Sink};
use wi_files::{Policies, fetch_policies};
use wi_outcome::{say, say_unprinted};
use wi_words::{Auditing, Tested};

/// Asks the policies of a file of a network, by themselves or in each outage, and prints what becomes of them; or says why not.
pub fn audit<'a, S: Shelf, O: Sink, E: Sink>(
    alloc: Global,
    auditing: Auditing<'a>,
    shelf: &mut S,
    out: &mut O,
    err: &mut E,
) -> u8
    requires out { (O.seen out.old).faults < 2 ^ 64 - 1 }
    requires err { (E.seen err.old).faults < 2 ^ 64 - 1 }
    ensures tells { ((S.seen shelf.new).told ≡ (S.seen shelf.old).told) × ((O.seen out.new).told ≡ (O.seen out.old).told) × ((E.seen err.new).told ≡ (E.seen err.old).told) }
    ensures files { AllStand (S.seen shelf.old) (S.seen shelf.new) }
    ensures does { DoesBy (Some (Audit (auditing_shown auditing.entry))) (S.seen shelf.old) (S.seen shelf.new) (O.seen out.old) (O.seen out.new) (E.seen err.old) (E.seen err.new) result }
{
    match fetch_policies(
        alloc,
        auditing.network,
        auditing.given,
        auditing.policies,
        shelf,
    ) {
        Ok(policies) => {
            let status = tell(alloc, auditing.tested, &policies, out, err);
            drop(policies);
            status
        }
        Err(refusal) => say(alloc, refusal, err),
    }
}

// Prints what becomes of policies, and gives the exit status; or says why not all of it is printed.
fn tell<O: Sink, E: Sink>(
    alloc: Global,
    tested: Tested,
    policies: &Policies,
    out: &mut O,
    err: &mut E,
) -> u8
    requires out { (O.seen out.old).faults < 2 ^ 64 - 1 }
    requires err { (E.seen err.old).faults < 2 ^ 64 - 1 }
    requires bounds { AreBounds policies.now.net policies.now.given }
    requires askable { AreAskable policies.now.net policies.now.given policies.now.listed }
    ensures tells { ((O.seen out.new).told ≡ (O.seen out.old).told) × ((E.seen err.new).told ≡ (E.seen err.old).told) }
    ensures told { IsTelling tested policies.now.net policies.now.given policies.now.listed (O.seen out.old) (O.seen out.new) (E.seen err.old) (E.seen err.new) result }
{
    match test_all(alloc, tested, policies, out) {
        Ok(status) => status,
        Err(refused) => say_unprinted(alloc, refused, err),
    }
}

// Tests each policy, or each outage.
fn test_all<O: Sink>(
    alloc: Global,
    tested: Tested,
    policies: &Policies,
    out: &mut O,
) -> Result<u8, PutRefused>
    requires out { (O.seen out.old).faults < 2 ^ 64 - 1 }
    requires bounds { AreBounds policies.now.net policies.now.given }
    requires askable { AreAskable policies.now.net policies.now.given policies.now.listed }
    ensures told { (O.seen out.new).told ≡ (O.seen out.old).told }
    ensures tested { IfOk result (λ status. (text : List ℕ) × AreTested tested policies.now.net policies.now.given policies.now.listed text status × PutAll text (O.seen out.old) (O.seen out.new)) }
    ensures broken { IfErr result (λ refused. IsBrokenOff tested policies.now.net policies.now.given policies.now.listed refused (O.seen out.old) (O.seen out.new)) }
{
    let net = &policies.net;
    let given = &policies.given;
    let listed = policies.listed.as_slice();
    match tested {
        Tested::Policies => test_policies(alloc, net, given, listed, out),
        Tested::RiskGroups => test_outages(alloc, net, given, listed, false, out),
        Tested::Routers => test_outages(alloc, net, given, listed, true, out),
    }
}
