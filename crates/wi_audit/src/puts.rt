//! Policies are asked one by one, and what becomes of each is put before the next one is asked.
ghost use Rattle.std.specs.Prelude.{◌≡◌, ◌<◌, ◌-◌, ◌^◌, ℕ, List, IfOk, IfErr};
ghost use Rattle.wi_world.specs.Moves.{AreBounds};
ghost use Rattle.wi_outcome.specs.Edges.{PutAll};
ghost use Rattle.wi_audit.specs.Audits.{AreAskable, IsAudit, IsAuditBrokenOff};

use crate::asked::audited;
use crate::outcome::Fulfilment;
use crate::series::{exit_status, put_plan, put_test, worse};
use std::alloc::Global;
use wi_base::{PutRefused, Sink};
use wi_net::{Bounds, Network};
use wi_policy::Policy;

/// Asks policies of a network, where some links are given as down or up, and puts the plan and then the lines of each. The exit status
/// is 1 where some answer isn't what is expected, else 2 where some is missing, else 0.
pub fn audit<O: Sink>(
    alloc: Global,
    net: &Network,
    given: &Bounds,
    policies: &[Policy],
    out: &mut O,
) -> Result<u8, PutRefused>
    requires out { (O.seen out.old).faults < 2 ^ 64 - 1 }
    requires bounds { AreBounds net.now given.now }
    requires askable { AreAskable net.now given.now policies.now }
    ensures told { (O.seen out.new).told ≡ (O.seen out.old).told }
    ensures audited { IfOk result (λ status. (text : List ℕ) × IsAudit net.now given.now policies.now text status × PutAll text (O.seen out.old) (O.seen out.new)) }
    ensures broken { IfErr result (λ refused. IsAuditBrokenOff net.now given.now policies.now refused (O.seen out.old) (O.seen out.new)) }
{
    put_plan(alloc, policies.len(), out)?;
    let mut worst = Fulfilment::AsExpected;
    for (i, policy) in policies.iter().enumerate() {
        let fulfilment = put_test(audited(alloc, net, given, i + 1, policy), out)?;
        worst = worse(worst, fulfilment);
    }
    Ok(exit_status(worst))
}
