//! A plan stands in the file of its network, so the bytes are read twice, as the one and as the other. Each part is let go as soon as the
//! next is there.
ghost use Rattle.std.specs.Prelude.{◌≡◌, Ok, IfOk, IfErr};
ghost use Rattle.wi_netjson.specs.File.{network_of};
ghost use Rattle.wi_make.specs.Protection.{FromPlan, FromProtecting, IsPlanned, IsProtected, IsProtecting};
ghost use Rattle.wi_files.specs.Shelves.{AllStand, IsCalm};
ghost use Rattle.wi_make.specs.private.Stages.{FromPlanFile, FromWriting, IsWritten};

use std::alloc::Global;
use wi_base::Shelf;
use wi_files::network_bytes;
use wi_net::Network;
use wi_netjson::{NETWORK_LIMIT, a_line_feed_changes_nothing, read_network, write_network};
use wi_outcome::{Printed, Refusal};
use wi_plan::Plan;
use wi_planjson::{PlanRefused, read_plan};
use wi_protect::{ProtectRefused, protect as network_for};
use wi_text::Text;

/// The text of the network that the plan of a file asks for, or why there is none.
pub fn protect<'a, S: Shelf>(
    alloc: Global,
    name: &'a str,
    shelf: &mut S,
) -> Result<Printed, Refusal<'a>>
    ensures told { (S.seen shelf.new).told ≡ (S.seen shelf.old).told }
    ensures files { AllStand (S.seen shelf.old) (S.seen shelf.new) }
    ensures calm { IfOk result (λ _. IsCalm (S.seen shelf.old) (S.seen shelf.new)) }
    ensures status { IfOk result (λ printed. printed.status ≡ 0) }
    ensures protected { IfOk result (λ printed. IsProtected (S.seen shelf.old) name.now printed.text) }
    ensures refused { IfErr result (FromProtecting (S.seen shelf.old) (S.seen shelf.new) name.now) }
{
    let bytes = network_bytes(alloc, name, shelf)?;
    let printed = protected(alloc, bytes.as_slice());
    drop(bytes);
    printed
}

// The same, for the bytes of a file.
fn protected<'a>(alloc: Global, bytes: &[u8]) -> Result<Printed, Refusal<'a>>
    ensures status { IfOk result (λ printed. printed.status ≡ 0) }
    ensures protecting { IfOk result (λ printed. IsProtecting bytes.now printed.text) }
    ensures refused { IfErr result (FromPlanFile bytes.now) }
{
    match read_network(alloc, bytes) {
        Ok(net) => {
            let printed = protected_over(alloc, &net, bytes);
            drop(net);
            printed
        }
        Err(fault) => Err(Refusal::Network(fault)),
    }
}

// The same, over the network of the file.
fn protected_over<'a>(alloc: Global, net: &Network, bytes: &[u8]) -> Result<Printed, Refusal<'a>>
    requires { network_of bytes.now ≡ Ok net.now }
    ensures status { IfOk result (λ printed. printed.status ≡ 0) }
    ensures protecting { IfOk result (λ printed. IsProtecting bytes.now printed.text) }
    ensures refused { IfErr result (FromPlan bytes.now) }
{
    net.keeps();
    match read_plan(alloc, bytes, net) {
        Ok(plan) => {
            let printed = protected_by(alloc, net, &plan, bytes);
            drop(plan);
            printed
        }
        Err(PlanRefused::Memory) => Err(Refusal::Memory),
        Err(refused) => Err(Refusal::Plan(refused)),
    }
}

// The same, by the plan of the file.
fn protected_by<'a>(
    alloc: Global,
    net: &Network,
    plan: &Plan,
    bytes: &[u8],
) -> Result<Printed, Refusal<'a>>
    requires { IsPlanned bytes.now net.now plan.now }
    ensures status { IfOk result (λ printed. printed.status ≡ 0) }
    ensures protecting { IfOk result (λ printed. IsProtecting bytes.now printed.text) }
    ensures refused { IfErr result (FromPlan bytes.now) }
{
    match network_for(alloc, net, plan) {
        Ok(made) => {
            let printed = written(alloc, &made);
            drop(made);
            printed
        }
        Err(ProtectRefused::Memory) => Err(Refusal::Memory),
        Err(refused) => Err(Refusal::Unprotected(refused)),
    }
}

// The text of a network as a file, and a line feed; or that it is too long to be read.
fn written<'a>(alloc: Global, net: &Network) -> Result<Printed, Refusal<'a>>
    ensures status { IfOk result (λ printed. printed.status ≡ 0) }
    ensures written { IfOk result (λ printed. IsWritten net.now printed.text) }
    ensures refused { IfErr result (FromWriting net.now) }
{
    a_line_feed_changes_nothing();
    let bytes = write_network(alloc, net)?;
    if bytes.len() > NETWORK_LIMIT as usize {
        return Err(Refusal::LargeNetwork);
    }
    let mut text = Text::of(bytes);
    text.put("\n")?;
    Ok(Printed { status: 0, text })
}
