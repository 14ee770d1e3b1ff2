//! A planner's file has paths, and may have bypasses. What is printed is the plan with those that it lacks, so that it can be kept in the
//! place of the file's plan, and nothing is printed that couldn't be read again.
ghost use Rattle.std.specs.Prelude.{◌≡◌, Ok, IfOk, IfErr};
ghost use Rattle.wi_net.specs.Network.{IsNetwork};
ghost use Rattle.wi_netjson.specs.File.{network_of};
ghost use Rattle.wi_plan.specs.Plans.{IsPlan};
ghost use Rattle.wi_bypass.specs.Bypasses.{AreFound, wanting, with_found};
ghost use Rattle.wi_make.specs.Bypassing.{FromDraft, FromBypassing, IsBypassed, IsBypassing, IsDrafted, left_unprotected, plan_status};
ghost use Rattle.wi_files.specs.Shelves.{AllStand, IsCalm};
ghost use Rattle.wi_make.specs.private.Stages.{FromDraftFile, FromPlanWriting, IsFoundFor, IsPlanWritten};

use std::alloc::Global;
use wi_base::{Listed, NoMemory, Shelf};
use wi_bypass::{Found, a_plan_without_unprotected_links_survives, bypasses, with_found};
use wi_files::network_bytes;
use wi_net::{LinkId, Network};
use wi_netjson::{NETWORK_LIMIT, a_line_feed_changes_nothing, read_network};
use wi_outcome::{Printed, Refusal};
use wi_plan::Plan;
use wi_planjson::{PlanRefused, a_line_feed_changes_no_plan, read_draft, write_plan};
use wi_text::Text;

/// The text of the plan of a file with the bypasses that were found for it, or why there is none. The status is 1 where some inner link of
/// a path has no detour.
pub fn bypass<'a, S: Shelf>(
    alloc: Global,
    name: &'a str,
    shelf: &mut S,
) -> Result<Printed, Refusal<'a>>
    ensures told { (S.seen shelf.new).told ≡ (S.seen shelf.old).told }
    ensures files { AllStand (S.seen shelf.old) (S.seen shelf.new) }
    ensures calm { IfOk result (λ _. IsCalm (S.seen shelf.old) (S.seen shelf.new)) }
    ensures bypassed { IfOk result (λ printed. IsBypassed (S.seen shelf.old) name.now printed.text printed.status) }
    ensures refused { IfErr result (FromBypassing (S.seen shelf.old) (S.seen shelf.new) name.now) }
{
    let bytes = network_bytes(alloc, name, shelf)?;
    let printed = bypassed(alloc, bytes.as_slice());
    drop(bytes);
    printed
}

// The same, for the bytes of a file.
fn bypassed<'a>(alloc: Global, bytes: &[u8]) -> Result<Printed, Refusal<'a>>
    ensures bypassing { IfOk result (λ printed. IsBypassing bytes.now printed.text printed.status) }
    ensures refused { IfErr result (FromDraftFile bytes.now) }
{
    match read_network(alloc, bytes) {
        Ok(net) => {
            let printed = bypassed_over(alloc, &net, bytes);
            drop(net);
            printed
        }
        Err(fault) => Err(Refusal::Network(fault)),
    }
}

// The same, over the network of the file.
fn bypassed_over<'a>(alloc: Global, net: &Network, bytes: &[u8]) -> Result<Printed, Refusal<'a>>
    requires { network_of bytes.now ≡ Ok net.now }
    ensures bypassing { IfOk result (λ printed. IsBypassing bytes.now printed.text printed.status) }
    ensures refused { IfErr result (FromDraft bytes.now) }
{
    net.keeps();
    match read_draft(alloc, bytes, net) {
        Ok(plan) => bypassed_by(alloc, net, plan, bytes),
        Err(PlanRefused::Memory) => Err(Refusal::Memory),
        Err(refused) => Err(Refusal::Plan(refused)),
    }
}

// The same, by the plan of the file.
fn bypassed_by<'a>(
    alloc: Global,
    net: &Network,
    plan: Plan,
    bytes: &[u8],
) -> Result<Printed, Refusal<'a>>
    requires { IsDrafted bytes.now net.now plan }
    ensures bypassing { IfOk result (λ printed. IsBypassing bytes.now printed.text printed.status) }
    ensures refused { IfErr result (FromDraft bytes.now) }
{
    a_plan_without_unprotected_links_survives();
    let (plan, unprotected) = found_for(alloc, net, plan)?;
    let printed = printed_plan(alloc, net, &plan, unprotected.as_slice());
    drop((plan, unprotected));
    printed
}

// A plan with the bypasses that it lacks behind its own, and which inner links of its paths have no detour then.
fn found_for(alloc: Global, net: &Network, plan: Plan) -> Result<(Plan, Listed<LinkId>), NoMemory>
    requires { IsPlan net.now plan }
    ensures { IfOk result (λ made. IsFoundFor net.now plan made.0 made.1) }
{
    match bypasses(alloc, net, &plan) {
        Ok(
            Found {
                bypasses,
                unprotected,
            },
        ) => match with_found(plan, bypasses) {
            Ok(whole) => Ok((whole, unprotected)),
            Err(error) => {
                drop(unprotected);
                Err(error)
            }
        },
        Err(error) => {
            drop(plan);
            Err(error)
        }
    }
}

// The text of a plan and a line feed, where these inner links have no detour; or that it is too long to be read.
fn printed_plan<'a>(
    alloc: Global,
    net: &Network,
    plan: &Plan,
    unprotected: &[LinkId],
) -> Result<Printed, Refusal<'a>>
    requires network { IsNetwork net.now }
    requires plan { IsPlan net.now plan.now }
    requires lacking { unprotected.now ≡ left_unprotected net.now plan.now }
    ensures written { IfOk result (λ printed. IsPlanWritten net.now plan.now printed.text printed.status) }
    ensures refused { IfErr result (FromPlanWriting net.now plan.now) }
{
    a_line_feed_changes_nothing();
    a_line_feed_changes_no_plan();
    let bytes = write_plan(alloc, net, plan, unprotected)?;
    if bytes.len() >= NETWORK_LIMIT as usize {
        return Err(Refusal::LargeNetwork);
    }
    let mut text = Text::of(bytes);
    text.put("\n")?;
    Ok(Printed {
        status: plan_status(unprotected),
        text,
    })
}

// The exit status where these inner links have no detour.
fn plan_status(unprotected: &[LinkId]) -> u8
    ensures { result ≡ plan_status unprotected.now }
{
    if unprotected.is_empty() { 0 } else { 1 }
}
