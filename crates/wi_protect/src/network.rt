//! The whole network is made anew, over a copy of the routers and links, so nothing is changed where memory runs out. It costs
//! that copy, and a look-up for each label and each row.
ghost use Rattle.std.specs.Prelude.{◌≡◌, false, length, IfOk, OnOk};
ghost use Rattle.wi_net.specs.Network.{IsNetwork};
ghost use Rattle.wi_net.specs.Builder.{links_alone};
ghost use Rattle.wi_plan.specs.Plans.{IsPlan};
ghost use Rattle.wi_protect.specs.Refusals.{has_taken, has_too_many, Protects};
ghost use Rattle.wi_protect.specs.Protected.{protected};
ghost use Rattle.wi_protect.specs.Naming.{AreNamed};
ghost use Rattle.wi_protect.specs.Protection.{AreProtected};

use crate::detours::detours_of;
use crate::labels::{add_labels, bypass_label_count, has_taken, path_label_count};
use crate::laws::{labels_are_named, protected_paths};
use crate::refused::ProtectRefused;
use crate::rows::{add_bypasses, add_paths};
use std::alloc::Global;
use wi_base::NoMemory;
use wi_net::{LABEL_LIMIT, Network, NetworkBuilder};
use wi_plan::{Bypass, Path, Plan};

/// The network that a plan asks for: the network's routers and links, its labels and those of the plan, and the plan's
/// tables: label-switched paths with facility backup (RFC 4090, 3.2), a bypass's label taken off one hop before the bypass ends
/// (RFC 3031, 3.16). It is refused where the name of a new label is taken, and else where there would be too many labels.
pub fn protect(alloc: Global, net: &Network, plan: &Plan) -> Result<Network, ProtectRefused>
    requires { IsPlan net.now plan.now }
    ensures network { Protects net.now plan.now result }
    ensures paths { AreProtected net.now plan.now }
    ensures names { AreNamed net.now plan.now }
{
    net.keeps();
    protected_paths();
    labels_are_named();
    made(alloc, net, plan)
}

// The network, if its labels can be added.
fn made(alloc: Global, net: &Network, plan: &Plan) -> Result<Network, ProtectRefused>
    requires { IsPlan net.now plan.now }
    ensures { Protects net.now plan.now result }
{
    net.keeps();
    if has_taken(alloc, net, plan)? {
        return Err(ProtectRefused::TakenLabel);
    }
    if has_too_many(net, plan) {
        return Err(ProtectRefused::TooManyLabels);
    }
    Ok(build(alloc, net, plan)?)
}

// Whether there would be more labels than a network may have.
fn has_too_many(net: &Network, plan: &Plan) -> bool
    ensures { result ≡ has_too_many net.now plan.now }
{
    let bypass = bypass_label_count(plan.bypasses.as_slice());
    let path = path_label_count(plan.paths.as_slice());
    let most = LABEL_LIMIT as u128;
    if bypass > most || path > most {
        return true;
    }
    net.counts().labels as u128 + bypass + path > most
}

// The plan's network, where no name is taken and there are not too many labels.
fn build(alloc: Global, net: &Network, plan: &Plan) -> Result<Network, NoMemory>
    requires network { IsNetwork net.now }
    requires plan { IsPlan net.now plan.now }
    requires free { has_taken net.now plan.now ≡ false }
    requires few { has_too_many net.now plan.now ≡ false }
    ensures { IfOk result (λ made. made ≡ protected net.now plan.now) }
{
    let mut builder = NetworkBuilder::over(net)?;
    match fill(&mut builder, alloc, net, plan) {
        Ok(()) => builder.finish(),
        Err(refused) => {
            drop(builder);
            Err(refused)
        }
    }
}

// Adds the labels and the rows.
fn fill(
    builder: &mut NetworkBuilder,
    alloc: Global,
    net: &Network,
    plan: &Plan,
) -> Result<(), NoMemory>
    requires network { IsNetwork net.now }
    requires plan { IsPlan net.now plan.now }
    requires alone { builder.old ≡ links_alone net.now }
    requires free { has_taken net.now plan.now ≡ false }
    requires few { has_too_many net.now plan.now ≡ false }
    ensures { OnOk result (builder.new.net ≡ protected net.now plan.now) }
{
    let bypasses = plan.bypasses.as_slice();
    let paths = plan.paths.as_slice();
    let _bypass_count = bypass_count(bypasses);
    let _path_count = path_count(paths);
    let numbers = add_labels(builder, alloc, net, plan)?;
    let link_count = net.counts().links as usize;
    let detours = detours_of(alloc, link_count, bypasses, numbers.bypass)?;
    add_paths(builder, alloc, paths, bypasses, detours.as_slice(), numbers)?;
    add_bypasses(builder, alloc, bypasses, numbers.bypass)?;
    Ok(())
}

// How many there are: a number that fits.
fn path_count(paths: &[Path]) -> usize
    ensures { result ≡ length paths.now }
{
    paths.len()
}

fn bypass_count(bypasses: &[Bypass]) -> usize
    ensures { result ≡ length bypasses.now }
{
    bypasses.len()
}
