//! A plan stands in the file of its network, so the file's bytes are read once more, and of the value no more than its two
//! lists is looked at. Where the network has tables nothing is read. The whole JSON value is in memory until the plan is made.
ghost use Rattle.std.specs.Prelude.{◌≡◌, true, [], Ok, Some, length, is_some, IfOk};
ghost use Rattle.serde_json.specs.View.{view};
ghost use Rattle.wi_netjson.specs.File.{json_of, network_of};
ghost use Rattle.wi_plan.specs.Plans.{IsPlan};
ghost use Rattle.wi_planjson.specs.Reading.{Gives};
ghost use Rattle.wi_planjson.specs.Plan.{plan_by, plan_in, draft_in, value_in};
ghost use Rattle.wi_planjson.specs.private.Forms.{bypasses_by};
ghost use Rattle.wi_planjson.specs.private.Made.{plan_with};

use crate::bypasses::{Bypasses, Form, read_bypasses};
use crate::paths::{Paths, all_end, read_paths};
use crate::refused::PlanRefused;
use serde_json::Value;
use std::alloc::Global;
use wi_base::NoMemory;
use wi_net::Network;
use wi_plan::Plan;

/// The plan that the file of a network has: all its paths and bypasses, in the order of the file, as numbers of the network's
/// links and labels; or the file's first fault.
#[tactic(auto, unfolding(crate::specs::Plan::plan_in))]
pub fn read_plan(alloc: Global, bytes: &[u8], net: &Network) -> Result<Plan, PlanRefused>
    requires { network_of bytes.now ≡ Ok net.now }
    ensures answer { Gives (λ plan. plan) result (plan_in net.now bytes.now) }
    ensures plan { IfOk result (IsPlan net.now) }
{
    read_by(alloc, bytes, net, Form::Whole)
}

/// The same of a file that is not finished: where it has no member `bypasses`, there are none.
#[tactic(auto, unfolding(crate::specs::Plan::draft_in))]
pub fn read_draft(alloc: Global, bytes: &[u8], net: &Network) -> Result<Plan, PlanRefused>
    requires { network_of bytes.now ≡ Ok net.now }
    ensures answer { Gives (λ plan. plan) result (draft_in net.now bytes.now) }
    ensures plan { IfOk result (IsPlan net.now) }
{
    read_by(alloc, bytes, net, Form::Draft)
}

// The plan of a file that has to say, or may leave out, which bypasses it has.
#[tactic(auto, unfolding(crate::specs::Plan::plan_by))]
fn read_by(alloc: Global, bytes: &[u8], net: &Network, form: Form) -> Result<Plan, PlanRefused>
    requires { network_of bytes.now ≡ Ok net.now }
    ensures answer { Gives (λ plan. plan) result (plan_by (bypasses_by form) net.now (value_in bytes.now)) }
    ensures plan { IfOk result (IsPlan net.now) }
{
    if net.counts().rows != 0 {
        return Err(PlanRefused::NotEmpty);
    }
    let value = value_of(alloc, bytes)?;
    let plan = plan_of(alloc, net, form, &value);
    drop(value);
    plan
}

// The value that bytes read as. Bytes that mean a network are JSON, so nothing but memory can be wanting.
fn value_of(alloc: Global, bytes: &[u8]) -> Result<Value, NoMemory>
    requires { is_some (json_of bytes.now) ≡ true }
    ensures { IfOk result (λ value. json_of bytes.now ≡ Some (view value)) }
{
    match Value::from_slice(alloc, bytes) {
        Ok(value) => Ok(value),
        Err(error) => {
            let is_memory = error.is_memory();
            prove!(is_memory);
            Err(NoMemory::Memory)
        }
    }
}

// The plan that a value has.
fn plan_of(alloc: Global, net: &Network, form: Form, value: &Value) -> Result<Plan, PlanRefused>
    requires { length net.now.rows ≡ 0 }
    ensures { Gives (λ plan. plan) result (plan_by (bypasses_by form) net.now (view value.now)) }
{
    let mut paths = Paths::new(alloc);
    let mut bypasses = Bypasses::new(alloc);
    match fill(alloc, net, &mut paths, &mut bypasses, form, value) {
        Ok(()) => Ok(Plan {
            paths: paths.into_list(),
            bypasses: bypasses.into_list(),
        }),
        Err(refused) => {
            drop(paths);
            drop(bypasses);
            Err(refused)
        }
    }
}

// Adds all that a value has.
#[tactic(auto, unfolding(crate::specs::Plan::plan_by))]
fn fill(
    alloc: Global,
    net: &Network,
    paths: &mut Paths,
    bypasses: &mut Bypasses,
    form: Form,
    value: &Value,
) -> Result<(), PlanRefused>
    requires rows { length net.now.rows ≡ 0 }
    requires paths { paths.old ≡ [] }
    requires bypasses { bypasses.old ≡ [] }
    ensures { Gives (λ _. plan_with paths.new bypasses.new) result (plan_by (bypasses_by form) net.now (view value.now)) }
{
    read_paths(alloc, net, paths, value)?;
    read_bypasses(alloc, net, bypasses, form, value)?;
    all_end(paths)
}
