//! What the run that is shown weighs, summed up step by step with one header that moves in place, and at its end. The numbers may be
//! as large as a certificate's run is long, so nothing is assumed of them: a step adds less than 2^64 to each term, and 128 bits
//! have room for as many steps as there can be.
ghost use Rattle.std.specs.Prelude.{◌≡◌, ◌<◌, ◌≤◌, ◌+◌, ◌*◌, ◌^◌, IfOk, length, replicate};
ghost use Rattle.wi_weight.specs.Weights.{EachBelow, plus};
ghost use Rattle.wi_quantity.specs.Weighing.{components, weight_of, step_weight, end_weight, steps_weight};
ghost use Rattle.wi_net.specs.Net.{risk_count};
ghost use Rattle.wi_world.specs.Moves.{needed_to_end};
ghost use Rattle.wi_world.specs.Runs.{sum_over, work, work_before, end_work};

use std::alloc::Global;
use wi_base::NoMemory;
use wi_labels::{Applied, Header};
use wi_net::{Member, Network};
use wi_quantity::{Vector, Weight, end_weight, first_weight, hop_weight};
use wi_trace::{End, Location, Run, Step, end_needs, follow, groups_of, member_at, twin_of};
use wi_weight::{Effort, Pair, Terms};

// What steps and an end weigh without their effort, and how many rules they take.
#[derive(Clone, Copy)]
struct Travel {
    weight: Weight,
    work: u128,
}

/// What a run weighs.
pub(crate) fn weighed(
    alloc: Global,
    net: &Network,
    vector: &Vector,
    run: &Run,
) -> Result<Weight, NoMemory>
    requires { run.now.first.0 < length net.now.links }
    ensures { IfOk result (λ w. components w ≡ weight_of net.now vector.now run.now) }
{
    let at = (run.first, twin_of(&run.header)?);
    let first = first_weight(vector, net, run.first);
    let steps = run.steps.as_slice();
    let travel = weighed_after(alloc, net, vector, first, at, steps, run.end)?;
    let effort = run.header.len() as u128 + travel.work + 4;
    Ok(Pair {
        first: travel.weight.first,
        second: Effort { count: effort },
    })
}

// A weight with what steps add to it, as far as they lead, and the end.
fn weighed_after(
    alloc: Global,
    net: &Network,
    vector: &Vector,
    first: Weight,
    mut at: Location,
    steps: &[Step],
    end: End,
) -> Result<Travel, NoMemory>
    requires small { EachBelow (2 ^ 64) (components first) }
    requires effort { first.second.count ≡ 0 }
    ensures weight { IfOk result (λ t. components t.weight ≡ plus (components first) (steps_weight net.now vector.now end at steps.now)) }
    ensures work { IfOk result (λ t. t.work ≡ sum_over net.now (work net.now) (end_work net.now end) at steps.now) }
    ensures few { IfOk result (λ t. t.work ≤ 8 * length steps.now + (2 ^ 64 + 8)) }
{
    let mut weight = first;
    let mut work = 0;
    for step in steps {
        let (share, done) = share_of(alloc, net, vector, &at, *step)?;
        if !follow(net, &mut at, *step)? {
            return Ok(Travel { weight, work });
        }
        weight = added(weight, share);
        work += done;
    }
    let (share, left) = end_share_of(alloc, net, vector, &at, end)?;
    Ok(Travel {
        weight: added(weight, share),
        work: work + left,
    })
}

// What a step weighs without effort, and what its member does: nothing where there is no such member.
fn share_of(
    alloc: Global,
    net: &Network,
    vector: &Vector,
    at: &Location,
    step: Step,
) -> Result<(Weight, u128), NoMemory>
    ensures weight { IfOk result (λ s. components s.0 ≡ step_weight net.now vector.now at.now step) }
    ensures small { IfOk result (λ s. EachBelow (2 ^ 64) (components s.0)) }
    ensures work { IfOk result (λ s. s.1 ≡ work net.now at.now step at.now) }
    ensures few { IfOk result (λ s. s.1 ≤ 8) }
{
    net.keeps();
    let Some(member) = member_at(net, at, step) else {
        return Ok((nothing(), 0));
    };
    let before = net.links_before(alloc, groups_of(net, at), step.group as usize)?;
    let share = hop_weight(vector, net, member, net.count(&before));
    Ok((share, member.ops.as_slice().len().max(1) as u128))
}

// What an end weighs without effort, and how many rules are left then.
fn end_share_of(
    alloc: Global,
    net: &Network,
    vector: &Vector,
    at: &Location,
    end: End,
) -> Result<(Weight, u128), NoMemory>
    ensures weight { IfOk result (λ s. components s.0 ≡ end_weight vector.now (risk_count net.now (needed_to_end net.now at.now end))) }
    ensures small { IfOk result (λ s. EachBelow (2 ^ 64) (components s.0)) }
    ensures work { IfOk result (λ s. s.1 ≡ end_work net.now end at.now) }
    ensures few { IfOk result (λ s. s.1 ≤ 2 ^ 64 + 8) }
{
    net.keeps();
    let needs = end_needs(alloc, net, at, end)?;
    let share = end_weight(vector, net.count(&needs));
    Ok((share, end_work(net, at, end)?))
}

// How many rules are left at an end.
fn end_work(net: &Network, at: &Location, end: End) -> Result<u128, NoMemory>
    ensures work { IfOk result (λ n. n ≡ end_work net.now end at.now) }
    ensures few { IfOk result (λ n. n ≤ 2 ^ 64 + 8) }
{
    let End::Undefined(step) = end else {
        return Ok(at.1.len() as u128);
    };
    net.keeps();
    match member_at(net, at, step) {
        Some(member) => work_before(member, &at.1),
        None => Ok(0),
    }
}

// How many operations of a member are defined, one after the other, and how many labels then stand.
fn work_before(member: &Member, header: &Header) -> Result<u128, NoMemory>
    ensures work { IfOk result (λ n. n ≡ work_before member.now.ops header.now) }
    ensures few { IfOk result (λ n. n ≤ 2 ^ 64 + length member.now.ops) }
{
    let ops = member.ops.as_slice();
    let mut header = twin_of(header)?;
    for (done, op) in ops.iter().enumerate() {
        match header.apply(&[*op]) {
            Ok(Applied::Done) => {}
            Ok(Applied::Undefined(_)) => return Ok(done as u128 + header.len() as u128),
            Err(_) => return Err(NoMemory::Memory),
        }
    }
    Ok(ops.len() as u128 + header.len() as u128)
}

// The weight of doing nothing.
fn nothing() -> Weight
    ensures { components result ≡ replicate 6 0 }
{
    Pair {
        first: Terms::of([0, 0, 0, 0, 0]),
        second: Effort { count: 0 },
    }
}

// The sum of two weights, component by component.
fn added(one: Weight, other: Weight) -> Weight
    requires { EachBelow (2 ^ 128) (plus (components one) (components other)) }
    ensures { components result ≡ plus (components one) (components other) }
{
    Pair {
        first: Terms {
            first: one.first.first + other.first.first,
            second: one.first.second + other.first.second,
            third: one.first.third + other.first.third,
            fourth: one.first.fourth + other.first.fourth,
            fifth: one.first.fifth + other.first.fifth,
        },
        second: Effort {
            count: one.second.count + other.second.count,
        },
    }
}
