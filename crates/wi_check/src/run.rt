//! The numbers of a certificate as a run. They may be any: what isn't in the network is found when the run is judged.
ghost use Rattle.std.specs.Prelude.{◌≡◌, ◌-◌, IfOk, unwrap_or, slice_get};
ghost use Rattle.wi_labels.specs.declared.label.Class.TheVariants.{Ip};
ghost use Rattle.wi_cert.specs.Shown.{IsShown};
ghost use Rattle.wi_accept.specs.Answers.{run_of, labels_of, steps_of, end_of};
ghost use Rattle.wi_accept.specs.Causes.{ShowsRun};

use std::alloc::Global;
use wi_base::{Listed, NoMemory};
use wi_cert::{Dropped, Shown};
use wi_labels::{Class, Header, Label};
use wi_net::{LinkId, Network};
use wi_trace::{End, Run, Step};

/// The run that is shown.
pub(crate) fn run_of(alloc: Global, net: &Network, shown: &Shown) -> Result<Run, NoMemory>
    requires text { IsShown shown.now }
    requires shows { ShowsRun shown.now }
    ensures { IfOk result (λ run. run ≡ run_of net.now shown.now) }
{
    let numbers = shown.first.as_slice();
    let labels = labels_of(alloc, net, &numbers[1..])?;
    let header = match Header::from_labels(alloc, labels.as_slice()) {
        Ok(header) => header,
        Err(_) => return Err(NoMemory::Memory),
    };
    Ok(Run {
        first: LinkId(numbers[0]),
        header,
        steps: Listed::of(steps_of(alloc, shown.steps.as_slice())?),
        end: end_of(shown.dropped),
    })
}

// Labels by their numbers, each with its class.
fn labels_of(alloc: Global, net: &Network, numbers: &[u32]) -> Result<Vec<(Label, Class)>, NoMemory>
    ensures { IfOk result (λ labels. labels.items ≡ labels_of net.now numbers.now) }
{
    let mut labels = Vec::new(alloc);
    for number in numbers {
        let label = Label(*number);
        labels.push((label, class_of(net, label)))?;
    }
    Ok(labels)
}

// The class of a label; one that the network hasn't may have any, since no run starts with it.
fn class_of(net: &Network, label: Label) -> Class
    ensures { result ≡ unwrap_or (slice_get net.now.classes label.0) Ip }
{
    net.keeps();
    if label.0 < net.counts().labels {
        net.class(label)
    } else {
        Class::Ip
    }
}

// Steps by the numbers of their groups and members, from 1.
fn steps_of(alloc: Global, numbers: &[(u32, u32)]) -> Result<Vec<Step>, NoMemory>
    ensures { IfOk result (λ steps. steps.items ≡ steps_of numbers.now) }
{
    let mut steps = Vec::new(alloc);
    for (group, member) in numbers {
        steps.push(step_of(*group, *member))?;
    }
    Ok(steps)
}

// A step by the numbers of its group and its member, from 1.
fn step_of(group: u32, member: u32) -> Step
    ensures { result ≡ record { group = group - 1; member = member - 1 } }
{
    Step {
        group: group.saturating_sub(1),
        member: member.saturating_sub(1),
    }
}

// How the packet ends: it arrives where it isn't said how it is dropped.
fn end_of(dropped: Option<Dropped>) -> End
    ensures { result ≡ end_of dropped }
{
    match dropped {
        Some(Dropped::Inactive) => End::Inactive,
        Some(Dropped::Undefined(group, member)) => End::Undefined(step_of(group, member)),
        Some(Dropped::Nowhere) | None => End::Arrives,
    }
}
