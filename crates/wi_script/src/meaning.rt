//! Names are looked up line by line, so that nothing of a script is kept as text: a link costs four look-ups, and a label one.
//! Words of classes are names here, since a header has labels and no classes. A number past 32 bits becomes one that no group
//! or member has.
ghost use Rattle.std.specs.Prelude.{◌≡◌, IfOk, option_map, true, false};
ghost use Rattle.wi_script.specs.Lines.{is_count, is_line};
ghost use Rattle.wi_script.specs.Scripts.{event_of, label_of, link_of, number_of};
ghost use Rattle.wi_script.specs.private.Reading.{joint_of, line_of, name_of, names_of, start_of};
ghost use Rattle.wi_script.specs.private.Meaning.{Starts, begin_of, event_read, header_of, start_read};

use crate::line::{WrittenEvent, WrittenJoint, WrittenName, WrittenStart, event_of, start_of};
use crate::script::{ScriptCause, ScriptRefused};
use std::alloc::Global;
use wi_base::NoMemory;
use wi_labels::{Class, Header, Label};
use wi_net::{LinkId, Network};
use wi_world::{Event, Step};

/// Where the first line puts a packet, or why it is refused.
#[tactic(auto, unfolding(crate::specs::private::Meaning::start_read))]
pub fn read_start(
    alloc: Global,
    net: &Network,
    text: &str,
) -> Result<(LinkId, Header), ScriptRefused>
    ensures { Starts result (start_read net.now text.now) }
{
    let start = start_of(alloc, text)?.ok_or(ScriptRefused::BadLine(1, ScriptCause::NotAnEvent))?;
    let (link, header) = begin(alloc, net, &start)?.ok_or(ScriptRefused::BadLine(
        1,
        ScriptCause::UnknownName,
    ))?;
    if !header.is_valid() {
        return Err(ScriptRefused::BadLine(1, ScriptCause::BadHeader));
    }
    Ok((link, header))
}

/// The event of a line that isn't the first, or why it is refused.
#[tactic(auto, using(crate::proofs::Meanings::is_event), unfolding(crate::specs::private::Meaning::event_read))]
pub fn read_event(net: &Network, text: &str) -> Result<Event, ScriptCause>
    ensures { result ≡ event_read net.now text.now }
{
    let line = event_of(text).ok_or(ScriptCause::NotAnEvent)?;
    event(net, line).ok_or(ScriptCause::UnknownName)
}

// The link and the header of a first line, if the network has them.
#[tactic(auto, unfolding(crate::specs::private::Meaning::begin_of))]
fn begin(
    alloc: Global,
    net: &Network,
    start: &WrittenStart,
) -> Result<Option<(LinkId, Header)>, NoMemory>
    ensures { IfOk result (λ found. found ≡ begin_of net.now (start_of start.now)) }
{
    let Some(link) = link(net, start.joint) else {
        return Ok(None);
    };
    let Some(labels) = labels(alloc, net, start.labels.as_slice())? else {
        return Ok(None);
    };
    Ok(Some((link, header(alloc, labels.as_slice())?)))
}

// The header of labels, the top first.
fn header(alloc: Global, labels: &[(Label, Class)]) -> Result<Header, NoMemory>
    ensures { IfOk result (λ header. header ≡ labels.now) }
{
    match Header::from_labels(alloc, labels) {
        Ok(header) => Ok(header),
        Err(_) => Err(NoMemory::Memory),
    }
}

// The labels of names, if the network has each of them.
fn labels(
    alloc: Global,
    net: &Network,
    names: &[WrittenName],
) -> Result<Option<Vec<(Label, Class)>>, NoMemory>
    ensures { IfOk result (λ labels. option_map (λ v. v.items) labels ≡ header_of net.now (names_of names.now)) }
{
    let mut labels = Vec::new(alloc);
    for name in names {
        let Some(label) = label(net, *name) else {
            return Ok(None);
        };
        labels.push(label)?;
    }
    Ok(Some(labels))
}

// The label of a name, with its class.
fn label(net: &Network, name: WrittenName) -> Option<(Label, Class)>
    ensures { result ≡ label_of net.now (name_of name.entry) }
{
    let label = net.find_label(name.text())?;
    Some((label, net.class(label)))
}

// The event that a line is.
fn event(net: &Network, line: WrittenEvent) -> Option<Event>
    requires { is_line false (line_of line) ≡ true }
    ensures { result ≡ event_of net.now (line_of line.entry) }
{
    match line {
        WrittenEvent::Fail(joint) => Some(Event::Fail(link(net, joint)?)),
        WrittenEvent::Repair(joint) => Some(Event::Repair(link(net, joint)?)),
        WrittenEvent::Hop(group, member) => Some(Event::Hop(Step {
            group: number_of(group),
            member: number_of(member),
        })),
    }
}

// The link between two interfaces.
fn link(net: &Network, joint: WrittenJoint) -> Option<LinkId>
    ensures { result ≡ link_of net.now (joint_of joint.entry) }
{
    let from = net.find_router(joint.from.text())?;
    let out = net.find_out(from, joint.out.text())?;
    let to = net.find_router(joint.to.text())?;
    let into = net.find_in(to, joint.into.text())?;
    if out == into { Some(out) } else { None }
}

// A number from 1 as one from 0.
fn number_of(number: &str) -> u32
    requires { is_count number.now ≡ true }
    ensures { result ≡ number_of number.now }
{
    match number.parse::<u32>() {
        Ok(number) => number.saturating_sub(1),
        Err(_) => u32::MAX,
    }
}
