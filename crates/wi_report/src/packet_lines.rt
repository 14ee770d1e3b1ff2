//! What is on the wire is printed after the report, so that whoever reads a report finds the same one in front. A packet's line
//! has its number alone: the report has a line for each link of the run in the same order.
ghost use Rattle.std.specs.Prelude.{◌≡◌, ◌++◌, true, length, IfOk, OnOk, IfSome};
ghost use Rattle.std.specs.List.{list_all};
ghost use Rattle.wi_net.specs.Net.{is_link, labels_known};
ghost use Rattle.wi_wire.specs.declared.refused.NoValue.{NoValue};
ghost use Rattle.wi_wire.specs.Stacks.{each_entry, is_entry, s_of};
ghost use Rattle.wi_report.specs.Packets.{entry_shown, last_shown, later_packets, packet_line, packet_shown, packets_of, packets_shown};
ghost use Rattle.wi_report.specs.Reports.{IsKnownRun, report_of};
ghost use Rattle.wi_report.specs.private.NoValues.{IsLabelOf, no_value_shown};

use crate::reports::report;
use std::alloc::Global;
use wi_base::NoMemory;
use wi_build::Problem;
use wi_faults::put_label;
use wi_labels::Header;
use wi_net::Network;
use wi_text::Text;
use wi_trace::{Answer, Location, follow, twin_of};
use wi_wire::{Entry, NoValue, entries_of};
use wi_world::{Run, Step};

// The TTL of a packet that sets out, and of every later one: no router of the model counts it down.
const TTL: u8 = 64;

/// The report on an answer, and then, where the answer shows a run, a line for each link of the run: `packet`, its number from 1,
/// and the packet there. It is the label stack as it is on the wire (RFC 3032, section 2.1), four bytes in hexadecimal for each
/// entry, and the `ip` label; or, where a label's name is no value, that the first such label has none. Every entry has the TTL 64.
pub fn packets(alloc: Global, problem: &Problem<'_>, answer: &Answer) -> Result<Text, NoMemory>
    requires { IfSome answer.now.run (IsKnownRun problem.now.net) }
    ensures { IfOk result (λ text. text ≡ report_of problem.now.net problem.now.bounds (length problem.now.vector) answer.now ++ packets_of problem.now.net answer.now.run) }
{
    let mut text = report(alloc, problem, answer)?;
    if let Some(run) = &answer.run {
        put_packets(alloc, problem.net(), run, &mut text)?;
    }
    Ok(text)
}

// Adds a line for each link of a run.
fn put_packets(alloc: Global, net: &Network, run: &Run, text: &mut Text) -> Result<(), NoMemory>
    requires { IsKnownRun net.now run.now }
    ensures { OnOk result (text.new ≡ text.old ++ packets_shown net.now run.now) }
{
    put_packet(alloc, net, 1, &run.header, text)?;
    let at = (run.first, twin_of(&run.header)?);
    put_later(alloc, net, at, run.steps.as_slice(), text)
}

// Adds a line for each step from a place on; the first packet behind it is the second of the run.
fn put_later(
    alloc: Global,
    net: &Network,
    mut at: Location,
    steps: &[Step],
    text: &mut Text,
) -> Result<(), NoMemory>
    requires link { is_link net.now at.0 ≡ true }
    requires header { labels_known net.now at.1 ≡ true }
    ensures { OnOk result (text.new ≡ text.old ++ later_packets net.now 2 at steps.now) }
{
    net.keeps();
    for (i, step) in steps.iter().enumerate() {
        if !follow(net, &mut at, *step)? {
            return Ok(());
        }
        put_packet(alloc, net, i as u128 + 2, &at.1, text)?;
    }
    Ok(())
}

// Adds the line of a packet with its number.
fn put_packet(
    alloc: Global,
    net: &Network,
    number: u128,
    header: &Header,
    text: &mut Text,
) -> Result<(), NoMemory>
    requires { labels_known net.now header.now ≡ true }
    ensures { OnOk result (text.new ≡ text.old ++ packet_line net.now number header.now) }
{
    text.put("packet ")?;
    text.put_number(number)?;
    text.put(": ")?;
    put_on_wire(alloc, net, header, text)?;
    text.put("\n")
}

// Adds a header as it is on the wire.
fn put_on_wire(
    alloc: Global,
    net: &Network,
    header: &Header,
    text: &mut Text,
) -> Result<(), NoMemory>
    requires { labels_known net.now header.now ≡ true }
    ensures { OnOk result (text.new ≡ text.old ++ packet_shown net.now header.now) }
{
    net.keeps();
    match entries_of(alloc, net, header, TTL) {
        Ok(entries) => put_stack(alloc, net, entries.as_slice(), header, text),
        Err(refused) => put_refused(net, refused, text),
    }
}

// Adds a stack of entries, and the label under it.
fn put_stack(
    alloc: Global,
    net: &Network,
    entries: &[Entry],
    header: &Header,
    text: &mut Text,
) -> Result<(), NoMemory>
    requires fit { list_all is_entry entries.now ≡ true }
    requires known { labels_known net.now header.now ≡ true }
    ensures { OnOk result (text.new ≡ text.old ++ (each_entry entry_shown entries.now ++ last_shown net.now header.now)) }
{
    put_entries(alloc, entries, text)?;
    put_last(net, header, text)
}

// Adds the entries of a stack, each before a space.
fn put_entries(alloc: Global, entries: &[Entry], text: &mut Text) -> Result<(), NoMemory>
    requires { list_all is_entry entries.now ≡ true }
    ensures { OnOk result (text.new ≡ text.old ++ each_entry entry_shown entries.now) }
{
    for (i, entry) in entries.iter().enumerate() {
        put_entry(alloc, *entry, i + 1 == entries.len(), text)?;
    }
    Ok(())
}

// Adds an entry's bytes in hexadecimal, and a space.
fn put_entry(alloc: Global, entry: Entry, is_bottom: bool, text: &mut Text) -> Result<(), NoMemory>
    requires { is_entry entry ≡ true }
    ensures { OnOk result (text.new ≡ text.old ++ entry_shown (s_of is_bottom) entry) }
{
    let digits = hex::encode(alloc, entry.bytes(is_bottom))?;
    text.put(&digits)?;
    text.put(" ")
}

// Adds the name of a header's last label.
fn put_last(net: &Network, header: &Header, text: &mut Text) -> Result<(), NoMemory>
    requires { labels_known net.now header.now ≡ true }
    ensures { OnOk result (text.new ≡ text.old ++ last_shown net.now header.now) }
{
    net.keeps();
    match header.at(header.len().saturating_sub(1)) {
        Some((label, _)) => put_label(net, label, text),
        None => Ok(()),
    }
}

// Adds that a label has no value, if that is why there are no entries.
fn put_refused(net: &Network, refused: NoValue, text: &mut Text) -> Result<(), NoMemory>
    requires { IsLabelOf net.now refused }
    ensures said { OnOk result (text.new ≡ text.old ++ no_value_shown net.now refused) }
    ensures memory { refused ≡ NoValue.Memory → OnOk result ⊥ }
{
    match refused {
        NoValue::Label(label) => {
            text.put("label ")?;
            put_label(net, label, text)?;
            text.put(" has no value")
        }
        NoValue::Memory => Err(NoMemory::Memory),
    }
}
