//! Bytes are cut into lines before they are taken for text, so that a line that isn't UTF-8 is a fault of that line, and those
//! before it are read. An event is kept for each line behind the first.
ghost use Rattle.std.specs.Prelude.{◌≡◌, ◌++◌, ◌∷◌, [], IfOk, IfErr, OnOk};
ghost use Rattle.wi_script.specs.Scripts.{IsScript, IsNoScript};
ghost use Rattle.wi_script.specs.Known.{IsScriptOf};
ghost use Rattle.wi_script.specs.private.Meaning.{IsStart, IsEvent, IsRest};

use crate::meaning::{read_event, read_start};
use crate::script::{Script, ScriptCause, ScriptRefused};
use std::alloc::Global;
use std::str::from_utf8;
use wi_base::{Listed, NoMemory};
use wi_labels::Header;
use wi_net::{LinkId, Network};
use wi_text::next_line;
use wi_world::Event;

/// The script that bytes are on a network: lines of UTF-8, each ended by a line feed. The first is `at LINK LABEL ..`, with
/// the top label first; each other one is `fail LINK`, `repair LINK` or `hop GROUP MEMBER`, with numbers from 1. The whole is
/// read by its form and its names; what is allowed is seen when it is played.
pub fn read_script(alloc: Global, net: &Network, bytes: &[u8]) -> Result<Script, ScriptRefused>
    ensures read { IfOk result (λ script. IsScript net.now bytes.now script) }
    ensures known { IfOk result (λ script. IsScriptOf net.now script) }
    ensures refused { IfErr result (λ refused. IsNoScript net.now bytes.now refused) }
{
    let Some((line, rest)) = next_line(bytes) else {
        return Err(ScriptRefused::BadLine(1, ScriptCause::NotAnEvent));
    };
    let (first, header) = first_line(alloc, net, line)?;
    let events = more_lines(alloc, net, rest)?;
    Ok(Script {
        first,
        header,
        events: Listed::of(events),
    })
}

// Where the first line puts the packet.
fn first_line(alloc: Global, net: &Network, line: &[u8]) -> Result<(LinkId, Header), ScriptRefused>
    ensures { IsStart net.now line.now result }
{
    match from_utf8(line) {
        Ok(text) => read_start(alloc, net, text),
        Err(_) => Err(ScriptRefused::BadLine(1, ScriptCause::NotAnEvent)),
    }
}

// The events of the lines behind the first.
fn more_lines(alloc: Global, net: &Network, bytes: &[u8]) -> Result<Vec<Event>, ScriptRefused>
    ensures { IsRest net.now bytes.now result }
{
    let mut events = Vec::new(alloc);
    let mut left = bytes;
    while !left.is_empty() {
        let number = events.len() + 2;
        let Some((line, rest)) = next_line(left) else {
            return Err(ScriptRefused::BadLine(number, ScriptCause::NotAnEvent));
        };
        match one_line(net, line) {
            Ok(event) => add(&mut events, event)?,
            Err(cause) => return Err(ScriptRefused::BadLine(number, cause)),
        }
        left = rest;
    }
    Ok(events)
}

// Adds an event.
fn add(events: &mut Vec<Event>, event: Event) -> Result<(), NoMemory>
    ensures { OnOk result (events.new.items ≡ events.old.items ++ event ∷ []) }
{
    events.push(event)?;
    Ok(())
}

// The event of a line that isn't the first.
fn one_line(net: &Network, line: &[u8]) -> Result<Event, ScriptCause>
    ensures { IsEvent net.now line.now result }
{
    match from_utf8(line) {
        Ok(text) => read_event(net, text),
        Err(_) => Err(ScriptCause::NotAnEvent),
    }
}
