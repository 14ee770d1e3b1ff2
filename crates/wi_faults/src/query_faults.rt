//! A fault has a link as a number, so these texts need the network, unlike those of other faults. Names have quotation marks
//! where a query needs them, as in a report. What is wrong is said in the same words wherever a query stands.
ghost use Rattle.std.specs.Prelude.{◌≡◌, ◌++◌, codes, IfOk, OnOk};
ghost use Rattle.std.specs.Fmt.{decimal};
ghost use Rattle.wi_text.specs.Names.{shown};
ghost use Rattle.wi_faults.specs.Shown.{label_name_shown, link_shown};
ghost use Rattle.wi_faults.specs.QueryFaults.{byte_words, down_and_up_words, given_fault_text, query_fault_front, query_fault_text, query_fault_words, strict_fault_words};

use crate::shown::{put_counted, put_known, put_label_name};
use std::alloc::Global;
use wi_base::NoMemory;
use wi_net::{LinkId, Network};
use wi_query::{QueryFault, StrictFault};
use wi_text::Text;

/// What is said of a fault of a query: its byte, and what is wrong there. Bytes count from 0.
pub fn query_fault_text(alloc: Global, net: &Network, fault: &QueryFault) -> Result<Text, NoMemory>
    ensures { IfOk result (λ text. text ≡ query_fault_text net.now fault.now) }
{
    let mut text = Text::new(alloc);
    text.put(front(fault))?;
    put_query_fault(net, fault, &mut text)?;
    text.put("\n")?;
    Ok(text)
}

// What the words are said of: want of memory is no fault of the query.
fn front(fault: &QueryFault) -> &'static str
    ensures { result.now ≡ query_fault_front fault.now }
{
    match fault {
        QueryFault::Memory => "whatif: ",
        _ => "query: ",
    }
}

/// What is said of a fault of links that are given. Bytes count from 0.
pub fn given_fault_text(alloc: Global, net: &Network, fault: &StrictFault) -> Result<Text, NoMemory>
    ensures { IfOk result (λ text. text ≡ given_fault_text net.now fault.now) }
{
    let mut text = Text::new(alloc);
    text.put("given: ")?;
    put_strict_fault(net, fault, &mut text)?;
    text.put("\n")?;
    Ok(text)
}

/// Adds what is wrong with a query each of whose pairs has to mean a link.
pub(crate) fn put_strict_fault(
    net: &Network,
    fault: &StrictFault,
    text: &mut Text,
) -> Result<(), NoMemory>
    ensures { OnOk result (text.new ≡ text.old ++ strict_fault_words net.now fault.now) }
{
    match fault {
        StrictFault::InQuery(fault) => put_query_fault(net, fault, text),
        StrictFault::NoLink(byte) => at(*byte, "no link", text),
    }
}

// Adds what is wrong with a query.
fn put_query_fault(net: &Network, fault: &QueryFault, text: &mut Text) -> Result<(), NoMemory>
    ensures { OnOk result (text.new ≡ text.old ++ query_fault_words net.now fault.now) }
{
    match fault {
        QueryFault::Memory => text.put("out of memory"),
        QueryFault::TooLong(bytes) => put_counted("", *bytes, " bytes, limit 4096", text),
        QueryFault::Syntax(byte) => at(*byte, "syntax", text),
        QueryFault::UnknownLabel(byte, name) => unknown_label(*byte, name.as_str(), text),
        QueryFault::UnknownRouter(byte, name) => {
            unknown(*byte, "unknown router ", name.as_str(), text)
        }
        QueryFault::UnknownInterface(byte, name) => {
            unknown(*byte, "unknown interface ", name.as_str(), text)
        }
        QueryFault::TooManyPositions(expression, positions) => {
            too_many(*expression, *positions, text)
        }
        QueryFault::TooManyFailures(byte) => at(*byte, "over the limit 65535", text),
        QueryFault::DownAndUp(link) => put_down_and_up(net, *link, text),
    }
}

// What comes before a fault's words.
fn begin(byte: usize, text: &mut Text) -> Result<(), NoMemory>
    ensures { OnOk result (text.new ≡ text.old ++ (codes "byte " ++ decimal byte ++ codes ": ")) }
{
    put_counted("byte ", byte, ": ", text)
}

// A fault at a byte.
fn at(byte: usize, words: &str, text: &mut Text) -> Result<(), NoMemory>
    ensures { OnOk result (text.new ≡ text.old ++ byte_words byte words.now) }
{
    begin(byte, text)?;
    text.put(words)
}

// A name that isn't known, behind these words.
fn unknown(byte: usize, words: &str, name: &str, text: &mut Text) -> Result<(), NoMemory>
    ensures { OnOk result (text.new ≡ text.old ++ byte_words byte (words.now ++ shown name.now)) }
{
    begin(byte, text)?;
    text.put(words)?;
    text.put_name(name)
}

fn unknown_label(byte: usize, name: &str, text: &mut Text) -> Result<(), NoMemory>
    ensures { OnOk result (text.new ≡ text.old ++ byte_words byte (codes "unknown label " ++ label_name_shown name.now)) }
{
    begin(byte, text)?;
    text.put("unknown label ")?;
    put_label_name(name, text)
}

fn too_many(expression: u32, positions: usize, text: &mut Text) -> Result<(), NoMemory>
    ensures { OnOk result (text.new ≡ text.old ++ ((codes "expression " ++ decimal expression ++ codes " has ") ++ (codes "" ++ decimal positions ++ codes " positions, limit 512"))) }
{
    put_counted("expression ", expression as usize, " has ", text)?;
    put_counted("", positions, " positions, limit 512", text)
}

/// Adds that a link is both down and up.
pub(crate) fn put_down_and_up(net: &Network, link: LinkId, text: &mut Text) -> Result<(), NoMemory>
    ensures { OnOk result (text.new ≡ text.old ++ down_and_up_words (link_shown net.now link)) }
{
    text.put("link ")?;
    put_known(net, link, text)?;
    text.put(" both down and up")
}
