//! What is wrong with a policy is said in the words in which it is said of a query, behind its line.
ghost use Rattle.std.specs.Prelude.{◌≡◌, ◌++◌, codes, IfOk, OnOk};
ghost use Rattle.std.specs.Fmt.{decimal};
ghost use Rattle.wi_faults.specs.PolicyFaults.{line_fault_words, policies_fault_text};

use crate::query_faults::{put_down_and_up, put_strict_fault};
use crate::shown::put_counted;
use std::alloc::Global;
use wi_base::NoMemory;
use wi_net::Network;
use wi_policy::{LineFault, PoliciesRefused};
use wi_text::Text;

/// What is said of a file that has no policies: the line of its first fault, from 1, and what is wrong with it. Bytes of a line count
/// from 0.
pub fn policies_fault_text(
    alloc: Global,
    net: &Network,
    refused: &PoliciesRefused,
) -> Result<Text, NoMemory>
    ensures { IfOk result (λ text. text ≡ policies_fault_text net.now refused.now) }
{
    let mut text = Text::new(alloc);
    match refused {
        PoliciesRefused::AtLine(line, fault) => put_line(net, *line, fault, &mut text)?,
        PoliciesRefused::NoPolicy => text.put("policies: none\n")?,
        PoliciesRefused::Memory => text.put("whatif: out of memory\n")?,
    }
    Ok(text)
}

fn put_line(net: &Network, line: usize, fault: &LineFault, text: &mut Text) -> Result<(), NoMemory>
    ensures { OnOk result (text.new ≡ text.old ++ ((codes "policies: line " ++ decimal line ++ codes ": ") ++ line_fault_words net.now fault.now ++ codes "\n")) }
{
    put_counted("policies: line ", line, ": ", text)?;
    put_fault(net, fault, text)?;
    text.put("\n")
}

fn put_fault(net: &Network, fault: &LineFault, text: &mut Text) -> Result<(), NoMemory>
    ensures { OnOk result (text.new ≡ text.old ++ line_fault_words net.now fault.now) }
{
    match fault {
        LineFault::NotAPolicy => text.put("not a policy"),
        LineFault::InQuery(fault) => put_strict_fault(net, fault, text),
        LineFault::DownAndUp(link) => put_down_and_up(net, *link, text),
    }
}
