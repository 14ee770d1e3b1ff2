//! A word may stand in a text twice, so a fault is told by its byte, as in a query. Where there are too many terms or parts, no
//! byte is at fault, and their count is told. The text itself isn't asked for.
ghost use Rattle.std.specs.Prelude.{◌≡◌, ◌++◌, codes, IfOk, OnOk};
ghost use Rattle.std.specs.Fmt.{decimal};
ghost use Rattle.wi_text.specs.Names.{shown};
ghost use Rattle.wi_faults.specs.WeightFaults.{byte_text, weight_fault_text};

use crate::shown::put_counted;
use std::alloc::Global;
use wi_base::NoMemory;
use wi_quantity::WeightFault;
use wi_text::Text;

/// What is said of a fault of a weights text: its byte, and what is wrong there. Bytes count from 0.
pub fn weight_fault_text(alloc: Global, fault: &WeightFault) -> Result<Text, NoMemory>
    ensures { IfOk result (λ text. text ≡ weight_fault_text fault.now) }
{
    let mut text = Text::new(alloc);
    put_fault(fault, &mut text)?;
    Ok(text)
}

fn put_fault(fault: &WeightFault, text: &mut Text) -> Result<(), NoMemory>
    ensures { OnOk result (text.new ≡ text.old ++ weight_fault_text fault.now) }
{
    match fault {
        WeightFault::Memory => text.put("whatif: out of memory\n"),
        WeightFault::Syntax(byte) => at(*byte, "syntax", text),
        WeightFault::UnknownQuantity(byte, word) => unknown(*byte, word.as_str(), text),
        WeightFault::TooManyTerms(count) => {
            put_counted("weights: ", *count, " terms or parts, limit 5\n", text)
        }
        WeightFault::Coefficient(byte) => at(*byte, "over the limit 65535", text),
    }
}

// What comes before a fault's words.
fn begin(byte: usize, text: &mut Text) -> Result<(), NoMemory>
    ensures { OnOk result (text.new ≡ text.old ++ (codes "weights: byte " ++ decimal byte ++ codes ": ")) }
{
    put_counted("weights: byte ", byte, ": ", text)
}

// A fault at a byte.
fn at(byte: usize, words: &str, text: &mut Text) -> Result<(), NoMemory>
    ensures { OnOk result (text.new ≡ text.old ++ byte_text byte words.now) }
{
    begin(byte, text)?;
    text.put(words)?;
    text.put("\n")
}

// A word that is no quantity.
fn unknown(byte: usize, word: &str, text: &mut Text) -> Result<(), NoMemory>
    ensures { OnOk result (text.new ≡ text.old ++ byte_text byte (codes "unknown quantity " ++ shown word.now)) }
{
    begin(byte, text)?;
    text.put("unknown quantity ")?;
    text.put_name(word)?;
    text.put("\n")
}
