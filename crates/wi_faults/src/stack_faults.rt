//! A fault of a stack is told by its entry, from 1, since bytes are counted by whoever has them.
ghost use Rattle.std.specs.Prelude.{◌≡◌, ◌++◌, codes, IfOk, OnOk};
ghost use Rattle.std.specs.Fmt.{decimal};
ghost use Rattle.wi_faults.specs.StackFaults.{place_of, stack_refused_text};

use crate::shown::put_counted;
use std::alloc::Global;
use wi_base::NoMemory;
use wi_text::Text;
use wi_wire::StackRefused;

/// What is said of bytes that begin with no stack: the entry, from 1, and that it is cut, or its label is reserved and which it is.
pub fn stack_refused_text(alloc: Global, refused: &StackRefused) -> Result<Text, NoMemory>
    ensures { IfOk result (λ text. text ≡ stack_refused_text refused.now) }
{
    let mut text = Text::new(alloc);
    match refused {
        StackRefused::Cut(entry) => put_cut(*entry, &mut text)?,
        StackRefused::Reserved(entry, label) => put_reserved(*entry, *label, &mut text)?,
        StackRefused::Memory => text.put("whatif: out of memory\n")?,
    }
    Ok(text)
}

// Adds that an entry is cut.
fn put_cut(entry: usize, text: &mut Text) -> Result<(), NoMemory>
    ensures { OnOk result (text.new ≡ text.old ++ (place_of entry ++ codes " cut\n")) }
{
    put_place(entry, text)?;
    text.put(" cut\n")
}

// Adds that an entry's label is reserved.
fn put_reserved(entry: usize, label: u32, text: &mut Text) -> Result<(), NoMemory>
    ensures { OnOk result (text.new ≡ text.old ++ (place_of entry ++ (codes " reserved label " ++ decimal label ++ codes "\n"))) }
{
    put_place(entry, text)?;
    put_counted(" reserved label ", label as usize, "\n", text)
}

// Adds which entry is meant, from 1.
fn put_place(entry: usize, text: &mut Text) -> Result<(), NoMemory>
    ensures { OnOk result (text.new ≡ text.old ++ place_of entry) }
{
    text.put("wire: entry ")?;
    text.put_number(entry as u128 + 1)
}
