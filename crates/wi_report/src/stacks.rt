//! A stack that was read is shown by its parts in decimal, which is how the standard writes labels; S is shown too, though the
//! order of the lines tells it, so that each line can be held against the bits. What follows the stack is counted and not shown.
ghost use Rattle.std.specs.Prelude.{◌≡◌, ◌++◌, IfOk, OnOk};
ghost use Rattle.wi_wire.specs.Stacks.{each_entry, s_of};
ghost use Rattle.wi_report.specs.Stacks.{entry_line, part_shown, stack_shown};

use std::alloc::Global;
use wi_base::NoMemory;
use wi_faults::put_counted;
use wi_text::Text;
use wi_wire::Entry;

/// A line for each entry of a stack, top first: `label`, `exp`, `s`, which is 1 in the last alone, and `ttl` (RFC 3032, section
/// 2.1). Then `rest:` and how many bytes follow the stack.
pub fn stack_text(alloc: Global, entries: &[Entry], rest: usize) -> Result<Text, NoMemory>
    ensures { IfOk result (λ text. text ≡ stack_shown entries.now rest) }
{
    let mut text = Text::new(alloc);
    put_lines(entries, &mut text)?;
    put_counted("rest: ", rest, " bytes\n", &mut text)?;
    Ok(text)
}

// Adds a line for each entry.
fn put_lines(entries: &[Entry], text: &mut Text) -> Result<(), NoMemory>
    ensures { OnOk result (text.new ≡ text.old ++ each_entry entry_line entries.now) }
{
    for (i, entry) in entries.iter().enumerate() {
        put_line(*entry, i + 1 == entries.len(), text)?;
    }
    Ok(())
}

fn put_line(entry: Entry, is_bottom: bool, text: &mut Text) -> Result<(), NoMemory>
    ensures { OnOk result (text.new ≡ text.old ++ entry_line (s_of is_bottom) entry) }
{
    put_part("label ", entry.label, text)?;
    put_part(" exp ", u32::from(entry.exp), text)?;
    put_part(" s ", bit(is_bottom), text)?;
    put_part(" ttl ", u32::from(entry.ttl), text)?;
    text.put("\n")
}

fn bit(is_bottom: bool) -> u32
    ensures { result ≡ s_of is_bottom }
{
    if is_bottom { 1 } else { 0 }
}

// Adds a part of an entry behind its name.
fn put_part(name: &str, part: u32, text: &mut Text) -> Result<(), NoMemory>
    ensures { OnOk result (text.new ≡ text.old ++ part_shown name.now part) }
{
    text.put(name)?;
    text.put_number(u128::from(part))
}
