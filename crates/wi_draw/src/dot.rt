//! What is written into a string of the DOT language is changed byte by byte, since each byte that means something there is ASCII.
ghost use Rattle.std.specs.Prelude.{◌≡◌, ◌++◌, IfOk, OnOk};
ghost use Rattle.std.specs.List.{flat_map};
ghost use Rattle.wi_draw.specs.Dot.{escaped, escaped_byte, joined_byte, one_line, string_of};

use std::alloc::Global;
use wi_base::NoMemory;
use wi_text::Text;

/// Adds what stands in a string for these bytes.
pub(crate) fn put_escaped(bytes: &[u8], text: &mut Text) -> Result<(), NoMemory>
    ensures { OnOk result (text.new ≡ text.old ++ escaped bytes.now) }
{
    for byte in bytes {
        put_escaped_byte(*byte, text)?;
    }
    Ok(())
}

fn put_escaped_byte(byte: u8, text: &mut Text) -> Result<(), NoMemory>
    ensures { OnOk result (text.new ≡ text.old ++ escaped_byte byte) }
{
    match byte {
        b'&' => return text.put("&amp;"),
        b'"' | b'\\' => text.put("\\")?,
        _ => (),
    }
    text.put_bytes(&[byte])
}

/// Adds these bytes as a string.
pub(crate) fn put_string(bytes: &[u8], text: &mut Text) -> Result<(), NoMemory>
    ensures { OnOk result (text.new ≡ text.old ++ string_of bytes.now) }
{
    text.put("\"")?;
    put_escaped(bytes, text)?;
    text.put("\"")
}

/// Lines, each ended by a line feed, as one line with a comma and a space between them.
pub(crate) fn one_line(alloc: Global, lines: &[u8]) -> Result<Text, NoMemory>
    ensures { IfOk result (λ line. line ≡ one_line lines.now) }
{
    let mut line = Text::new(alloc);
    put_joined(&lines[..lines.len().saturating_sub(1)], &mut line)?;
    Ok(line)
}

// Adds lines, the last of which isn't ended, as one.
fn put_joined(bytes: &[u8], line: &mut Text) -> Result<(), NoMemory>
    ensures { OnOk result (line.new ≡ line.old ++ flat_map joined_byte bytes.now) }
{
    for byte in bytes {
        put_joined_byte(*byte, line)?;
    }
    Ok(())
}

fn put_joined_byte(byte: u8, line: &mut Text) -> Result<(), NoMemory>
    ensures { OnOk result (line.new ≡ line.old ++ joined_byte byte) }
{
    if byte == b'\n' {
        line.put(", ")
    } else {
        line.put_bytes(&[byte])
    }
}
