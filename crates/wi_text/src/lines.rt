//! Lines are cut from bytes one by one, and lent by them, so that a reader tells a fault of the line that it is in, and one that
//! isn't UTF-8 is a fault of that line alone. A line feed ends a line: what stands behind the last one is no line yet, and its
//! reader says what it is.
ghost use Rattle.std.specs.Prelude.{◌≡◌, ◌==◌, ℕ, List, option_map, position};
ghost use Rattle.wi_text.specs.Lines.{IsCutAt};

/// The line that bytes begin with, without its line feed, and what stands behind that; none where there is no line feed. It
/// takes no memory.
pub fn next_line<'a>(bytes: &'a [u8]) -> Option<(&'a [u8], &'a [u8])>
    ensures { IsCutAt bytes.now (option_map {U = List ℕ × List ℕ} (λ r. (r.0.now, r.1.now)) result) }
{
    let end = line_end(bytes)?;
    Some((&bytes[..end], &bytes[end + 1..]))
}

// Where the first line feed is.
fn line_end(bytes: &[u8]) -> Option<usize>
    ensures { result ≡ position (λ b. b == 10) bytes.now }
{
    bytes.iter().position(|byte| *byte == b'\n')
}
