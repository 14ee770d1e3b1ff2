//! The numbers of a line, and the lines of a text. Numbers go into a buffer of the caller's, so a line takes no memory of its own.
ghost use Rattle.std.specs.Prelude.{◌≡◌, ◌==◌, ◌++◌, ◌∷◌, true, Some, None, IfOk, MatchOption, option_map, if◌then◌else◌};
ghost use Rattle.std.specs.List.{position};
ghost use Rattle.std.specs.Str.{bytes_eq};
ghost use Rattle.wi_cert.specs.Numbers.{digit_after, numbers_in, after, numbers_after, one_number, count_after};
ghost use Rattle.wi_cert.specs.private.Ends.{is_free};

use wi_base::NoMemory;

/// The first line of a text, without its end, and what follows.
pub fn split_line(text: &[u8]) -> Option<(&[u8], &[u8])>
    ensures { MatchOption result (is_free text.now ≡ true) (λ parts. (text.now ≡ parts.0.now ++ 10 ∷ parts.1.now) × (is_free parts.0.now ≡ true)) }
{
    match end_of_line(text) {
        Some(at) => Some((&text[..at], &text[at + 1..])),
        None => None,
    }
}

/// The place of the first byte that ends a line.
fn end_of_line(text: &[u8]) -> Option<usize>
    ensures { result ≡ position (λ b. b == 10) text.now }
{
    text.iter().position(|byte| *byte == b'\n')
}

/// Whether the line is this text.
pub fn is_line(line: &[u8], text: &[u8]) -> bool
    ensures { result ≡ bytes_eq line.now text.now }
{
    line == text
}

/// The number that a digit makes after the word so far.
fn digit_after(word: Option<u64>, byte: u8) -> Option<u64>
    ensures { result ≡ digit_after word byte }
{
    if !byte.is_ascii_digit() {
        return None;
    }
    let digit = u64::from(byte - b'0');
    match word {
        None => Some(digit),
        Some(number) => {
            let next = 10 * u128::from(number) + u128::from(digit);
            if 0 < number && next < 1 << 64 {
                Some(next as u64)
            } else {
                None
            }
        }
    }
}

/// Puts the numbers of a line into the buffer, in the place of what is there. It tells whether the line spells any.
pub fn numbers_in(line: &[u8], numbers: &mut Vec<u64>) -> Result<bool, NoMemory>
    ensures { IfOk result (λ found. (if found then Some numbers.new.items else None) ≡ numbers_in line.now) }
{
    numbers.clear();
    let mut word: Option<u64> = None;
    for byte in line {
        match word {
            Some(number) if *byte == b' ' => {
                numbers.push(number)?;
                word = None;
            }
            _ => match digit_after(word, *byte) {
                Some(number) => word = Some(number),
                None => return Ok(false),
            },
        }
    }
    match word {
        Some(number) => {
            numbers.push(number)?;
            Ok(true)
        }
        None => Ok(false),
    }
}

/// What follows the front, where the line begins with it.
pub fn after<'a>(front: &[u8], line: &'a [u8]) -> Option<&'a [u8]>
    ensures { option_map (λ rest. rest.now) result ≡ after front.now line.now }
{
    line.strip_prefix(front)
}

/// Puts the numbers behind the front into the buffer. It tells whether the line is of that form.
pub fn numbers_after(front: &[u8], line: &[u8], numbers: &mut Vec<u64>) -> Result<bool, NoMemory>
    ensures { IfOk result (λ found. (if found then Some numbers.new.items else None) ≡ numbers_after front.now line.now) }
{
    match after(front, line) {
        Some(rest) => numbers_in(rest, numbers),
        None => Ok(false),
    }
}

fn one_number(numbers: &[u64]) -> Option<u64>
    ensures { result ≡ one_number numbers.now }
{
    match numbers {
        [number] => Some(*number),
        _ => None,
    }
}

/// The one number behind the front, where the line is of that form. The buffer is used.
pub fn count_after(
    front: &[u8],
    line: &[u8],
    numbers: &mut Vec<u64>,
) -> Result<Option<u64>, NoMemory>
    ensures { IfOk result (λ found. found ≡ count_after front.now line.now) }
{
    if numbers_after(front, line, numbers)? {
        Ok(one_number(numbers))
    } else {
        Ok(None)
    }
}
