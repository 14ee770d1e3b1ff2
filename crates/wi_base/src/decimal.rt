//! A number has one text, `0` or a digit 1 to 9 followed by digits, so that texts of numbers can be compared as bytes. Writing
//! makes that text first and then adds it, so that nothing has changed where memory runs out; reading takes no memory.
ghost use Rattle.std.specs.Prelude.{◌≡◌, ◌≢◌, ℕ, ◌<◌, ◌^◌, ◌++◌, None, IfSome, OnOk, OnErr};
ghost use Rattle.std.specs.Fmt.{decimal};
ghost use Rattle.wi_base.specs.private.Decimal.{number_after};

use crate::no_memory::NoMemory;

/// Writes a number in decimal after what is there. Where memory runs out nothing has changed.
pub fn write_decimal(number: u128, to: &mut Vec<u8>) -> Result<(), NoMemory>
    ensures ok { OnOk result (to.new.items ≡ to.old.items ++ decimal number) }
    ensures err { OnErr result (to.new.items ≡ to.old.items) }
{
    let text = format!(in *to.allocator(); "{number}")?;
    to.extend_from_slice(text.as_bytes())?;
    Ok(())
}

/// The number that a text is the decimal of: `0`, or a digit 1 to 9 followed by digits, up to `u128::MAX`. It takes no memory.
pub fn read_decimal(text: &[u8]) -> Option<u128>
    ensures some { IfSome result (λ n. text.now ≡ decimal n) }
    ensures none { result ≡ None → (n : ℕ) → n < 2 ^ 128 → text.now ≢ decimal n }
{
    let mut number = None;
    for byte in text {
        number = Some(number_after(number, *byte)?);
    }
    number
}

// The number that a digit makes after the number so far. No digit goes on after 0.
fn number_after(so_far: Option<u128>, byte: u8) -> Option<u128>
    ensures { result ≡ number_after so_far byte }
{
    if !byte.is_ascii_digit() {
        return None;
    }
    let digit = u128::from(byte - b'0');
    match so_far {
        None => Some(digit),
        Some(0) => None,
        Some(number) => number.checked_mul(10)?.checked_add(digit),
    }
}
