//! What is plain is said once, for the readers of queries and scripts and for what is printed, so that they agree on which
//! names need quotation marks. All tests are over ASCII, so that they can be asked of a byte of a text as well.
ghost use Rattle.std.specs.Prelude.{◌≡◌};
ghost use Rattle.std.specs.List.{list_all};
ghost use Rattle.wi_text.specs.Characters.{is_space, is_digit, is_letter, is_plain, is_plain_name, is_name_byte, is_number};

/// A space, a tab, a carriage return or a line feed. It takes no memory.
pub fn is_space(character: char) -> bool
    ensures { result ≡ is_space character }
{
    matches!(character, ' ' | '\t' | '\r' | '\n')
}

/// An ASCII letter. It takes no memory.
pub fn is_letter(character: char) -> bool
    ensures { result ≡ is_letter character }
{
    character.is_ascii_alphabetic()
}

/// An ASCII letter, a digit or `_`. It takes no memory.
pub fn is_plain(character: char) -> bool
    ensures { result ≡ is_plain character }
{
    character.is_ascii_alphanumeric() || character == '_'
}

/// Whether a text is a plain name: plain characters, and at least one. It takes no memory.
pub fn is_plain_name(text: &str) -> bool
    ensures { result ≡ is_plain_name text.now }
{
    !text.is_empty() && are_plain(text.as_bytes())
}

// Whether each byte is a plain character.
fn are_plain(bytes: &[u8]) -> bool
    ensures { result ≡ list_all is_plain bytes.now }
{
    bytes.iter().all(|byte| is_plain(char::from(*byte)))
}

/// Whether bytes are such as any name may have: neither control characters nor quotation marks. It takes no memory.
pub fn are_name_bytes(bytes: &[u8]) -> bool
    ensures { result ≡ list_all is_name_byte bytes.now }
{
    bytes.iter().all(|b| is_name_byte(*b))
}

fn is_name_byte(byte: u8) -> bool
    ensures { result ≡ is_name_byte byte }
{
    32 <= byte && (byte != 127 && byte != 34)
}

/// Whether a text is a number: `0`, or a digit 1 to 9 and digits. It takes no memory.
pub fn is_number(text: &str) -> bool
    ensures { result ≡ is_number text.now }
{
    match text.as_bytes() {
        [b'0'] => true,
        [b'1'..=b'9', rest @ ..] => are_digits(rest),
        _ => false,
    }
}

// Whether each byte is a digit.
fn are_digits(bytes: &[u8]) -> bool
    ensures { result ≡ list_all is_digit bytes.now }
{
    bytes.iter().all(|byte| byte.is_ascii_digit())
}
