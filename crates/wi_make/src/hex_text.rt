//! A text is bytes where these, written in hexadecimal again, are the text: so capitals and an odd number of digits aren't, and each
//! list of bytes has one text. That costs the text a second time in memory. No file is asked for.
ghost use Rattle.std.specs.Prelude.{◌≡◌, ◌⊎◌, List, ℕ, Ok, Err, IfOk, IfErr};
ghost use Rattle.std.specs.Str.{bytes_eq};
ghost use Rattle.hex.specs.Hex.{decode_of, encode_lower};
ghost use Rattle.hex.specs.declared.error.FromHexError.{FromHexError};
ghost use Rattle.wi_wire.specs.Stacks.{IsNoStack};
ghost use Rattle.wi_make.specs.OnWire.{FromHex, IsHex, IsShownHex, IsShownStack};
ghost use Rattle.wi_make.specs.private.Stages.{FromStack};

use hex::FromHexError;
use std::alloc::Global;
use wi_base::NoMemory;
use wi_outcome::{Printed, Refusal};
use wi_report::stack_text;
use wi_wire::{StackRefused, read_stack};

/// The label stack with which the bytes begin that a text is in hexadecimal, or why there is none.
pub fn stack<'a>(alloc: Global, text: &str) -> Result<Printed, Refusal<'a>>
    ensures status { IfOk result (λ printed. printed.status ≡ 0) }
    ensures shown { IfOk result (λ printed. IsShownHex text.now printed.text) }
    ensures refused { IfErr result (FromHex text.now) }
{
    let bytes = bytes_of(alloc, text)?;
    let printed = stack_of(alloc, bytes.as_slice());
    drop(bytes);
    printed
}

// The bytes that a text is in hexadecimal, in lower case.
fn bytes_of<'a>(alloc: Global, text: &str) -> Result<Vec<u8>, Refusal<'a>>
    ensures read { IfOk result (λ bytes. IsHex text.now bytes.items) }
    ensures refused { IfErr result (FromHex text.now) }
{
    match hex::decode(alloc, text) {
        Ok(bytes) => bytes_if_written(alloc, bytes, text),
        Err(error) => Err(refusal_of(error)),
    }
}

// The refusal of a text that isn't decoded.
fn refusal_of<'a>(error: FromHexError) -> Refusal<'a>
    ensures { (text : List ℕ) → (error ≡ FromHexError.OutOfMemory) ⊎ (decode_of text ≡ Err error) → FromHex text result }
{
    match error {
        FromHexError::OutOfMemory => Refusal::Memory,
        _ => Refusal::NotHex,
    }
}

// The bytes that a text was decoded to, if it is what they are written as.
fn bytes_if_written<'a>(alloc: Global, bytes: Vec<u8>, text: &str) -> Result<Vec<u8>, Refusal<'a>>
    requires { decode_of text.now ≡ Ok bytes.items }
    ensures read { IfOk result (λ found. IsHex text.now found.items) }
    ensures refused { IfErr result (FromHex text.now) }
{
    let same = is_written(alloc, bytes.as_slice(), text)?;
    if same {
        Ok(bytes)
    } else {
        Err(Refusal::NotHex)
    }
}

// Whether bytes in hexadecimal are a text.
fn is_written(alloc: Global, bytes: &[u8], text: &str) -> Result<bool, NoMemory>
    ensures { IfOk result (λ same. same ≡ bytes_eq (encode_lower bytes.now) text.now) }
{
    let written = hex::encode(alloc, bytes)?;
    Ok(written.as_str() == text)
}

// The stack with which bytes begin.
fn stack_of<'a>(alloc: Global, bytes: &[u8]) -> Result<Printed, Refusal<'a>>
    ensures status { IfOk result (λ printed. printed.status ≡ 0) }
    ensures shown { IfOk result (λ printed. IsShownStack bytes.now printed.text) }
    ensures refused { IfErr result (FromStack bytes.now) }
{
    match read_stack(alloc, bytes) {
        Ok((entries, used)) => {
            let text = stack_text(alloc, entries.as_slice(), bytes.len() - used)?;
            Ok(Printed { status: 0, text })
        }
        Err(refused) => Err(refusal_for(refused)),
    }
}

// The refusal of bytes that begin with no stack.
fn refusal_for<'a>(refused: StackRefused) -> Refusal<'a>
    ensures { (bytes : List ℕ) → IsNoStack bytes refused → FromStack bytes result }
{
    match refused {
        StackRefused::Memory => Refusal::Memory,
        refused => Refusal::BadStack(refused),
    }
}
