//! The texts of a ring: its routers' and labels' names, and what is asked of it.
ghost use Rattle.std.specs.Prelude.{◌≡◌, ◌++◌, string_bytes, IfOk};
ghost use Rattle.std.specs.Fmt.{decimal};
ghost use Rattle.wi_gen.specs.Texts.{query_text, weights_text};

use crate::ring::RingPlan;
use std::alloc::Global;
use wi_base::NoMemory;

/// A letter and a number.
pub fn numbered(alloc: Global, letter: &str, number: u32) -> Result<String, NoMemory>
    ensures { IfOk result (λ text. string_bytes text ≡ letter.now ++ decimal number) }
{
    Ok(format!(in alloc; "{letter}{number}")?)
}

/// A packet goes from s to t, and on its way back from r1 to r0.
pub fn query_text(alloc: Global, ring: &RingPlan) -> Result<String, NoMemory>
    ensures { IfOk result (λ text. string_bytes text ≡ query_text ring.now) }
{
    let last = ring.path();
    Ok(format!(in alloc; "<ip0> [s#r0] .* [r1#r0] .* [r{last}#t] <ip0> 2")?)
}

/// Few failures first, then few hops.
pub fn weights_text(alloc: Global) -> Result<String, NoMemory>
    ensures { IfOk result (λ text. string_bytes text ≡ weights_text) }
{
    Ok(String::from_str(alloc, "Failures, Hops")?)
}
