//! Of a weight that doesn't fit only the first component that is too large is told, with its place among the terms that were
//! asked for. The place of the effort is right behind these, since nobody asked for the others that there is room for.
ghost use Rattle.std.specs.Prelude.{◌≡◌, ◌∷◌, [], ◌++◌, IfOk, OnOk};
ghost use Rattle.wi_faults.specs.RefusedDecisions.{component_shown, overflow_from, overflow_text, too_long_text, nodes_over_limit_text};

use crate::numbers::components_of;
use crate::shown::put_counted;
use std::alloc::Global;
use wi_base::NoMemory;
use wi_quantity::Weight;
use wi_text::Text;

/// The least number with more than 64 bits.
const TOO_LARGE: u128 = 1 << 64;

/// What is said where a weight doesn't fit: the place and the value of its first component over 2^64 - 1, among the values of
/// so many terms and the effort behind them. Places are counted from 1. There is no text where all of these fit.
pub fn overflow_text(alloc: Global, weight: &Weight, terms: usize) -> Result<Text, NoMemory>
    ensures { IfOk result (λ text. text ≡ overflow_text terms weight.now) }
{
    let all = components_of(weight);
    let mut text = Text::new(alloc);
    put_first_over(&all[..terms.min(all.len())], weight.second.count, &mut text)?;
    Ok(text)
}

// Adds the first of some values and the effort that is over 2^64 - 1.
fn put_first_over(values: &[u128], effort: u128, text: &mut Text) -> Result<(), NoMemory>
    ensures { OnOk result (text.new ≡ text.old ++ overflow_from 1 (values.now ++ effort ∷ [])) }
{
    for (i, value) in values.iter().enumerate() {
        if *value >= TOO_LARGE {
            return put_overflow(i + 1, *value, text);
        }
    }
    if effort >= TOO_LARGE {
        return put_overflow(values.len() + 1, effort, text);
    }
    Ok(())
}

// Adds a component that is too large, with its place.
fn put_overflow(place: usize, value: u128, text: &mut Text) -> Result<(), NoMemory>
    ensures { OnOk result (text.new ≡ text.old ++ component_shown place value) }
{
    put_counted("overflow: component ", place, " is ", text)?;
    text.put_number(value)?;
    text.put("\n")
}

/// What is said where the least run is too long to be shown: its effort.
pub fn too_long_text(alloc: Global, effort: u64) -> Result<Text, NoMemory>
    ensures { IfOk result (λ text. text ≡ too_long_text effort) }
{
    let mut text = Text::new(alloc);
    put_counted(
        "too long: effort ",
        effort as usize,
        ", limit 4096\n",
        &mut text,
    )?;
    Ok(text)
}

/// What is said where an exact answer takes more nodes than may be opened: how many may.
pub fn nodes_over_limit_text(alloc: Global, limit: u32) -> Result<Text, NoMemory>
    ensures { IfOk result (λ text. text ≡ nodes_over_limit_text limit) }
{
    let mut text = Text::new(alloc);
    put_counted(
        "exact: over the limit ",
        limit as usize,
        " nodes\n",
        &mut text,
    )?;
    Ok(text)
}
