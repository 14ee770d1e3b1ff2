//! A weight may have many components, and what is kept one after the other mostly weighs the same. So weights stand in a list, and
//! numbers name them. No weight is looked for, which would take a table beside the list: a guess is tried, and where it fails, the
//! weight is kept once more.
ghost use Rattle.std.specs.Prelude.{◌≡◌, ◌++◌, List, Some, IfOk, slice_get};

use std::cmp::Ordering;
use wi_base::NoMemory;
use wi_weight::Domain;

// The number of the weight: the guess, where that names an equal one, else that of a new one.
pub(crate) fn number_of<W: Domain>(
    weights: &mut Vec<W>,
    guess: usize,
    weight: W,
) -> Result<usize, NoMemory>
    ensures more { (more : List W) × (weights.new.items ≡ weights.old.items ++ more) }
    ensures there { IfOk result (λ n. slice_get weights.new.items n ≡ Some weight) }
{
    if let Some(known) = weights.get(guess) {
        if let Ordering::Equal = known.compare(&weight) {
            return Ok(guess);
        }
    }
    let number = weights.len();
    weights.push(weight)?;
    Ok(number)
}
