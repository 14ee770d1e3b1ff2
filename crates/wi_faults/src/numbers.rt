//! The numbers of a weight on a line: those of the terms that were asked for, and no others.
ghost use Rattle.std.specs.Prelude.{◌≡◌, ◌++◌, take, OnOk};
ghost use Rattle.wi_quantity.specs.Weighing.{components};
ghost use Rattle.wi_faults.specs.Numbers.{numbers_shown};

use wi_base::NoMemory;
use wi_quantity::Weight;
use wi_text::Text;

/// Adds the values of so many terms, each after a space.
pub fn put_values(weight: &Weight, terms: usize, text: &mut Text) -> Result<(), NoMemory>
    ensures { OnOk result (text.new ≡ text.old ++ numbers_shown (take terms (components weight.now))) }
{
    let all = components_of(weight);
    put_numbers(&all[..terms.min(all.len())], text)
}

/// The values of five terms, and then the effort. It takes no memory.
pub(crate) fn components_of(weight: &Weight) -> [u128; 6]
    ensures { result ≡ components weight.now }
{
    let [a, b, c, d, e] = weight.first.parts();
    [a, b, c, d, e, weight.second.count]
}

/// Adds numbers, each after a space.
pub(crate) fn put_numbers(numbers: &[u128], text: &mut Text) -> Result<(), NoMemory>
    ensures { OnOk result (text.new ≡ text.old ++ numbers_shown numbers.now) }
{
    for number in numbers {
        text.put(" ")?;
        text.put_number(*number)?;
    }
    Ok(())
}
