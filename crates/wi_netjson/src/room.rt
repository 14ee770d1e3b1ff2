//! Most groups have one member, and a list that grows begins with room for several: over hundreds of thousands of groups that
//! is most of the memory. Lists here begin with room for one and double, which costs a few more moves.
ghost use Rattle.std.specs.Prelude.{◌≡◌, ◌++◌, ◌∷◌, [], OnOk};

use wi_base::NoMemory;

/// Adds an element at the end. Most lists of a file are short, so a list begins with room for one, and doubles it.
pub fn push<T: Drop>(list: &mut Vec<T>, item: T) -> Result<(), NoMemory>
    ensures { OnOk result (list.new.items ≡ list.old.items ++ item ∷ []) }
{
    if list.len() == list.capacity() {
        list.reserve_exact(list.len().max(1))?;
    }
    list.push(item)?;
    Ok(())
}
