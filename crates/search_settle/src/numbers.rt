// A selection as the list of its numbers, and as a set that says of each number whether it is selected.

ghost use Rattle.std.specs.Prelude.{◌≡◌, ◌≤◌, ◌+◌, ◌++◌, ◌∷◌, [], ℕ, IfOk, OnOk, length};
ghost use Rattle.std.specs.List.{All};
ghost use Rattle.refutation.specs.Selection.{selects};
ghost use Rattle.search_settle.specs.Selected.{numbers_from};
ghost use Rattle.search_settle.specs.Truth.{holds};

use crate::set::put;
use std::alloc::{AllocError, Global};

/// The set of these numbers, with a place for each number up to the greatest. Memory alone can fail. Linear in that.
pub(crate) fn set_of(
    alloc: Global,
    greatest: u32,
    selection: &[u32],
) -> Result<Vec<bool>, AllocError>
    requires within { All (λ number. number ≤ greatest) selection.now }
    ensures long { IfOk result (λ set. length set.items ≡ greatest + 1) }
    ensures same { IfOk result
        (λ set. (number : ℕ) → holds set.items number ≡ selects selection.now number) }
{
    let mut set = vec![in alloc; false; greatest as usize + 1]?;
    for number in selection {
        put(&mut set, *number as usize, true);
    }
    Ok(set)
}

// Adds a number, which takes memory and fits 32 bits.
fn push_number(numbers: &mut Vec<u32>, number: usize) -> Result<(), AllocError>
    ensures { OnOk result (numbers.new.items ≡ numbers.old.items ++ number ∷ []) }
{
    let Ok(number) = u32::try_from(number) else {
        return Err(AllocError);
    };
    numbers.push(number)?;
    Ok(())
}

/// The numbers of a set, ascending. Memory alone can fail. Linear in its places.
pub(crate) fn numbers_of(alloc: Global, set: &Vec<bool>) -> Result<Vec<u32>, AllocError>
    ensures { IfOk result (λ numbers. numbers.items ≡ numbers_from 0 set.now.items) }
{
    let mut numbers = Vec::new(alloc);
    for (number, selected) in set.iter().enumerate() {
        if *selected {
            push_number(&mut numbers, number)?;
        }
    }
    Ok(numbers)
}
