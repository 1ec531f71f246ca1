// Whether no two pairs of a selection are of one name.

ghost use Rattle.std.specs.Prelude.{◌≡◌, IfOk, IsTrue, map};
ghost use Rattle.std.specs.List.{filter_map};
ghost use Rattle.forward_steps.specs.Selection.{AreApart, IsOneEach, chosen, name_at};

use indexmap::IndexSet;
use std::alloc::{AllocError, Global};
use universe::Universe;

// The names of the pairs of these numbers.
fn names_of<'a>(
    alloc: Global,
    universe: &Universe<'_, 'a>,
    selection: &[u32],
) -> Result<Vec<&'a [u8]>, AllocError>
    ensures { IfOk result
        (λ names. map (λ name. name.now) names.items
        ≡ filter_map (name_at universe.now) selection.now) }
{
    let mut names = Vec::new(alloc);
    for number in selection {
        if let Some(pair) = universe.pair(*number) {
            names.push(pair.name())?;
        }
    }
    Ok(names)
}

// Whether no name is there twice.
fn are_apart(alloc: Global, names: &[&[u8]]) -> Result<bool, AllocError>
    ensures { IfOk result (λ answer. IsTrue answer → AreApart (map (λ name. name.now) names.now)) }
{
    let mut table = IndexSet::new(alloc);
    for name in names {
        table.insert(*name)?;
    }
    Ok(table.len() == names.len())
}

/// Whether no two of the pairs of these numbers, counted from 1, are of one name. Linear in their names. Memory alone can
/// fail.
pub fn is_one_each(
    alloc: Global,
    universe: &Universe<'_, '_>,
    selection: &[u32],
) -> Result<bool, AllocError>
    ensures { IfOk result
        (λ answer. IsTrue answer → IsOneEach (chosen universe.now selection.now)) }
{
    let names = names_of(alloc, universe, selection)?;
    let answer = are_apart(alloc, names.as_slice())?;
    Ok(answer)
}
