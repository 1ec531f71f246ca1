// The selected pairs in their order.

ghost use Rattle.std.specs.Prelude.{◌≡◌, ◌≢◌, ◌∷◌, ◌++◌, [], ℕ, ◌+◌, ◌<◌, true, IfOk, OnOk, length};
ghost use Rattle.refutation.specs.Selection.{selects};
ghost use Rattle.rules.specs.Sound.{selected, selected_from};
ghost use Rattle.fixed_order.specs.Selection.{marked, pkgs_of};

use std::alloc::{AllocError, Global};
use universe::{Pair, Universe};

// Marks the number, if it has a place.
fn mark(marks: &mut Vec<bool>, number: usize)
    ensures long { length marks.new.items ≡ length marks.old.items }
    ensures kept { (other : ℕ) → other ≢ number → marked marks.new.items other
        ≡ marked marks.old.items other }
    ensures written { number < length marks.old.items → marked marks.new.items number ≡ true }
{
    if number < marks.len() {
        marks[number] = true;
    }
}

// For each number up to the greatest whether it is selected.
fn marks_of(alloc: Global, greatest: usize, selection: &[u32]) -> Result<Vec<bool>, AllocError>
    requires { greatest < 18446744073709551615 }
    ensures long { IfOk result (λ marks. length marks.items ≡ greatest + 1) }
    ensures same { IfOk result (λ marks. (number : ℕ) → number < greatest + 1
        → marked marks.items number ≡ selects selection.now number) }
{
    let mut marks = vec![in alloc; false; greatest + 1]?;
    for number in selection {
        mark(&mut marks, *number as usize);
    }
    Ok(marks)
}

/// Adds a lent pair. Memory alone can fail.
pub(crate) fn add<'u, 'p, 'a>(
    chosen: &mut Vec<&'u Pair<'p, 'a>>,
    pair: &'u Pair<'p, 'a>,
) -> Result<(), AllocError>
    ensures { OnOk result
        (pkgs_of chosen.new.items ≡ pkgs_of chosen.old.items ++ pair.now.pkg ∷ []) }
{
    chosen.push(pair)?;
    Ok(())
}

// The pairs whose numbers, counted from 1, are marked.
fn marked_pairs<'u, 'p, 'a>(
    alloc: Global,
    pairs: &'u [Pair<'p, 'a>],
    marks: &[bool],
) -> Result<Vec<&'u Pair<'p, 'a>>, AllocError>
    requires { length marks.now ≡ length pairs.now + 1 }
    ensures { IfOk result
        (λ chosen. pkgs_of chosen.items ≡ selected_from 1 (marked marks.now) pairs.now) }
{
    let mut chosen = Vec::new(alloc);
    for (place, pair) in pairs.iter().enumerate() {
        if marks[place + 1] {
            add(&mut chosen, pair)?;
        }
    }
    Ok(chosen)
}

/// The pairs of these numbers, counted from 1, in the order of the pairs; a number of no pair is passed over. Memory alone can
/// fail. Linear in the pairs and in the selection.
pub(crate) fn selected_pairs<'u, 'p, 'a>(
    alloc: Global,
    universe: &'u Universe<'p, 'a>,
    selection: &[u32],
) -> Result<Vec<&'u Pair<'p, 'a>>, AllocError>
    ensures { IfOk result
        (λ chosen. pkgs_of chosen.items ≡ selected universe.now (selects selection.now)) }
{
    let pairs = universe.pairs();
    let marks = marks_of(alloc, pairs.len(), selection)?;
    let chosen = marked_pairs(alloc, pairs, marks.as_slice())?;
    Ok(chosen)
}
