// A selection of the part that is reached, settled, as one of the universe.

ghost use Rattle.std.specs.Prelude.{◌≡◌, ◌≤◌, IfOk, Some, length};
ghost use Rattle.std.specs.List.{All, AllZip};
ghost use Rattle.clauses.specs.Clause.{MakesAllTrue};
ghost use Rattle.encode.specs.Encoding.{IsEncoding};
ghost use Rattle.refutation.specs.Selection.{selects};
ghost use Rattle.ordering.specs.Ordering.{AreAscending};
ghost use Rattle.closed_part.specs.Part.{IsClosedPart, IsPart};
ghost use Rattle.refutation.specs.Clause.{item_at};
ghost use Rattle.refutation.specs.Laws.{HasAscendingPairs, HasNeededPairs};
ghost use Rattle.rules.specs.Minimal.{IsLocallyMinimal};
ghost use Rattle.rules.specs.Sound.{IsAcceptable};
ghost use Rattle.search.specs.Found.{IsSelection};
ghost use Rattle.search_settle.specs.Encoded.{StandingArePresent};
ghost use Rattle.universe_parts.specs.Parts.{HaveDistinctNames};

use closed_part::{list_is_lifted, part_has_needed_pairs, part_is_acceptable, part_is_minimal};
use encode::{Encoding, true_selection_is_acceptable};
use reach::Reached;
use search_settle::settle;
use std::alloc::{AllocError, Global};
use universe::Universe;

// The numbers in the universe of the pairs of these numbers in the part.
fn lift_numbers(alloc: Global, numbers: &[u32], chosen: &[u32]) -> Result<Vec<u32>, AllocError>
    requires { All (λ number. (1 ≤ number) × (number ≤ length numbers.now)) chosen.now }
    ensures { IfOk result
        (λ lifted. AllZip
        (λ place number. item_at numbers.now place ≡ Some number) chosen.now lifted.items) }
{
    let mut lifted = Vec::new(alloc);
    for number in chosen {
        lifted.push(numbers[*number as usize - 1])?;
    }
    Ok(lifted)
}

/// The numbers in the universe of a selection of the part that makes all clauses true: they ascend, and their selection is acceptable.
/// Memory alone can fail.
pub(crate) fn lifted_selection(
    alloc: Global,
    universe: &Universe<'_, '_>,
    reached: &Reached<'_, '_, '_>,
    encoding: &Encoding<'_>,
    selection: &[u32],
) -> Result<Vec<u32>, AllocError>
    requires part { IsPart universe.now reached.now.numbers.items reached.now.part }
    requires closed { IsClosedPart universe.now reached.now.numbers.items }
    requires encoding { IsEncoding reached.now.part encoding.now }
    requires present { StandingArePresent universe.now }
    requires ascending { HasAscendingPairs universe.now }
    requires needed { HasNeededPairs universe.now }
    requires selection { IsSelection encoding.now.clauses.numbers selection.now }
    requires makes_true { MakesAllTrue selection.now encoding.now.clauses.clauses }
    ensures acceptable { IfOk result (λ lifted. IsAcceptable universe.now (selects lifted.items)) }
    ensures numbers { IfOk result (λ lifted. AreAscending lifted.items) }
{
    list_is_lifted();
    part_has_needed_pairs();
    part_is_acceptable();
    true_selection_is_acceptable();
    let (_universe, _encoding) = (universe, encoding);
    let numbers = lift_numbers(alloc, reached.numbers.as_slice(), selection)?;
    Ok(numbers)
}

/// Has settled a selection of the part that makes all clauses true: the numbers in the universe of a selection that is
/// acceptable and locally minimal, ascending. Memory alone can fail.
pub(crate) fn settle_selection(
    alloc: Global,
    universe: &Universe<'_, '_>,
    reached: &Reached<'_, '_, '_>,
    encoding: &Encoding<'_>,
    selection: &[u32],
) -> Result<Vec<u32>, AllocError>
    requires part { IsPart universe.now reached.now.numbers.items reached.now.part }
    requires closed { IsClosedPart universe.now reached.now.numbers.items }
    requires encoding { IsEncoding reached.now.part encoding.now }
    requires distinct { HaveDistinctNames universe.now.starts }
    requires present { StandingArePresent universe.now }
    requires ascending { HasAscendingPairs universe.now }
    requires needed { HasNeededPairs universe.now }
    requires selection { IsSelection encoding.now.clauses.numbers selection.now }
    requires makes_true { MakesAllTrue selection.now encoding.now.clauses.clauses }
    ensures acceptable { IfOk result
        (λ settled. IsAcceptable universe.now (selects settled.items)) }
    ensures minimal { IfOk result
        (λ settled. IsLocallyMinimal universe.now (selects settled.items)) }
    ensures numbers { IfOk result (λ settled. AreAscending settled.items) }
{
    list_is_lifted();
    part_has_needed_pairs();
    part_is_acceptable();
    part_is_minimal();
    let _universe = universe;
    let chosen = settle(alloc, &reached.part, encoding, selection)?;
    let numbers = lift_numbers(alloc, reached.numbers.as_slice(), chosen.as_slice())?;
    Ok(numbers)
}
