// Whether a request has an acceptable selection, whatever its start, and without a plan.

ghost use Rattle.std.specs.Prelude.{IfOk};
ghost use Rattle.encode.specs.Encoding.{IsEncoding};
ghost use Rattle.closed_part.specs.Part.{IsClosedPart, IsPart};
ghost use Rattle.search.specs.Found.{IsAnswer};
ghost use Rattle.solver.specs.Decided.{IsDecidable, IsDecided, IsDecisionOn};

use crate::decided::Decided;
use crate::judged::accepted_refutation;
use crate::lift::lifted_selection;
use closed_part::choice_of_part;
use encode::{Encoding, encode_part};
use reach::{Reached, reach};
use search::{SearchAnswer, search};
use std::alloc::{AllocError, Global};
use universe::Universe;

// What is decided where this was found.
fn decided_by(
    alloc: Global,
    universe: &Universe<'_, '_>,
    reached: &Reached<'_, '_, '_>,
    encoding: &Encoding<'_>,
    outcome: &SearchAnswer,
    limit: u32,
) -> Result<Decided, AllocError>
    requires decidable { IsDecidable universe.now }
    requires part { IsPart universe.now reached.now.numbers.items reached.now.part }
    requires closed { IsClosedPart universe.now reached.now.numbers.items }
    requires encoding { IsEncoding reached.now.part encoding.now }
    requires outcome { IsAnswer encoding.now.clauses limit outcome.now }
    ensures decided { IfOk result (IsDecided universe.now limit) }
    ensures answer { IfOk result (IsDecisionOn outcome.now) }
{
    choice_of_part();
    let _limit = limit;
    match outcome {
        SearchAnswer::Selection(numbers) => {
            let selection = lifted_selection(
                alloc,
                universe,
                reached,
                encoding,
                numbers.as_slice(),
            )?;
            Ok(Decided::Selection(selection))
        }
        SearchAnswer::Refutation(refutation) => {
            match accepted_refutation(alloc, universe, reached, encoding, refutation)? {
                Some(refutation) => Ok(Decided::Refuted(refutation)),
                None => Ok(Decided::Unchecked),
            }
        }
        SearchAnswer::Limit(spent) => Ok(Decided::Limit(*spent)),
    }
}

// What is decided over what is reached by these clauses.
fn decide_by(
    alloc: Global,
    universe: &Universe<'_, '_>,
    reached: &Reached<'_, '_, '_>,
    encoding: &Encoding<'_>,
    limit: u32,
) -> Result<Decided, AllocError>
    requires decidable { IsDecidable universe.now }
    requires part { IsPart universe.now reached.now.numbers.items reached.now.part }
    requires closed { IsClosedPart universe.now reached.now.numbers.items }
    requires encoding { IsEncoding reached.now.part encoding.now }
    ensures { IfOk result (IsDecided universe.now limit) }
{
    let clauses = encoding.clauses();
    let outcome = search(alloc, clauses, limit)?;
    let decided = decided_by(alloc, universe, reached, encoding, &outcome, limit)?;
    Ok(decided)
}

// What is decided over what is reached.
fn decide_over(
    alloc: Global,
    universe: &Universe<'_, '_>,
    reached: &Reached<'_, '_, '_>,
    limit: u32,
) -> Result<Decided, AllocError>
    requires decidable { IsDecidable universe.now }
    requires part { IsPart universe.now reached.now.numbers.items reached.now.part }
    requires closed { IsClosedPart universe.now reached.now.numbers.items }
    ensures { IfOk result (IsDecided universe.now limit) }
{
    let encoding = encode_part(alloc, &reached.part)?;
    decide_by(alloc, universe, reached, &encoding, limit)
}

/// Decides whether the request of the universe has an acceptable selection, with at most so many conflicts of the search above
/// level 0: the numbers of one; a refutation that is accepted and can be written; or that it is undecided. The selection is the one that
/// was found: it isn't brought near to the start, and no plan is made, so the start may have conflicts. What the request can reach is
/// searched alone. Costs what `reach` costs, what `encode_part` and `search` cost over what is reached, and where a refutation is found
/// what `check_refutation` costs. Memory alone can fail.
pub fn decide(alloc: Global, universe: &Universe<'_, '_>, limit: u32) -> Result<Decided, AllocError>
    requires { IsDecidable universe.now }
    ensures { IfOk result (IsDecided universe.now limit) }
{
    let reached = reach(alloc, universe)?;
    decide_over(alloc, universe, &reached, limit)
}
