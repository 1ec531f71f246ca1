// The request solved: the start, the clauses, the search, and what is made of what it found.

ghost use Rattle.std.specs.Prelude.{IfOk};
ghost use Rattle.encode.specs.Encoding.{IsEncoding};
ghost use Rattle.closed_part.specs.Part.{IsClosedPart, IsPart};
ghost use Rattle.rules.specs.Database.{IsQuiet};
ghost use Rattle.search.specs.Found.{IsAnswer};
ghost use Rattle.solver.specs.Solvable.{IsSolvable};
ghost use Rattle.solver.specs.Solved.{IsAnswerTo, IsOfRefutation, IsSolved};

use crate::judged::accepted_refutation;
use crate::lift::settle_selection;
use crate::plan::plan_selection;
use crate::solved::{Solved, Undecided};
use closed_part::choice_of_part;
use encode::{Encoding, encode_part};
use plancheck::is_quiet;
use plancheck_state::Records;
use reach::{Reached, reach};
use search::{Derivation, SearchAnswer, search};
use search_settle::standing_records_are_present;
use std::alloc::{AllocError, Global};
use universe::Universe;

// Has judged what was found as a refutation.
fn answer_of_refutation(
    alloc: Global,
    start: &Records<'_, '_>,
    universe: &Universe<'_, '_>,
    reached: &Reached<'_, '_, '_>,
    encoding: &Encoding<'_>,
    derivation: &Derivation,
    limit: u32,
) -> Result<Solved, AllocError>
    requires solvable { IsSolvable start.now universe.now }
    requires quiet { IsQuiet start.now }
    ensures solved { IfOk result (λ solved. IsSolved universe.now start.now limit solved) }
    ensures answer { IfOk result (λ solved. IsOfRefutation solved) }
{
    let (_start, _limit) = (start, limit);
    match accepted_refutation(alloc, universe, reached, encoding, derivation)? {
        Some(refutation) => Ok(Solved::Refuted(refutation)),
        None => Ok(Solved::Undecided(Undecided::Unchecked)),
    }
}

// What is answered where this was found.
fn answer_of<'p, 'a>(
    alloc: Global,
    start: &Records<'p, 'a>,
    universe: &Universe<'_, 'a>,
    reached: &Reached<'_, '_, '_>,
    encoding: &Encoding<'_>,
    outcome: &SearchAnswer,
    limit: u32,
) -> Result<Solved, AllocError>
    requires solvable { IsSolvable start.now universe.now }
    requires quiet { IsQuiet start.now }
    requires part { IsPart universe.now reached.now.numbers.items reached.now.part }
    requires closed { IsClosedPart universe.now reached.now.numbers.items }
    requires encoding { IsEncoding reached.now.part encoding.now }
    requires outcome { IsAnswer encoding.now.clauses limit outcome.now }
    ensures solved { IfOk result (λ solved. IsSolved universe.now start.now limit solved) }
    ensures answer { IfOk result (λ solved. IsAnswerTo outcome.now solved) }
{
    choice_of_part();
    standing_records_are_present();
    match outcome {
        SearchAnswer::Selection(numbers) => {
            let settled = settle_selection(alloc, universe, reached, encoding, numbers.as_slice())?;
            let solved = plan_selection(alloc, start, universe, settled.as_slice(), limit)?;
            Ok(solved)
        }
        SearchAnswer::Refutation(refutation) => {
            let solved = answer_of_refutation(
                alloc, start, universe, reached, encoding, refutation, limit,
            )?;
            Ok(solved)
        }
        SearchAnswer::Limit(spent) => Ok(Solved::Undecided(Undecided::Limit(*spent))),
    }
}

// Searches over what is reached by these clauses, where the start is quiet.
fn search_by<'p, 'a>(
    alloc: Global,
    start: &Records<'p, 'a>,
    universe: &Universe<'_, 'a>,
    reached: &Reached<'_, '_, '_>,
    encoding: &Encoding<'_>,
    limit: u32,
) -> Result<Solved, AllocError>
    requires solvable { IsSolvable start.now universe.now }
    requires quiet { IsQuiet start.now }
    requires part { IsPart universe.now reached.now.numbers.items reached.now.part }
    requires closed { IsClosedPart universe.now reached.now.numbers.items }
    requires encoding { IsEncoding reached.now.part encoding.now }
    ensures { IfOk result (λ solved. IsSolved universe.now start.now limit solved) }
{
    let clauses = encoding.clauses();
    let outcome = search(alloc, clauses, limit)?;
    let solved = answer_of(alloc, start, universe, reached, encoding, &outcome, limit)?;
    Ok(solved)
}

// Searches over what is reached, where the start is quiet.
fn search_over<'p, 'a>(
    alloc: Global,
    start: &Records<'p, 'a>,
    universe: &Universe<'_, 'a>,
    reached: &Reached<'_, '_, '_>,
    limit: u32,
) -> Result<Solved, AllocError>
    requires solvable { IsSolvable start.now universe.now }
    requires quiet { IsQuiet start.now }
    requires part { IsPart universe.now reached.now.numbers.items reached.now.part }
    requires closed { IsClosedPart universe.now reached.now.numbers.items }
    ensures { IfOk result (λ solved. IsSolved universe.now start.now limit solved) }
{
    let encoding = encode_part(alloc, &reached.part)?;
    search_by(alloc, start, universe, reached, &encoding, limit)
}

/// Solves the request of the universe from this start, with at most so many conflicts of the search above level 0: a plan
/// that is judged good; a refutation that is accepted and can be written, so that no selection is acceptable; or why it is undecided. A start
/// in which packages conflict isn't searched. What the request can reach is searched alone, and what is found is judged over
/// the whole universe. Costs what `reach` costs, what `encode_part` and `search` cost over what is reached, and then `settle`,
/// `order` and `check_plan`, or `check_refutation`. Memory alone can fail.
pub fn solve<'p, 'a>(
    alloc: Global,
    start: &Records<'p, 'a>,
    universe: &Universe<'_, 'a>,
    limit: u32,
) -> Result<Solved, AllocError>
    requires { IsSolvable start.now universe.now }
    ensures { IfOk result (λ solved. IsSolved universe.now start.now limit solved) }
{
    if !is_quiet(start) {
        return Ok(Solved::Undecided(Undecided::Start));
    }
    let reached = reach(alloc, universe)?;
    search_over(alloc, start, universe, &reached, limit)
}
