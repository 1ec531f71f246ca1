// The answer, and what decides it. Whatever was found elsewhere (`improve`), a selection is answered only where one pass
// over all clauses says that it makes every one true (`pass`), and a limit only where some clause leaves a choice
// (`choice`).

ghost use Rattle.std.specs.Prelude.{IfOk};
ghost use Rattle.search.specs.Found.{IsAnswer};

use crate::choice::some_has_two;
use crate::improve::{Outcome, find};
use crate::pass::{fits, makes_all_true, members};
use crate::trim::Derivation;
use clauses::Clauses;
use std::alloc::{AllocError, Global};

/// The answer: a selection that makes every clause true, what is to be judged as a refutation, or the limit, where more
/// conflicts came.
#[derive(Drop)]
pub enum SearchAnswer {
    /// The selected numbers, ascending.
    Selection(Vec<u32>),
    /// The premises and lines.
    Refutation(Derivation),
    /// The limit handed in.
    Limit(u32),
}

// The answer without a set. Where no clause leaves a choice the search needs no conflict to decide, so the second case
// doesn't come; its refutation is refused by any checker.
fn without_set(alloc: Global, given: &Clauses, limit: u32) -> SearchAnswer
    ensures { IsAnswer given.now limit result }
{
    if some_has_two(given) {
        SearchAnswer::Limit(limit)
    } else {
        SearchAnswer::Refutation(Derivation::new(alloc))
    }
}

// The answer with a set, which has to pass.
fn with_set(
    alloc: Global,
    given: &Clauses,
    limit: u32,
    set: &Vec<bool>,
) -> Result<SearchAnswer, AllocError>
    ensures { IfOk result (λ answer. IsAnswer given.now limit answer) }
{
    if fits(set, given) && makes_all_true(set, given) {
        Ok(SearchAnswer::Selection(members(alloc, set)?))
    } else {
        Ok(without_set(alloc, given, limit))
    }
}

/// Searches for a selection that makes every clause true, with at most so many conflicts above level 0. No bound on the
/// time follows from that but this: between two conflicts it is linear in the clauses' literals for each number.
pub fn search(alloc: Global, clauses: &Clauses, limit: u32) -> Result<SearchAnswer, AllocError>
    ensures { IfOk result (λ answer. IsAnswer clauses.now limit answer) }
{
    match find(alloc, clauses, limit)? {
        Outcome::Set(set) => with_set(alloc, clauses, limit, &set),
        Outcome::Refuted(refutation) => Ok(SearchAnswer::Refutation(refutation)),
        Outcome::Spent => Ok(without_set(alloc, clauses, limit)),
    }
}
