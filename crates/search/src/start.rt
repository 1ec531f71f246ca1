// The state before the first decision: the clauses of the wishes, two watches for each clause of two different literals
// or more, and what clauses of one literal make true.

use clauses::Clauses;
use search_state::literal::{negation, selects};
use search_state::{Agenda, SearchState, Store, Trail, Watches};
use std::alloc::{AllocError, Global};

// The literal that a wish decides: its number where it has one alone, and else a number of its own, which no clause
// makes true, so that it comes into no refutation.
fn literal_of(given: &Clauses, wish: usize) -> i32 {
    let literal = match given.wish(wish) {
        [] => None,
        [only] => selects(*only as usize),
        _ => selects(
            (given.numbers() as usize)
                .saturating_add(wish)
                .saturating_add(1),
        ),
    };
    literal.unwrap_or(0)
}

// Where the wish's own number is selected, one of its numbers is.
fn add_clause(store: &mut Store<'_>, wish: usize, literal: i32) -> Result<(), AllocError> {
    store.push(negation(literal))?;
    for number in store.given().wish(wish) {
        store.push(selects(*number as usize).unwrap_or(0))?;
    }
    store.end_wish()
}

// The literals that the wishes decide; their clauses are added.
fn add_wishes(alloc: Global, store: &mut Store<'_>) -> Result<Vec<i32>, AllocError> {
    let mut literals = Vec::new(alloc);
    let given = store.given();
    for wish in 0..given.wishes() {
        let literal = literal_of(given, wish);
        literals.push(literal)?;
        if given.wish(wish).len() > 1 {
            add_clause(store, wish, literal)?;
        }
    }
    Ok(literals)
}

// Whether one of the other literals of a clause is the negation of its first, so that it is always true: as where a
// package meets its own clause.
fn meets_itself(first: i32, others: &[i32]) -> bool {
    others.contains(&negation(first))
}

// The first literal that isn't this one, which may stand in a clause many times.
fn another(first: i32, others: &[i32]) -> Option<i32> {
    others.iter().copied().find(|literal| *literal != first)
}

// Watches the first literal of a clause and the first that is another, unless the clause is always true.
fn watch(
    watches: &mut Watches,
    clause: usize,
    first: i32,
    second: i32,
    others: &[i32],
) -> Result<(), AllocError> {
    if meets_itself(first, others) {
        return Ok(());
    }
    watches.attach(clause, first, second)
}

// Takes a clause up, and answers its number where it is false.
fn take_up(
    trail: &mut Trail,
    watches: &mut Watches,
    clause: &[i32],
    number: usize,
) -> Result<Option<usize>, AllocError> {
    let [first, others @ ..] = clause else {
        return Ok(Some(number));
    };
    let Some(second) = another(*first, others) else {
        return Ok(make_true(trail, *first, number));
    };
    watch(watches, number, *first, second, others)?;
    Ok(None)
}

// Makes the literal of a clause of one true, and answers the clause where it is false.
fn make_true(trail: &mut Trail, literal: i32, clause: usize) -> Option<usize> {
    match trail.value(literal) {
        Some(true) => None,
        Some(false) => Some(clause),
        None => {
            trail.enqueue(literal, Some(clause));
            None
        }
    }
}

// Takes up all clauses, or answers the number of the first that is false.
fn take_up_all(
    store: &Store<'_>,
    trail: &mut Trail,
    watches: &mut Watches,
) -> Result<Option<usize>, AllocError> {
    for number in 1..store.len().saturating_add(1) {
        let conflict = take_up(trail, watches, store.clause(number), number)?;
        if conflict.is_some() {
            return Ok(conflict);
        }
    }
    Ok(None)
}

/// The state before the first decision, and the number of a clause that is false in it, if there is one.
pub(crate) fn start<'c>(
    alloc: Global,
    given: &'c Clauses,
) -> Result<(SearchState<'c>, Option<usize>), AllocError> {
    let mut store = Store::new(alloc, given);
    let literals = add_wishes(alloc, &mut store)?;
    let numbers = (given.numbers() as usize).saturating_add(literals.len());
    let mut trail = Trail::new(alloc, numbers)?;
    let mut watches = Watches::new(alloc, numbers)?;
    let conflict = take_up_all(&store, &mut trail, &mut watches)?;
    let agenda = Agenda::new(alloc, literals)?;
    Ok((
        SearchState {
            store,
            trail,
            watches,
            agenda,
        },
        conflict,
    ))
}
