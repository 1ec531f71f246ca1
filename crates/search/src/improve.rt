// The best set in hand. The first set is what the wishes in their order lead to; then each wish that it loses is tried
// once as the very first, and the better set is kept with its order. Fewer lost wishes are better, and of as many, fewer
// selected numbers that aren't the best of a wish. What is found here is tested once more in `answer`.

use crate::run::{Ended, refute, run};
use crate::start::start;
use crate::trim::Derivation;
use clauses::Clauses;
use search_state::table::{at, put};
use search_state::{SearchState, Trail, may_leave_out};
use std::alloc::{AllocError, Global};

/// Conflicts that are allowed once a set is in hand, in all.
const BUDGET: u32 = 1000;
/// How many lost wishes are tried.
const TRIES: u32 = 64;

/// What was found: a set, by number; a refutation; or more conflicts than were allowed, without a set.
#[derive(Drop)]
pub(crate) enum Outcome {
    Set(Vec<bool>),
    Refuted(Derivation),
    Spent,
}

// A set, and what it costs.
#[derive(Drop)]
struct Best {
    set: Vec<bool>,
    lost: usize,
    changed: usize,
}

impl Best {
    fn is_better(&self, other: &Best) -> bool {
        (self.lost, self.changed) < (other.lost, other.changed)
    }
}

// The set where all that is undecided is left out.
fn set_of(alloc: Global, given: &Clauses, trail: &Trail) -> Result<Vec<bool>, AllocError> {
    (0..(given.numbers() as usize).saturating_add(1))
        .map(|number| trail.assignment_of(number) == Some(true))
        .collect(alloc)
}

// Whether a wish has numbers and the set none of them.
fn loses(set: &Vec<bool>, wish: &[u32]) -> bool {
    !wish.is_empty() && !wish.iter().any(|number| at(set, *number as usize, false))
}

fn lost_by(given: &Clauses, set: &Vec<bool>) -> usize {
    (0..given.wishes())
        .filter(|wish| loses(set, given.wish(*wish)))
        .count()
}

// The set without the best number of each wish.
fn clear_best(given: &Clauses, set: &mut Vec<bool>) {
    for wish in 0..given.wishes() {
        if let Some(best) = given.wish(wish).first() {
            put(set, *best as usize, false);
        }
    }
}

fn changed_by(alloc: Global, given: &Clauses, set: &Vec<bool>) -> Result<usize, AllocError> {
    let mut others = set.as_slice().to_vec(alloc)?;
    clear_best(given, &mut others);
    Ok(others.iter().filter(|selected| **selected).count())
}

// The set at the end of a run, with its cost.
fn best_of(alloc: Global, state: &SearchState<'_>) -> Result<Best, AllocError> {
    let given = state.store.given();
    let set = set_of(alloc, given, &state.trail)?;
    let lost = lost_by(given, &set);
    let changed = changed_by(alloc, given, &set)?;
    Ok(Best { set, lost, changed })
}

// Whether a wish is worth a try: the set loses it, it wasn't tried, and it isn't false before all decisions.
fn is_worth(state: &SearchState<'_>, set: &Vec<bool>, tried: &Vec<bool>, wish: usize) -> bool {
    !at(tried, wish, true)
        && loses(set, state.store.given().wish(wish))
        && state.trail.value(state.agenda.literal_of(wish)) != Some(false)
}

// The place in the order of the first wish that is worth a try.
fn next_try(state: &SearchState<'_>, set: &Vec<bool>, tried: &Vec<bool>) -> Option<usize> {
    (0..state.agenda.len()).find(|place| is_worth(state, set, tried, state.agenda.wish_at(*place)))
}

// Runs with the wish at a place in front, and answers the set if it is better than the best one.
fn attempt(
    alloc: Global,
    state: &mut SearchState<'_>,
    left: &mut u32,
    place: usize,
    best: &Best,
) -> Result<Option<Best>, AllocError> {
    state.agenda.put_in_front(place);
    if let Ended::Set = run(alloc, state, left)? {
        let candidate = best_of(alloc, state)?;
        if candidate.is_better(best) {
            return Ok(Some(candidate));
        }
    }
    state.agenda.put_back(place);
    Ok(None)
}

// The best set, from the one at the end of a first run on.
fn improve(
    alloc: Global,
    state: &mut SearchState<'_>,
    mut left: u32,
) -> Result<Vec<bool>, AllocError> {
    let mut best = best_of(alloc, state)?;
    let mut tried = vec![in alloc; false; state.agenda.len()]?;
    for _ in 0..TRIES {
        state.back_to(0);
        let Some(place) = next_try(state, &best.set, &tried) else {
            return Ok(best.set);
        };
        put(&mut tried, state.agenda.wish_at(place), true);
        if let Some(better) = attempt(alloc, state, &mut left, place, &best)? {
            best = better;
        }
    }
    Ok(best.set)
}

// The set that was in hand before all decisions, or else what ended the first run.
fn fall_back(hand: Option<Vec<bool>>, otherwise: Outcome) -> Outcome {
    match hand {
        Some(set) => Outcome::Set(set),
        None => otherwise,
    }
}

// The set where nothing is decided, if it makes every clause true.
fn in_hand(alloc: Global, state: &SearchState<'_>) -> Result<Option<Vec<bool>>, AllocError> {
    if may_leave_out(&state.store, &state.trail) {
        let set = set_of(alloc, state.store.given(), &state.trail)?;
        Ok(Some(set))
    } else {
        Ok(None)
    }
}

// From the state before the first decision on. Once a set is in hand, conflicts no longer count against the limit: else
// a low limit would answer a set that leaves out all that isn't forced.
fn decide(alloc: Global, state: &mut SearchState<'_>, limit: u32) -> Result<Outcome, AllocError> {
    let hand = in_hand(alloc, state)?;
    let mut left = if hand.is_some() { BUDGET } else { limit };
    match run(alloc, state, &mut left)? {
        Ended::Refuted(refutation) => Ok(fall_back(hand, Outcome::Refuted(refutation))),
        Ended::Spent => Ok(fall_back(hand, Outcome::Spent)),
        Ended::Set => {
            let left = if hand.is_some() { left } else { BUDGET };
            Ok(Outcome::Set(improve(alloc, state, left)?))
        }
    }
}

// The number of a clause that is false before all decisions, if there is one.
fn first_conflict(state: &mut SearchState<'_>, conflict: Option<usize>) -> Option<usize> {
    match conflict {
        Some(_) => conflict,
        None => state.propagate(),
    }
}

/// The best set found, a refutation, or neither within the limit of conflicts.
pub(crate) fn find(alloc: Global, given: &Clauses, limit: u32) -> Result<Outcome, AllocError> {
    let (mut state, conflict) = start(alloc, given)?;
    match first_conflict(&mut state, conflict) {
        Some(conflict) => Ok(Outcome::Refuted(refute(alloc, &mut state, conflict)?)),
        None => decide(alloc, &mut state, limit),
    }
}
