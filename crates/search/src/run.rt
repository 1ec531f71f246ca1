// Running on from the state at hand to a set, a refutation or the end of what is allowed.

use crate::trim::{Derivation, refutation_of};
use search_state::SearchState;
use std::alloc::{AllocError, Global};

/// How a run ended: with a set once all that is undecided is left out, with a refutation, or with more conflicts than
/// were allowed.
#[derive(Drop)]
pub(crate) enum Ended {
    Set,
    Refuted(Derivation),
    Spent,
}

// Propagates and decides until a clause is false; none where nothing is left to be decided.
fn next_conflict(state: &mut SearchState<'_>) -> Result<Option<usize>, AllocError> {
    for _ in 0..state.trail.room() {
        let conflict = state.propagate();
        if conflict.is_some() {
            return Ok(conflict);
        }
        if !state.decide()? {
            return Ok(None);
        }
    }
    Ok(None)
}

/// The refutation by a clause that is false at level 0. An empty clause needs no line.
pub(crate) fn refute(
    alloc: Global,
    state: &mut SearchState<'_>,
    conflict: usize,
) -> Result<Derivation, AllocError> {
    if state.store.clause(conflict).is_empty() {
        return refutation_of(alloc, &state.store, conflict);
    }
    let learned = state.analyze(alloc, conflict)?;
    let last = state.log(&learned)?;
    refutation_of(alloc, &state.store, last)
}

// What comes of a conflict; none where the run goes on.
fn after_conflict(
    alloc: Global,
    state: &mut SearchState<'_>,
    conflict: usize,
    left: &mut u32,
) -> Result<Option<Ended>, AllocError> {
    if state.trail.level() == 0 {
        return Ok(Some(Ended::Refuted(refute(alloc, state, conflict)?)));
    }
    match left.checked_sub(1) {
        None => Ok(Some(Ended::Spent)),
        Some(fewer) => {
            *left = fewer;
            state.learn(alloc, conflict)?;
            Ok(None)
        }
    }
}

/// Runs on, with as many conflicts above level 0 as are left.
pub(crate) fn run(
    alloc: Global,
    state: &mut SearchState<'_>,
    left: &mut u32,
) -> Result<Ended, AllocError> {
    for _ in 0..=*left {
        let Some(conflict) = next_conflict(state)? else {
            return Ok(Ended::Set);
        };
        if let Some(ended) = after_conflict(alloc, state, conflict, left)? {
            return Ok(ended);
        }
    }
    Ok(Ended::Spent)
}
