// Unit propagation: what each literal of the trail makes false is looked at by the clauses that watch it, until nothing
// is left or a clause is false. The lists of watches stand in `watch`, the trail in `trail`.

use crate::literal::negation;
use crate::store::Store;
use crate::trail::Trail;
use crate::watch::{Watches, clause_of};

// What came of a watch whose literal became false.
enum Looked {
    Stays,
    Moves(i32),
    Conflict(usize),
}

// A literal of the clause that isn't false, other than the watched one.
fn another(clause: &[i32], trail: &Trail, watched: i32) -> Option<i32> {
    clause.iter().copied().find(|literal| *literal != watched
        && trail.value(*literal) != Some(false))
}

// The clause has no literal but this one that isn't false.
fn only(trail: &mut Trail, literal: i32, clause: usize) -> Looked {
    match trail.value(literal) {
        Some(false) => Looked::Conflict(clause),
        Some(true) => Looked::Stays,
        None => {
            trail.enqueue(literal, Some(clause));
            Looked::Stays
        }
    }
}

fn visit(store: &Store<'_>, trail: &mut Trail, watches: &Watches, watch: usize) -> Looked {
    let partner = watches.partner(watch);
    if trail.value(partner) == Some(true) {
        return Looked::Stays;
    }
    let clause = clause_of(watch);
    match another(store.clause(clause), trail, partner) {
        Some(literal) => Looked::Moves(literal),
        None => only(trail, partner, clause),
    }
}

// Walks over the watches of a literal that became false.
fn walk(
    store: &Store<'_>,
    trail: &mut Trail,
    watches: &mut Watches,
    literal: i32,
) -> Option<usize> {
    let mut before = None;
    let mut next = watches.first(literal);
    for _ in 0..watches.room() {
        let Some(watch) = next else {
            return None;
        };
        next = watches.after(watch);
        match visit(store, trail, watches, watch) {
            Looked::Stays => before = Some(watch),
            Looked::Moves(other) => watches.move_to(watch, before, literal, other),
            Looked::Conflict(clause) => return Some(clause),
        }
    }
    None
}

/// Makes true what has to be, and answers the number of a clause that is false, if there is one. No longer than the
/// lists of watches of the literals that become true, with their clauses.
pub(crate) fn propagate(
    store: &Store<'_>,
    trail: &mut Trail,
    watches: &mut Watches,
) -> Option<usize> {
    for _ in 0..trail.room() {
        let Some(literal) = trail.next() else {
            return None;
        };
        if let Some(clause) = walk(store, trail, watches, negation(literal)) {
            return Some(clause);
        }
    }
    None
}
