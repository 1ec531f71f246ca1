// Leaving out all that is undecided: which clauses that makes false, and whether it makes any.

use crate::store::Store;
use crate::trail::Trail;

// Whether a literal is true where all that is undecided is left out.
fn is_true_without(trail: &Trail, literal: i32) -> bool {
    trail.value(literal).unwrap_or(literal < 0)
}

fn is_made_true(trail: &Trail, clause: &[i32]) -> bool {
    clause
        .iter()
        .any(|literal| is_true_without(trail, *literal))
}

/// The first undecided literal of a clause that leaving out makes false; none of another clause.
pub(crate) fn first_left(trail: &Trail, clause: &[i32]) -> Option<i32> {
    if is_made_true(trail, clause) {
        return None;
    }
    clause
        .iter()
        .copied()
        .find(|literal| trail.value(*literal).is_none())
}

/// The first undecided literal of the first given clause that leaving out makes false. Linear in the literals.
pub(crate) fn first_left_of_all(store: &Store<'_>, trail: &Trail) -> Option<i32> {
    let given = store.given();
    (0..given.len()).find_map(|place| first_left(trail, given.clause(place)))
}

/// Whether leaving out all that is undecided makes every given clause true. Linear in the literals.
pub fn may_leave_out(store: &Store<'_>, trail: &Trail) -> bool {
    let given = store.given();
    (0..given.len()).all(|place| is_made_true(trail, given.clause(place)))
}
