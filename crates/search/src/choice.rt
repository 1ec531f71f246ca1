// Whether a clause leaves a choice: whether it says of two numbers that one of them is selected.

ghost use Rattle.std.specs.Prelude.{◌≡◌, ◌↔◌, IsTrue};
ghost use Rattle.std.specs.List.{Any, position};
ghost use Rattle.search.specs.Choice.{HasTwo, IsOtherThan, is_positive};

use clauses::Clauses;

// Whether the literal says that a number is selected.
fn is_positive(literal: i32) -> bool
    ensures { result ≡ is_positive literal }
{
    literal > 0
}

// The place of the first literal that says that a number is selected.
fn first_positive(clause: &[i32]) -> Option<usize>
    ensures { result ≡ position is_positive clause.now }
{
    clause.iter().position(|literal| is_positive(*literal))
}

// Whether the literal says that another number is selected.
fn is_other_than(first: i32, literal: i32) -> bool
    ensures { IsTrue result ↔ IsOtherThan first literal }
{
    is_positive(literal) && literal != first
}

// Whether a literal says that another number is selected.
fn has_other_than(clause: &[i32], first: &i32) -> bool
    ensures { IsTrue result ↔ Any (IsOtherThan first.now) clause.now }
{
    clause.iter().any(|literal| is_other_than(*first, *literal))
}

// Whether the clause says of two numbers that one is selected. One number may stand many times, so the others are
// compared with the first one alone.
fn has_two(clause: &[i32]) -> bool
    ensures { IsTrue result ↔ HasTwo clause.now }
{
    match first_positive(clause) {
        Some(place) => has_other_than(clause, &clause[place]),
        None => false,
    }
}

/// Whether some clause says of two numbers that one is selected. Linear in the literals.
pub(crate) fn some_has_two(given: &Clauses) -> bool
    ensures { IsTrue result ↔ Any HasTwo given.now.clauses }
{
    for place in 0..given.len() {
        if has_two(given.clause(place)) {
            return true;
        }
    }
    false
}
