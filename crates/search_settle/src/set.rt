// A set of numbers as a list that says of each number whether the set holds it, and what clauses are after a change of it.

ghost use Rattle.std.specs.Prelude.{◌≡◌, ◌≢◌, ℕ, ◌<◌, length, IsTrue};
ghost use Rattle.std.specs.List.{list_all, list_any};
ghost use Rattle.search_settle.specs.Change.{after};
ghost use Rattle.search_settle.specs.Truth.{holds, is_clause_true, is_true_of};

use crate::change::Change;
use crate::place::number_of;

// Whether the set holds the number.
pub(crate) fn has(set: &Vec<bool>, number: usize) -> bool
    ensures { result ≡ holds set.now.items number }
{
    match set.get(number) {
        Some(held) => *held,
        None => false,
    }
}

// Writes whether the set holds a number for which it has a place.
pub(crate) fn put(set: &mut Vec<bool>, number: usize, held: bool)
    requires { number < length set.old.items }
    ensures kept { (other : ℕ) → other ≢ number → holds set.new.items other
        ≡ holds set.old.items other }
    ensures written { holds set.new.items number ≡ held }
    ensures long { length set.new.items ≡ length set.old.items }
{
    set[number] = held;
}

// Whether the set holds the number after the change.
fn has_after(set: &Vec<bool>, change: Change, number: usize) -> bool
    ensures { result ≡ after change (holds set.now.items) number }
{
    match change {
        Change::Leave(out) => has(set, number) && number != out as usize,
        Change::Replace(out, taken) => {
            has(set, number) && number != out as usize || number == taken as usize
        }
        Change::Add(taken) => has(set, number) || number == taken as usize,
    }
}

// Whether a literal is true after the change.
fn is_true_after(set: &Vec<bool>, change: Change, literal: i32) -> bool
    ensures { result ≡ is_true_of (after change (holds set.now.items)) literal }
{
    let selected = has_after(set, change, number_of(literal));
    if literal < 0 { !selected } else { selected }
}

// Whether a clause is true after the change.
pub(crate) fn is_clause_true_after(set: &Vec<bool>, change: Change, clause: &[i32]) -> bool
    ensures { result ≡ is_clause_true (after change (holds set.now.items)) clause.now }
{
    clause
        .iter()
        .any(|literal| is_true_after(set, change, *literal))
}
