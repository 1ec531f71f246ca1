// Change by change to a selection that is at rest.

ghost use Rattle.std.specs.Prelude.{◌≡◌, ◌≤◌, ◌<◌, ◌+◌, ◌*◌, ⊤, ℕ, Bool, true, false, IfOk, OnOk, MatchOption, length};
ghost use Rattle.search_settle.specs.Change.{IsWithin, after};
ghost use Rattle.search_settle.specs.Given.{IsIndexed};
ghost use Rattle.search_settle.specs.Moves.{IsAtRest, IsMove, distance};
ghost use Rattle.search_settle.specs.Reach.{AllReached, PartsAreTrue, part_of};
ghost use Rattle.search_settle.specs.Settled.{IsCovered, IsSettled};
ghost use Rattle.search_settle.specs.Truth.{AreTrue, holds};

use crate::change::Change;
use crate::given::Given;
use crate::known::Known;
use crate::moves::{is_number, move_of};
use crate::queue::Queue;
use crate::reached::{Reached, reached_in};
use crate::set::{has, put};
use std::alloc::{AllocError, Global};

// Makes the change.
fn make(set: &mut Vec<bool>, greatest: u32, change: Change)
    requires within { IsWithin greatest change }
    requires long { length set.old.items ≡ greatest + 1 }
    ensures made { (number : ℕ) → holds set.new.items number
        ≡ after change (holds set.old.items) number }
    ensures long { length set.new.items ≡ length set.old.items }
{
    match change {
        Change::Leave(out) => put(set, out as usize, false),
        Change::Replace(out, taken) => {
            put(set, out as usize, false);
            put(set, taken as usize, true);
        }
        Change::Add(taken) => put(set, taken as usize, true),
    }
}

// Makes a change that brings nearer and keeps all clauses true.
fn take(given: &Given<'_>, known: &Known, set: &mut Vec<bool>, change: Change)
    requires long { length set.old.items ≡ given.now.numbers + 1 }
    requires allowed { IsMove given.now known.now (holds set.old.items) change }
    ensures long { length set.new.items ≡ length set.old.items }
    ensures makes_true { AreTrue (holds set.new.items) given.now.clauses }
    ensures nearer { distance known.now given.now.numbers (holds set.new.items)
        < distance known.now given.now.numbers (holds set.old.items) }
{
    make(set, given.numbers(), change);
}

// A change that brings nearer and is allowed, if there is one.
fn next_move(given: &Given<'_>, known: &Known, set: &Vec<bool>) -> Option<Change>
    requires indexed { IsIndexed given.now }
    requires before { AreTrue (holds set.now.items) given.now.clauses }
    ensures { MatchOption result
        ((number : ℕ) → 1 ≤ number → number ≤ given.now.numbers
        → IsAtRest given.now known.now (holds set.now.items) number)
        (IsMove given.now known.now (holds set.now.items)) }
{
    for number in 1..=given.numbers() {
        let change = move_of(given, known, set, number);
        if change.is_some() {
            return change;
        }
    }
    None
}

// A member that isn't reached, if there is one.
fn unreached_member(set: &Vec<bool>, reached: &Reached) -> Option<usize>
    ensures { MatchOption result
        ((number : ℕ) → holds set.now.items number ≡ true → holds reached.now.marks number ≡ true)
        (λ number. (number < length set.now.items) × (holds set.now.items number ≡ true)
        × (holds reached.now.marks number ≡ false)) }
{
    for number in 0..set.len() {
        if has(set, number) && !reached.has(number) {
            return Some(number);
        }
    }
    None
}

// Leaves out the members that aren't reached.
fn keep_reached(set: &mut Vec<bool>, reached: &Reached)
    ensures kept { (number : ℕ) → holds set.new.items number
        ≡ part_of (holds set.old.items) (holds reached.now.marks) number }
    ensures long { length set.new.items ≡ length set.old.items }
{
    for number in 0..set.len() {
        if !reached.has(number) {
            put(set, number, false);
        }
    }
}

// Makes the numbers wait again that are in clauses with the number.
fn wake(given: &Given<'_>, queue: &mut Queue, number: u32) -> Result<(), AllocError> {
    for place in given.places_with(number) {
        queue.push_all(given.clause(*place))?;
    }
    for place in given.places_without(number) {
        queue.push_all(given.clause(*place))?;
    }
    Ok(())
}

// The same of the numbers of a change.
fn wake_changed(given: &Given<'_>, queue: &mut Queue, change: Change) -> Result<(), AllocError> {
    match change {
        Change::Leave(out) => wake(given, queue, out),
        Change::Replace(out, taken) => {
            wake(given, queue, out)?;
            wake(given, queue, taken)
        }
        Change::Add(taken) => wake(given, queue, taken),
    }
}

// A change about what needn't be a number of these clauses.
fn move_about(given: &Given<'_>, known: &Known, set: &Vec<bool>, number: u32) -> Option<Change>
    requires indexed { IsIndexed given.now }
    requires before { AreTrue (holds set.now.items) given.now.clauses }
    ensures { MatchOption result ⊤ (IsMove given.now known.now (holds set.now.items)) }
{
    if is_number(given, number) {
        move_of(given, known, set, number)
    } else {
        None
    }
}

// Of the numbers of a wish the first that has a change which brings nearer and is allowed, with that change.
fn first_move(given: &Given<'_>, known: &Known, set: &Vec<bool>, wish: &[u32]) -> Option<Change>
    requires indexed { IsIndexed given.now }
    requires before { AreTrue (holds set.now.items) given.now.clauses }
    ensures { MatchOption result ⊤ (IsMove given.now known.now (holds set.now.items)) }
{
    for number in wish {
        let change = move_about(given, known, set, *number);
        if change.is_some() {
            return change;
        }
    }
    None
}

// The same change, but where a number is added, one that adds the first number of its wish that may be added.
fn with_best_added(given: &Given<'_>, known: &Known, set: &Vec<bool>, change: Change) -> Change
    requires indexed { IsIndexed given.now }
    requires before { AreTrue (holds set.now.items) given.now.clauses }
    requires allowed { IsMove given.now known.now (holds set.now.items) change }
    ensures { IsMove given.now known.now (holds set.now.items) result }
{
    match change {
        Change::Add(taken) => {
            match first_move(given, known, set, given.wish_for(taken)) {
                Some(best) => best,
                None => change,
            }
        }
        Change::Leave(_) | Change::Replace(_, _) => change,
    }
}

// Makes a change about a number that brings nearer and is allowed, if there is one.
fn advance(given: &Given<'_>, known: &Known, set: &mut Vec<bool>, number: u32) -> Option<Change>
    requires indexed { IsIndexed given.now }
    requires before { AreTrue (holds set.old.items) given.now.clauses }
    requires long { length set.old.items ≡ given.now.numbers + 1 }
    ensures long { length set.new.items ≡ length set.old.items }
    ensures makes_true { AreTrue (holds set.new.items) given.now.clauses }
    ensures nearer { distance known.now given.now.numbers (holds set.new.items)
        ≤ distance known.now given.now.numbers (holds set.old.items) }
{
    let change = move_about(given, known, set, number)?;
    let best = with_best_added(given, known, set, change);
    take(given, known, set, best);
    Some(best)
}

// Makes changes until no number waits. All wait at first, and again those in clauses with a number that was changed.
fn advance_all(
    alloc: Global,
    given: &Given<'_>,
    known: &Known,
    set: &mut Vec<bool>,
) -> Result<(), AllocError>
    requires indexed { IsIndexed given.now }
    requires before { AreTrue (holds set.old.items) given.now.clauses }
    requires long { length set.old.items ≡ given.now.numbers + 1 }
    ensures long { OnOk result (length set.new.items ≡ length set.old.items) }
    ensures makes_true { OnOk result (AreTrue (holds set.new.items) given.now.clauses) }
    ensures nearer { OnOk result (distance known.now given.now.numbers (holds set.new.items)
        ≤ distance known.now given.now.numbers (holds set.old.items)) }
{
    let mut queue = Queue::of_all(alloc, given.numbers())?;
    for _ in 0..u64::MAX {
        let Some(number) = queue.pop() else {
            return Ok(());
        };
        if let Some(change) = advance(given, known, set, number) {
            wake_changed(given, &mut queue, change)?;
        }
    }
    Ok(())
}

// Leaves out the members that aren't reached, if there are any, and says whether there were.
fn drop_unreached(
    alloc: Global,
    given: &Given<'_>,
    known: &Known,
    set: &mut Vec<bool>,
) -> Result<bool, AllocError>
    requires before { AreTrue (holds set.old.items) given.now.clauses }
    requires long { length set.old.items ≡ given.now.numbers + 1 }
    requires covered { IsCovered known.now }
    requires parts { PartsAreTrue given.now known.now }
    ensures long { OnOk result (length set.new.items ≡ length set.old.items) }
    ensures makes_true { OnOk result (AreTrue (holds set.new.items) given.now.clauses) }
    ensures nearer { IfOk result
        (λ dropped. dropped ≡ true → distance known.now given.now.numbers (holds set.new.items)
        < distance known.now given.now.numbers (holds set.old.items)) }
    ensures same { IfOk result (λ dropped. dropped ≡ false → set.new ≡ set.old) }
    ensures reached { IfOk result
        (λ dropped. dropped ≡ false → AllReached given.now known.now (holds set.old.items)) }
{
    let reached = reached_in(alloc, given, known, set)?;
    match unreached_member(set, &reached) {
        None => Ok(false),
        Some(_) => {
            keep_reached(set, &reached);
            Ok(true)
        }
    }
}

// Changes a selection as far as can be told at once, and says whether more is to be done.
fn improve(
    alloc: Global,
    given: &Given<'_>,
    known: &Known,
    set: &mut Vec<bool>,
) -> Result<bool, AllocError>
    requires indexed { IsIndexed given.now }
    requires before { AreTrue (holds set.old.items) given.now.clauses }
    requires long { length set.old.items ≡ given.now.numbers + 1 }
    requires covered { IsCovered known.now }
    requires parts { PartsAreTrue given.now known.now }
    ensures long { OnOk result (length set.new.items ≡ length set.old.items) }
    ensures makes_true { OnOk result (AreTrue (holds set.new.items) given.now.clauses) }
    ensures nearer { IfOk result
        (λ changed. changed ≡ true → distance known.now given.now.numbers (holds set.new.items)
        < distance known.now given.now.numbers (holds set.old.items)) }
    ensures settled { IfOk result
        (λ changed. changed ≡ false → IsSettled given.now known.now (holds set.new.items)) }
{
    advance_all(alloc, given, known, set)?;
    match next_move(given, known, set) {
        Some(change) => {
            take(given, known, set, change);
            Ok(true)
        }
        None => drop_unreached(alloc, given, known, set),
    }
}

/// Changes a selection that makes all clauses true until it is settled. Memory alone can fail. Each round is linear in the
/// literals, and in those of the clauses with changed numbers; another round comes only where members weren't reached.
pub(crate) fn settle_set(
    alloc: Global,
    given: &Given<'_>,
    known: &Known,
    set: &mut Vec<bool>,
) -> Result<(), AllocError>
    requires indexed { IsIndexed given.now }
    requires before { AreTrue (holds set.old.items) given.now.clauses }
    requires long { length set.old.items ≡ given.now.numbers + 1 }
    requires covered { IsCovered known.now }
    requires parts { PartsAreTrue given.now known.now }
    ensures long { OnOk result (length set.new.items ≡ given.now.numbers + 1) }
    ensures makes_true { OnOk result (AreTrue (holds set.new.items) given.now.clauses) }
    ensures settled { OnOk result (IsSettled given.now known.now (holds set.new.items)) }
{
    'rounds: loop {
        if !improve(alloc, given, known, set)? {
            return Ok(());
        }
    }
}
