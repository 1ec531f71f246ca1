// Which changes bring a selection nearer to the start, and whether one is allowed: whether all clauses stay true.

ghost use Rattle.std.specs.Prelude.{◌≡◌, ◌≤◌, ◌<◌, ◌+◌, ◌*◌, ◌↔◌, ℕ, IsTrue, MatchOption, Some, length, true, false};
ghost use Rattle.search_settle.specs.Change.{IsWithin, after};
ghost use Rattle.std.specs.List.{Contains, list_any};
ghost use Rattle.search_settle.specs.Given.{AreSiblings, IsIndexed, is_sibling_selected, places_without, sibling_at};
ghost use Rattle.search_settle.specs.Moves.{IsAtRest, IsBetter, IsMove, IsNearer, IsRefused};
ghost use Rattle.search_settle.specs.declared.change.Change.TheVariants as Change;
ghost use Rattle.search_settle.specs.Truth.{AreTrue, holds};

use crate::change::Change;
use crate::given::Given;
use crate::known::Known;
use crate::place::{selected_place, unselected_place};
use crate::set::has;

/// Whether all clauses stay true by the change: those with a literal that it makes false do.
pub(crate) fn is_allowed(given: &Given<'_>, set: &Vec<bool>, change: Change) -> bool
    requires indexed { IsIndexed given.now }
    requires before { AreTrue (holds set.now.items) given.now.clauses }
    requires within { IsWithin given.now.numbers change }
    ensures { IsTrue result ↔ AreTrue (after change (holds set.now.items)) given.now.clauses }
{
    match change {
        Change::Leave(out) => given.are_true_after(set, change, selected_place(out)),
        Change::Replace(out, taken) => {
            given.are_true_after(set, change, selected_place(out))
                && given.are_true_after(set, change, unselected_place(taken))
        }
        Change::Add(taken) => given.are_true_after(set, change, unselected_place(taken)),
    }
}

// Whether the sibling of which the premise at a place speaks, if it speaks of one, is selected.
fn is_sibling_selected(given: &Given<'_>, set: &Vec<bool>, number: u32, place: usize) -> bool
    ensures { result ≡ is_sibling_selected given.now (holds set.now.items) number place }
{
    match given.sibling_at(number, place) {
        None => false,
        Some(other) => has(set, other as usize),
    }
}

// Whether a sibling of the number is selected.
fn has_selected_sibling(given: &Given<'_>, set: &Vec<bool>, number: u32) -> bool
    ensures { (result ≡ false)
        ↔ ((other : ℕ) → AreSiblings given.now number other → holds set.now.items other ≡ false) }
{
    given
        .places_without(number)
        .iter()
        .any(|place| is_sibling_selected(given, set, number, *place))
}

// Whether putting the one in place of the other, a sibling, brings nearer.
fn is_better(known: &Known, set: &Vec<bool>, out: u32, taken: u32) -> bool
    ensures { IsTrue result ↔ IsBetter known.now (holds set.now.items) out taken }
{
    has(&known.stood, taken as usize)
        && !has(&known.stood, out as usize)
        && !has(set, taken as usize)
        && has(&known.present, taken as usize) == has(&known.present, out as usize)
}

// The change that leaves out the number, a member whose name wasn't present, if it is allowed.
fn leaving(given: &Given<'_>, known: &Known, set: &Vec<bool>, number: u32) -> Option<Change>
    requires indexed { IsIndexed given.now }
    requires before { AreTrue (holds set.now.items) given.now.clauses }
    requires within { (1 ≤ number) × (number ≤ given.now.numbers) }
    ensures { MatchOption result
        (IsRefused given.now known.now (holds set.now.items) (Change.Leave number))
        (IsMove given.now known.now (holds set.now.items)) }
{
    let change = Change::Leave(number);
    let nearer = has(set, number as usize) && !has(&known.present, number as usize);
    if nearer && is_allowed(given, set, change) {
        Some(change)
    } else {
        None
    }
}

// Whether adding the number brings nearer: its name was present and has no member.
fn is_missed(given: &Given<'_>, known: &Known, set: &Vec<bool>, number: u32) -> bool
    ensures { IsTrue result
        ↔ IsNearer given.now known.now (holds set.now.items) (Change.Add number) }
{
    if has_selected_sibling(given, set, number) {
        return false;
    }
    !has(set, number as usize) && has(&known.present, number as usize)
}

// The change that adds the number, of a name that was present and has no member, if it is allowed.
fn adding(given: &Given<'_>, known: &Known, set: &Vec<bool>, number: u32) -> Option<Change>
    requires indexed { IsIndexed given.now }
    requires before { AreTrue (holds set.now.items) given.now.clauses }
    requires within { (1 ≤ number) × (number ≤ given.now.numbers) }
    ensures { MatchOption result
        (IsRefused given.now known.now (holds set.now.items) (Change.Add number))
        (IsMove given.now known.now (holds set.now.items)) }
{
    let change = Change::Add(number);
    if is_missed(given, known, set, number) && is_allowed(given, set, change) {
        Some(change)
    } else {
        None
    }
}

/// Whether a number is from 1 to the greatest.
pub(crate) fn is_number(given: &Given<'_>, number: u32) -> bool
    ensures { IsTrue result ↔ ((1 ≤ number) × (number ≤ given.now.numbers)) }
{
    1 <= number && number <= given.numbers()
}

// The change that puts a sibling in place of the number, a member, if that brings nearer and is allowed.
fn replacing_by(
    given: &Given<'_>,
    known: &Known,
    set: &Vec<bool>,
    out: u32,
    taken: u32,
) -> Option<Change>
    requires indexed { IsIndexed given.now }
    requires before { AreTrue (holds set.now.items) given.now.clauses }
    requires within { (1 ≤ out) × (out ≤ given.now.numbers) }
    requires selected { holds set.now.items out ≡ true }
    requires siblings { AreSiblings given.now out taken }
    ensures { MatchOption result
        (IsRefused given.now known.now (holds set.now.items) (Change.Replace out taken))
        (IsMove given.now known.now (holds set.now.items)) }
{
    let change = Change::Replace(out, taken);
    if is_number(given, taken)
        && is_better(known, set, out, taken)
        && is_allowed(given, set, change)
    {
        Some(change)
    } else {
        None
    }
}

// The same by the sibling of which the premise at a place speaks.
fn replacing_at(
    given: &Given<'_>,
    known: &Known,
    set: &Vec<bool>,
    out: u32,
    place: usize,
) -> Option<Change>
    requires indexed { IsIndexed given.now }
    requires before { AreTrue (holds set.now.items) given.now.clauses }
    requires within { (1 ≤ out) × (out ≤ given.now.numbers) }
    requires selected { holds set.now.items out ≡ true }
    requires listed { Contains (places_without given.now out) place }
    ensures { MatchOption result
        ((taken : ℕ) → sibling_at given.now out place ≡ Some taken
        → IsRefused given.now known.now (holds set.now.items) (Change.Replace out taken))
        (IsMove given.now known.now (holds set.now.items)) }
{
    match given.sibling_at(out, place) {
        None => None,
        Some(taken) => replacing_by(given, known, set, out, taken),
    }
}

// The same by any sibling of a member.
fn replacing(given: &Given<'_>, known: &Known, set: &Vec<bool>, out: u32) -> Option<Change>
    requires indexed { IsIndexed given.now }
    requires before { AreTrue (holds set.now.items) given.now.clauses }
    requires within { (1 ≤ out) × (out ≤ given.now.numbers) }
    requires selected { holds set.now.items out ≡ true }
    ensures { MatchOption result
        ((taken : ℕ) → AreSiblings given.now out taken
        → IsRefused given.now known.now (holds set.now.items) (Change.Replace out taken))
        (IsMove given.now known.now (holds set.now.items)) }
{
    for place in given.places_without(out) {
        let change = replacing_at(given, known, set, out, *place);
        if change.is_some() {
            return change;
        }
    }
    None
}

// A change of a member that brings nearer and is allowed, if there is one.
fn move_of_member(given: &Given<'_>, known: &Known, set: &Vec<bool>, number: u32) -> Option<Change>
    requires indexed { IsIndexed given.now }
    requires before { AreTrue (holds set.now.items) given.now.clauses }
    requires within { (1 ≤ number) × (number ≤ given.now.numbers) }
    requires selected { holds set.now.items number ≡ true }
    ensures { MatchOption result (IsAtRest given.now known.now (holds set.now.items) number)
        (IsMove given.now known.now (holds set.now.items)) }
{
    match leaving(given, known, set, number) {
        Some(change) => Some(change),
        None => replacing(given, known, set, number),
    }
}

/// A change about the number that brings nearer and is allowed, if there is one. Linear in the literals of the clauses in
/// which the pairs of its name occur.
pub(crate) fn move_of(
    given: &Given<'_>,
    known: &Known,
    set: &Vec<bool>,
    number: u32,
) -> Option<Change>
    requires indexed { IsIndexed given.now }
    requires before { AreTrue (holds set.now.items) given.now.clauses }
    requires within { (1 ≤ number) × (number ≤ given.now.numbers) }
    ensures { MatchOption result (IsAtRest given.now known.now (holds set.now.items) number)
        (IsMove given.now known.now (holds set.now.items)) }
{
    if has(set, number as usize) {
        move_of_member(given, known, set, number)
    } else {
        adding(given, known, set, number)
    }
}
