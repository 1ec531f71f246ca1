// Why a plan removes a package, in words.

use crate::words::{push, push_clause, push_pkg};
use phrases::push_count;
use plancheck_state::{Records, StateRecord, breaks_other, conflicts_with, is_met, is_same};
use relation::{Clause, Pkg};
use rules::Goal;
use std::alloc::AllocError;
use universe::Universe;
use witness::first_unmet;

// Whether the goal asks for the removal of the name.
fn asks_for(goal: &Goal, name: &[u8]) -> bool {
    match goal {
        Goal::Remove(asked) => is_same(asked.as_bytes(), name),
        Goal::Purge(asked) => is_same(asked.as_bytes(), name),
        _ => false,
    }
}

// What the package has against the one that is there at the end, or the other way.
fn odds_between(pkg: &Pkg<'_>, there: &Pkg<'_>) -> Option<&'static [u8]> {
    if conflicts_with(pkg, there) || conflicts_with(there, pkg) {
        Some(b"conflicts with ")
    } else if breaks_other(there, pkg) {
        Some(b"is broken by ")
    } else if breaks_other(pkg, there) {
        Some(b"breaks ")
    } else {
        None
    }
}

// The same of the package of the record, if it is present and of another name.
fn odds_with(pkg: &Pkg<'_>, other: &StateRecord<'_, '_>) -> Option<&'static [u8]> {
    if is_same(other.name(), pkg.name()) {
        return None;
    }
    odds_between(pkg, other.present_pkg()?)
}

// Writes what is there at the end with which the package doesn't go together, and whether there is something.
fn push_odds(text: &mut Vec<u8>, end: &Records<'_, '_>, pkg: &Pkg<'_>) -> Result<bool, AllocError> {
    for other in end.as_slice() {
        if let (Some(words), Some(there)) = (odds_with(pkg, other), other.present_pkg()) {
            push(text, &[b" (", words])?;
            push_pkg(text, there)?;
            text.push(b')')?;
            return Ok(true);
        }
    }
    Ok(false)
}

// Writes the first clause that isn't met at the end, if there is one, and whether there is.
fn push_lost(
    text: &mut Vec<u8>,
    start: &Records<'_, '_>,
    end: &Records<'_, '_>,
    field: &[u8],
    clauses: &[Clause<'_>],
) -> Result<bool, AllocError> {
    let Some(place) = first_unmet(end, clauses) else {
        return Ok(false);
    };
    let Some(clause) = clauses.get(place) else {
        return Ok(false);
    };
    push(text, &[b" (its ", field, b": "])?;
    push_clause(text, clause.as_slice())?;
    if is_met(start, clause) {
        text.extend_from_slice(b" isn't met any more)")?;
    } else {
        text.extend_from_slice(b" isn't met)")?;
    }
    Ok(true)
}

// Writes which goal asks for the removal, and whether one does.
fn push_asking(
    text: &mut Vec<u8>,
    universe: &Universe<'_, '_>,
    name: &[u8],
) -> Result<bool, AllocError> {
    for (place, goal) in universe.goals().iter().enumerate() {
        if asks_for(goal, name) {
            text.extend_from_slice(b" (asked for by goal ")?;
            push_count(text, place.saturating_add(1))?;
            text.push(b')')?;
            return Ok(true);
        }
    }
    Ok(false)
}

/// Writes why the package, which was there at the start, isn't there at the end: ` (conflicts with a 1)`; nothing where no
/// reason is found. Linear in the goals and in the records of the end, for each in the relations of two packages.
pub(crate) fn push_reason(
    text: &mut Vec<u8>,
    start: &Records<'_, '_>,
    end: &Records<'_, '_>,
    universe: &Universe<'_, '_>,
    pkg: &Pkg<'_>,
) -> Result<(), AllocError> {
    if push_asking(text, universe, pkg.name())? || push_odds(text, end, pkg)? {
        return Ok(());
    }
    if push_lost(text, start, end, b"Pre-Depends", pkg.pre_depends())? {
        return Ok(());
    }
    let _is_lost = push_lost(text, start, end, b"Depends", pkg.depends())?;
    Ok(())
}
