// Goals that an end doesn't fulfil, in words.

use crate::named::{push_named, record_of};
use crate::words::push;
use debversion::Version;
use phrases::{push_count, push_restriction};
use plancheck_state::Records;
use rules::Goal;
use std::alloc::AllocError;
use universe::{Start, Universe};

/// Writes the goal as a line of a request: `install foo (>= 2)`.
pub(crate) fn push_goal(text: &mut Vec<u8>, goal: &Goal) -> Result<(), AllocError> {
    match goal {
        Goal::Install(name, restriction) => {
            push(text, &[b"install ", name.as_bytes()])?;
            match restriction {
                None => Ok(()),
                Some(restriction) => {
                    push_restriction(text, restriction.op, restriction.version.as_bytes())
                }
            }
        }
        Goal::Remove(name) => push(text, &[b"remove ", name.as_bytes()]),
        Goal::Purge(name) => push(text, &[b"purge ", name.as_bytes()]),
        Goal::Upgrade(name) => push(text, &[b"upgrade ", name.as_bytes()]),
        Goal::UpgradeAll => text.extend_from_slice(b"upgrade-all"),
        Goal::NoRemove => text.extend_from_slice(b"no-remove"),
    }
}

// Writes in which state the name is, and its candidate.
fn push_behind(
    text: &mut Vec<u8>,
    db: &Records<'_, '_>,
    universe: &Universe<'_, '_>,
    name: &[u8],
) -> Result<(), AllocError> {
    push_named(text, db, name)?;
    match universe.candidate(name) {
        None => text.extend_from_slice(b", and it has no candidate"),
        Some(candidate) => push(text, &[b", and its candidate is ", candidate.text()]),
    }
}

// Whether the name is installed in this version, or in any where none is given.
fn is_installed(db: &Records<'_, '_>, name: &[u8], version: Option<&[u8]>) -> bool {
    let Some(entry) = record_of(db, name) else {
        return false;
    };
    match (entry.present_pkg(), version) {
        (None, _) => false,
        (Some(_), None) => entry.state().is_installed(),
        (Some(there), Some(version)) => {
            entry.state().is_installed() && there.version().text() == version
        }
    }
}

// Whether the candidate is above the version that stood, isn't kept back by a hold, and isn't installed.
fn is_behind(
    db: &Records<'_, '_>,
    start: &Start<'_>,
    standing: &Version<'_>,
    candidate: &Version<'_>,
) -> bool {
    if start.is_held() || !standing.cmp(candidate).is_lt() {
        return false;
    }
    !is_installed(db, start.name(), Some(candidate.text()))
}

// Whether the name stood at the start below its candidate, isn't held, and hasn't the candidate now.
fn is_left_behind(db: &Records<'_, '_>, universe: &Universe<'_, '_>, start: &Start<'_>) -> bool {
    match (start.standing(), universe.candidate(start.name())) {
        (Some(standing), Some(candidate)) => is_behind(db, start, standing, candidate),
        _ => false,
    }
}

// Writes which name that stood at the start isn't upgraded.
fn push_left_behind(
    text: &mut Vec<u8>,
    db: &Records<'_, '_>,
    universe: &Universe<'_, '_>,
) -> Result<(), AllocError> {
    for start in universe.starts() {
        if is_left_behind(db, universe, start) {
            return push_behind(text, db, universe, start.name());
        }
    }
    Ok(())
}

// Writes which name that stood at the start isn't installed.
fn push_gone(
    text: &mut Vec<u8>,
    db: &Records<'_, '_>,
    universe: &Universe<'_, '_>,
) -> Result<(), AllocError> {
    for start in universe.starts() {
        if start.standing().is_some() && !is_installed(db, start.name(), None) {
            return push_named(text, db, start.name());
        }
    }
    Ok(())
}

// Writes what is so of what the goal asks for.
fn push_outcome(
    text: &mut Vec<u8>,
    db: &Records<'_, '_>,
    universe: &Universe<'_, '_>,
    goal: &Goal,
) -> Result<(), AllocError> {
    match goal {
        Goal::Install(name, _) => push_named(text, db, name.as_bytes()),
        Goal::Remove(name) => push_named(text, db, name.as_bytes()),
        Goal::Purge(name) => push_named(text, db, name.as_bytes()),
        Goal::Upgrade(name) => push_behind(text, db, universe, name.as_bytes()),
        Goal::UpgradeAll => push_left_behind(text, db, universe),
        Goal::NoRemove => push_gone(text, db, universe),
    }
}

/// Writes the goal of this number, counted from 1, and what is so at the end of what it asks for.
pub(crate) fn push_unfulfilled(
    text: &mut Vec<u8>,
    db: &Records<'_, '_>,
    universe: &Universe<'_, '_>,
    number: usize,
) -> Result<(), AllocError> {
    let Some(goal) = universe.goals().get(number.saturating_sub(1)) else {
        return Ok(());
    };
    text.extend_from_slice(b"goal ")?;
    push_count(text, number)?;
    text.extend_from_slice(b" is '")?;
    push_goal(text, goal)?;
    text.extend_from_slice(b"', and ")?;
    push_outcome(text, db, universe, goal)
}
