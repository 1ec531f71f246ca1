// Rules that have no witness, in words: what is so of what the step is about.

use crate::named::{push_named, record_of};
use crate::words::push;
use plancheck_state::{Records, StateRecord};
use rules::{Name, Rule, Step, VersionText};
use std::alloc::AllocError;
use universe::Universe;

// Whether the record may be configured.
fn is_configurable(entry: &StateRecord<'_, '_>) -> bool {
    entry.state().is_unconfigured() && entry.flag().is_sound()
}

// The first of the names that has no record which may be configured, or the first.
fn unconfigurable_in<'n>(db: &Records<'_, '_>, names: &'n [Name]) -> &'n [u8] {
    let mut first: &'n [u8] = &[];
    for name in names {
        match record_of(db, name.as_bytes()) {
            Some(entry) if is_configurable(entry) => {
                if first.is_empty() {
                    first = name.as_bytes();
                }
            }
            _ => return name.as_bytes(),
        }
    }
    first
}

/// The name that the step is about: of a group, one that may not be configured, if there is one.
fn subject_of<'n>(db: &Records<'_, '_>, step: &'n Step) -> &'n [u8] {
    match step {
        Step::Unpack(name, _) => name.as_bytes(),
        Step::Deconfigure(name) => name.as_bytes(),
        Step::Configure(names) => unconfigurable_in(db, names.as_slice()),
        Step::Remove(name) => name.as_bytes(),
        Step::Purge(name) => name.as_bytes(),
    }
}

// The state from which the action starts.
fn start_of(step: &Step) -> &'static [u8] {
    match step {
        Step::Unpack(_, _) => b", in this very version already",
        Step::Deconfigure(_) => b", and what is deconfigured has to be installed",
        Step::Configure(_) => {
            b", and what is configured has to be unpacked or half-configured or has triggers left, and hasn't to be installed again"
        }
        Step::Remove(_) => b", and what is removed has to be there and sound",
        Step::Purge(_) => {
            b", and what is purged has to be removed, with its configuration files left"
        }
    }
}

// Writes the versions of the name that are admitted and in an index.
fn push_listed(
    text: &mut Vec<u8>,
    universe: &Universe<'_, '_>,
    name: &[u8],
) -> Result<(), AllocError> {
    let mut before: &[u8] = b"its versions that can be unpacked are ";
    let mut is_none = true;
    for pair in universe.pairs() {
        if pair.name() == name && pair.index_entry().is_some() {
            push(text, &[before, pair.version().text()])?;
            before = b", ";
            is_none = false;
        }
    }
    if is_none {
        text.extend_from_slice(b"none of its versions can be unpacked")?;
    }
    Ok(())
}

// Whether the start holds the name.
fn is_held(universe: &Universe<'_, '_>, name: &[u8]) -> bool {
    match universe.start(name) {
        None => false,
        Some(start) => start.is_held(),
    }
}

fn push_not_admitted(
    text: &mut Vec<u8>,
    universe: &Universe<'_, '_>,
    name: &Name,
    version: &VersionText,
) -> Result<(), AllocError> {
    let name = name.as_bytes();
    push(
        text,
        &[
            name,
            b" ",
            version.as_bytes(),
            b" isn't admitted, or no index has it; ",
        ],
    )?;
    if is_held(universe, name) {
        text.extend_from_slice(name)?;
        return text.extend_from_slice(b" is held, and what is held isn't changed");
    }
    push_listed(text, universe, name)
}

/// Writes why the step isn't allowed by a rule that has no witness.
pub(crate) fn push_bare(
    text: &mut Vec<u8>,
    db: &Records<'_, '_>,
    universe: &Universe<'_, '_>,
    step: &Step,
    rule: Rule,
) -> Result<(), AllocError> {
    let name = subject_of(db, step);
    match (rule, step) {
        (Rule::NotAdmitted, Step::Unpack(name, version)) => {
            push_not_admitted(text, universe, name, version)
        }
        (Rule::WrongState, _) => {
            push_named(text, db, name)?;
            text.extend_from_slice(start_of(step))
        }
        (Rule::Held, _) => push(text, &[name, b" is held, and what is held isn't changed"]),
        (Rule::Essential, _) => {
            push(
                text,
                &[name, b" is essential, and what is essential isn't removed"],
            )
        }
        (Rule::Group, _) => {
            text.extend_from_slice(b"some of these can be configured without the others")
        }
        _ => Ok(()),
    }
}
