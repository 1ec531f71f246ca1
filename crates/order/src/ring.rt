// Waiting names that need each other: of each waiting name those that it needs in turn, and the fewest of these. They are a
// first guess at a group that can be configured together; whether it is one, the judge says.

use crate::clear::present;
use crate::components::lowest;
use forward_steps::{MemberTable, is_waiting};
use indexmap::IndexSet;
use plancheck_state::{Records, is_met, matches_some};
use relation::{Clause, Pkg};
use rules::{Name, is_name};
use std::alloc::{AllocError, Global};

// A name that isn't configured and matches the clause.
fn unconfigured_match<'a>(db: &Records<'_, 'a>, clause: &Clause<'_>) -> Option<&'a [u8]> {
    for atom in clause.as_slice() {
        for entry in db.holders(atom.name()) {
            if entry.state().is_unconfigured() {
                if let Some(pkg) = entry.present_pkg() {
                    if atom.matched_by(pkg) {
                        return Some(entry.name());
                    }
                }
            }
        }
    }
    None
}

// What the package needs of what isn't configured.
fn needs_of_package<'a>(
    alloc: Global,
    db: &Records<'_, 'a>,
    pkg: &Pkg<'_>,
) -> Result<Vec<&'a [u8]>, AllocError> {
    let mut names = Vec::new(alloc);
    for clause in pkg.depends() {
        if !matches_some(pkg, clause.as_slice()) && !is_met(db, clause) {
            if let Some(name) = unconfigured_match(db, clause) {
                names.push(name)?;
            }
        }
    }
    Ok(names)
}

/// What the present package of the name needs of what isn't configured. For each of its Depends atoms linear in the records
/// that have or provide its name. Memory alone can fail.
pub(crate) fn needs_of<'a>(
    alloc: Global,
    db: &Records<'_, 'a>,
    name: &[u8],
) -> Result<Vec<&'a [u8]>, AllocError> {
    match present(db, name) {
        Some(pkg) => needs_of_package(alloc, db, pkg),
        None => Ok(Vec::new(alloc)),
    }
}

// Puts in what the name needs.
fn insert_needs<'a>(
    alloc: Global,
    db: &Records<'_, 'a>,
    name: &[u8],
    names: &mut IndexSet<&'a [u8]>,
) -> Result<(), AllocError> {
    let needs = needs_of(alloc, db, name)?;
    for need in needs.as_slice() {
        names.insert(*need)?;
    }
    Ok(())
}

// The name, and what it needs in turn of what isn't configured, if that is less than so many names.
fn needed_with<'a>(
    alloc: Global,
    db: &Records<'_, 'a>,
    name: &'a [u8],
    fewest: usize,
) -> Result<Option<IndexSet<&'a [u8]>>, AllocError> {
    let mut names = IndexSet::new(alloc);
    names.insert(name)?;
    for place in 0..fewest {
        let Some(next) = names.get_index(place).copied() else {
            return Ok(Some(names));
        };
        insert_needs(alloc, db, next, &mut names)?;
    }
    Ok(None)
}

// Copies of those that are names.
fn copies(alloc: Global, names: &[&[u8]]) -> Result<Vec<Name>, AllocError> {
    let mut copies = Vec::new(alloc);
    for name in names {
        if is_name(name) {
            copies.push(Name::copied_from(alloc, name)?)?;
        }
    }
    Ok(copies)
}

// The names that wait, in the order of the records.
fn waiting_in<'a>(
    alloc: Global,
    db: &Records<'_, 'a>,
    members: &MemberTable<'_>,
) -> Result<IndexSet<&'a [u8]>, AllocError> {
    let mut names = IndexSet::new(alloc);
    for entry in db.as_slice() {
        if is_waiting(members, entry) {
            names.insert(entry.name())?;
        }
    }
    Ok(names)
}

/// The fewest names that one of the waiting ones needs in turn, itself among them. Only those are looked at that need no waiting
/// name which doesn't need them, and of names that need each other one. Linear in the records and in the clauses of what isn't
/// configured, where each need waits too. Memory alone can fail.
pub(crate) fn fewest_in_need(
    alloc: Global,
    db: &Records<'_, '_>,
    members: &MemberTable<'_>,
) -> Result<Vec<Name>, AllocError> {
    let waiting = waiting_in(alloc, db, members)?;
    let lowest = lowest(alloc, db, &waiting)?;
    let mut names = Vec::new(alloc);
    let mut fewest = usize::MAX;
    for place in lowest.as_slice() {
        if let Some(name) = waiting.get_index(*place) {
            if let Some(needed) = needed_with(alloc, db, name, fewest)? {
                fewest = needed.len();
                names = copies(alloc, needed.as_slice())?;
            }
        }
    }
    Ok(names)
}
