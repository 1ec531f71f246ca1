// Two packages that conflict at the start, in words.

use crate::against::against;
use crate::named::record_of;
use plancheck_state::{Records, StateRecord};
use std::alloc::{AllocError, Global};
use witness::own_conflict;

// Writes that the package of the record conflicts with another, and whether it does.
fn push_conflicting(
    alloc: Global,
    text: &mut Vec<u8>,
    db: &Records<'_, '_>,
    entry: &StateRecord<'_, '_>,
) -> Result<bool, AllocError> {
    let Some(pkg) = entry.present_pkg() else {
        return Ok(false);
    };
    let Some(name) = own_conflict(db, pkg) else {
        return Ok(false);
    };
    let Some(other) = record_of(db, name) else {
        return Ok(false);
    };
    let said = against(alloc, b" conflicts with ", pkg, pkg.conflicts(), other)?;
    text.extend_from_slice(said.as_slice())?;
    Ok(true)
}

/// Writes the first two packages that conflict at the start.
pub(crate) fn push_start(
    alloc: Global,
    text: &mut Vec<u8>,
    db: &Records<'_, '_>,
) -> Result<(), AllocError> {
    text.extend_from_slice(b"Two packages conflict at the start (F0 StartConflict): ")?;
    for entry in db.as_slice() {
        if push_conflicting(alloc, text, db, entry)? {
            return text.extend_from_slice(b".\n");
        }
    }
    text.extend_from_slice(b".\n")
}
