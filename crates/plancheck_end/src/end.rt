// The first reason against the end of a plan: by kind, of names the least by bytes, of goals the first.

ghost use Rattle.std.specs.Prelude.{IfOk, MatchOption};
ghost use Rattle.rules.specs.Run.{HasNothingAgainst, IsFirstAgainst};

use crate::goal::first_unfulfilled;
use crate::least::{least_discontent, least_lost, least_unfinished};
use plancheck_state::Records;
use rules::{Reason, Text};
use std::alloc::{AllocError, Global};
use universe::Universe;

/// The first reason against the end, or none where the end is good. Linear in the records; for each atom of an
/// installed package in those that have or provide its name, and for each goal as `is_fulfilled` says. Memory is
/// taken for the name in the reason alone, and it alone can fail.
pub fn first_against(
    alloc: Global,
    universe: &Universe<'_, '_>,
    db: &Records<'_, '_>,
) -> Result<Option<Reason>, AllocError>
    ensures { IfOk result (λ reason. MatchOption reason (HasNothingAgainst universe.now db.now)
        (λ first. IsFirstAgainst universe.now db.now first)) }
{
    if let Some(name) = least_unfinished(db) {
        return Ok(Some(Reason::Unfinished(Text::copied_from(alloc, name)?)));
    }
    if let Some(name) = least_discontent(db) {
        return Ok(Some(Reason::Relation(Text::copied_from(alloc, name)?)));
    }
    if let Some(name) = least_lost(db, universe.starts()) {
        return Ok(Some(Reason::Essential(Text::copied_from(alloc, name)?)));
    }
    match first_unfulfilled(universe, db) {
        None => Ok(None),
        Some(number) => Ok(Some(Reason::Goal(number))),
    }
}
