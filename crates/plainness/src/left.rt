// What is removed, what is purged, and what is left as it was.

ghost use Rattle.std.specs.Prelude.{◌↔◌, IfOk, IsTrue, map};
ghost use Rattle.std.specs.List.{All};
ghost use Rattle.plainness.specs.Parts.{LeftAreSound, MayBeLeft, MayLeave, PurgedAreUnheld, RemovedAreSound, RemovedAreUnheld};

use crate::names::Names;
use plancheck::is_not_held;
use plancheck_state::{Records, StateRecord};
use relation::Pkg;
use std::alloc::{AllocError, Global};
use universe::Universe;

// Whether the record, if it is present and of none of the names, isn't held and has flag ok.
#[tactic(auto, unfolding(crate::specs::Parts::MayLeave))]
fn may_leave(start: &Records<'_, '_>, names: &Names<'_>, entry: &StateRecord<'_, '_>) -> bool
    ensures { IsTrue result ↔ MayLeave start.now names.now entry.now }
{
    !entry.state().is_present()
        || names.has(entry.name())
        || (is_not_held(start, entry.name()) && entry.flag().is_sound())
}

fn all_may_leave(start: &Records<'_, '_>, names: &Names<'_>) -> bool
    ensures { IsTrue result ↔ All (MayLeave start.now names.now) start.now }
{
    start
        .as_slice()
        .iter()
        .all(|entry| may_leave(start, names, entry))
}

/// Whether no name that is to be removed is held, and each has flag ok. Memory alone can fail. Linear in the records and the
/// members; for each record in those that have or provide its name.
pub(crate) fn are_removals_plain(
    alloc: Global,
    start: &Records<'_, '_>,
    members: &[&Pkg<'_>],
) -> Result<bool, AllocError>
    ensures { IfOk result (λ plain. IsTrue plain
        ↔ (RemovedAreUnheld start.now (map (λ member. member.now) members.now)
        × RemovedAreSound start.now (map (λ member. member.now) members.now))) }
{
    let names = Names::of_members(alloc, members)?;
    let plain = all_may_leave(start, &names);
    Ok(plain)
}

// Whether the record, if it is removed already, isn't held where it is of one of the names, and else has flag ok.
#[tactic(auto, unfolding(crate::specs::Parts::MayBeLeft))]
fn may_be_left(start: &Records<'_, '_>, names: &Names<'_>, entry: &StateRecord<'_, '_>) -> bool
    ensures { IsTrue result ↔ MayBeLeft start.now names.now entry.now }
{
    if !entry.state().is_removed() {
        true
    } else if names.has(entry.name()) {
        is_not_held(start, entry.name())
    } else {
        entry.flag().is_sound()
    }
}

fn all_may_be_left(start: &Records<'_, '_>, names: &Names<'_>) -> bool
    ensures { IsTrue result ↔ All (MayBeLeft start.now names.now) start.now }
{
    start
        .as_slice()
        .iter()
        .all(|entry| may_be_left(start, names, entry))
}

/// Whether no name that is to be purged is held, and what else is removed already has flag ok. Memory alone can fail. Linear
/// in the records and the goals; for each record in those that have or provide its name.
pub(crate) fn are_purges_plain(
    alloc: Global,
    start: &Records<'_, '_>,
    universe: &Universe<'_, '_>,
) -> Result<bool, AllocError>
    ensures { IfOk result (λ plain. IsTrue plain
        ↔ (PurgedAreUnheld universe.now start.now × LeftAreSound universe.now start.now)) }
{
    let names = Names::of_purges(alloc, universe.goals())?;
    let plain = all_may_be_left(start, &names);
    Ok(plain)
}
