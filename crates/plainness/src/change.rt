// Whether a change is plain.

ghost use Rattle.std.specs.Prelude.{◌↔◌, IfOk, IsTrue, map};
ghost use Rattle.rules.specs.Sound.{selected};
ghost use Rattle.refutation.specs.Selection.{selects};
ghost use Rattle.plain.specs.Change.{IsPlain};

use crate::left::{are_purges_plain, are_removals_plain};
use crate::members::members_of;
use crate::no_clash::have_no_clash;
use crate::ready::are_ready;
use crate::unpacked::are_unpacks_plain;
use plancheck_state::Records;
use relation::Pkg;
use std::alloc::{AllocError, Global};
use universe::{Universe, lend_packages};

// Whether the change to these members is plain.
fn is_plain_to(
    alloc: Global,
    start: &Records<'_, '_>,
    universe: &Universe<'_, '_>,
    members: &[&Pkg<'_>],
) -> Result<bool, AllocError>
    ensures { IfOk result (λ plain. IsTrue plain
        ↔ IsPlain universe.now start.now (map (λ member. member.now) members.now)) }
{
    if !are_unpacks_plain(start, members) {
        return Ok(false);
    }
    let removals = are_removals_plain(alloc, start, members)?;
    if !removals {
        return Ok(false);
    }
    let purges = are_purges_plain(alloc, start, universe)?;
    if !purges {
        return Ok(false);
    }
    let ready = are_ready(alloc, start, members)?;
    if !ready {
        return Ok(false);
    }
    let no_clash = have_no_clash(alloc, start, members)?;
    Ok(no_clash)
}

/// Whether the change from the start to the pairs of these numbers, counted from 1, is plain. Numbers of no pair are passed
/// over. Memory alone can fail. Linear in the records, the members and the goals, and for each atom of their Conflicts,
/// Breaks and Pre-Depends in the packages that have or provide its name.
pub fn is_plain<'p, 'a>(
    alloc: Global,
    start: &Records<'p, 'a>,
    universe: &Universe<'_, 'a>,
    selection: &[u32],
) -> Result<bool, AllocError>
    ensures { IfOk result (λ plain. IsTrue plain
        ↔ IsPlain universe.now start.now (selected universe.now (selects selection.now))) }
{
    let members = members_of(alloc, universe, selection)?;
    let lent = lend_packages(alloc, members.as_slice())?;
    let plain = is_plain_to(alloc, start, universe, lent.as_slice())?;
    Ok(plain)
}
