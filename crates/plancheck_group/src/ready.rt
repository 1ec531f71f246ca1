// The names of a group that pass alone (Policy 7.2 and 7.3).

ghost use Rattle.std.specs.Prelude.{◌≡◌, ◌↔◌, true, false, IfOk, IsTrue};
ghost use Rattle.std.specs.List.{All, Contains};
ghost use Rattle.plancheck_group.specs.Part.{HasWhatPasses, IsPartWith, IsReady};

use crate::configure::{are_configurable, are_pre_depends_installed, are_unbroken};
use crate::part::NameSet;
use plancheck_state::Records;
use rules::Name;
use std::alloc::{AllocError, Global};
use std::slice::from_ref;

// Whether the name passes the tests that ask nothing of other names.
#[tactic(auto, unfolding(crate::specs::Part::IsReady))]
fn is_ready(db: &Records<'_, '_>, name: &Name) -> bool
    ensures { IsTrue result ↔ IsReady db.now name.now }
{
    let alone = from_ref(name);
    are_configurable(db, alone) && are_pre_depends_installed(db, alone) && are_unbroken(db, alone)
}

/// The names that pass the tests which ask nothing of other names. For each name linear in the records. Memory
/// alone can fail.
pub fn ready_of(
    alloc: Global,
    db: &Records<'_, '_>,
    names: &[Name],
) -> Result<Vec<Name>, AllocError>
    ensures { IfOk result (λ ready. IsPartWith (IsReady db.now) names.now ready.items) }
{
    let mut ready = Vec::new(alloc);
    for name in names {
        if is_ready(db, name) {
            ready.push(name.try_copy(alloc)?)?;
        }
    }
    Ok(ready)
}

// Whether the name is one of the part's and isn't ready.
fn is_unready(db: &Records<'_, '_>, part: &NameSet<'_>, name: &Name) -> bool
    ensures unready { result ≡ true → ¬ IsReady db.now name.now }
    ensures ready { result ≡ false → Contains part.now name.now → IsReady db.now name.now }
{
    if !part.has(name.as_bytes()) {
        return false;
    }
    !is_ready(db, name)
}

// Leaves the name out, if it isn't ready.
fn leave_out_unready(db: &Records<'_, '_>, part: &mut NameSet<'_>, name: &Name)
    ensures has { HasWhatPasses db.now part.old part.new }
    ensures ready { Contains part.new name.now → IsReady db.now name.now }
{
    if !is_unready(db, part, name) {
        return;
    }
    part.leave_out(name.as_bytes());
}

/// Leaves out those of these names that don't pass the tests which ask nothing of other names. For each that is left linear in
/// the records.
pub fn keep_ready(db: &Records<'_, '_>, names: &[Name], part: &mut NameSet<'_>)
    ensures has { HasWhatPasses db.now part.old part.new }
    ensures ready { All (λ name. Contains part.new name → IsReady db.now name) names.now }
{
    for name in names {
        leave_out_unready(db, part, name);
    }
}

/// Those of the names that are left, copied. Memory alone can fail.
pub fn names_left(
    alloc: Global,
    names: &[Name],
    part: &NameSet<'_>,
) -> Result<Vec<Name>, AllocError>
    ensures { IfOk result (λ left. IsPartWith (Contains part.now) names.now left.items) }
{
    let mut left = Vec::new(alloc);
    for name in names {
        if part.has(name.as_bytes()) {
            left.push(name.try_copy(alloc)?)?;
        }
    }
    Ok(left)
}
