// A group of waiting names that can be configured together, and no part of which can (Policy 7.2 and 7.3).

ghost use Rattle.std.specs.Prelude.{◌≡◌, ℕ, ◌<◌, IfOk, MatchOption, length};
ghost use Rattle.std.specs.List.{All, Contains};
ghost use Rattle.rules.specs.Configure.{GroupPasses};
ghost use Rattle.forward_steps.specs.PartialPlan.{NoPartPasses};
ghost use Rattle.forward_steps.specs.Group.{AreOthersOf, IsGroupOf, IsNarrowed, IsNarrowedBy};

use crate::name_order::in_order;
use plancheck_group::greatest_part;
use plancheck_state::{Records, is_same};
use rules::{Name, Names};
use std::alloc::{AllocError, Global};

// The names but for this one.
fn others_of(alloc: Global, names: &[Name], name: &Name) -> Result<Vec<Name>, AllocError>
    ensures { IfOk result (λ others. AreOthersOf names.now name.now others.items) }
{
    let mut others = Vec::new(alloc);
    for other in names {
        if !is_same(other.as_bytes(), name.as_bytes()) {
            others.push(other.try_copy(alloc)?)?;
        }
    }
    Ok(others)
}

// The greatest part that passes without this name, if it has any; else the group.
fn part_without(
    alloc: Global,
    db: &Records<'_, '_>,
    group: Vec<Name>,
    name: &Name,
) -> Result<Vec<Name>, AllocError>
    requires some { 0 < length group.items }
    requires passes { GroupPasses db.now group.items }
    ensures { IfOk result (λ part. IsNarrowed db.now name.now group.items part.items) }
{
    let others = others_of(alloc, group.as_slice(), name)?;
    let part = greatest_part(alloc, db, others.as_slice())?;
    if part.is_empty() { Ok(group) } else { Ok(part) }
}

// The group narrowed by each of these names in turn.
fn narrowed_by(
    alloc: Global,
    db: &Records<'_, '_>,
    names: &[Name],
    group: Vec<Name>,
) -> Result<Vec<Name>, AllocError>
    requires within { All (Contains names.now) group.items }
    requires some { 0 < length group.items }
    requires passes { GroupPasses db.now group.items }
    ensures { IfOk result (λ narrow. IsNarrowedBy db.now names.now names.now narrow.items) }
{
    let mut narrow = group;
    for name in names {
        narrow = part_without(alloc, db, narrow, name)?;
    }
    Ok(narrow)
}

/// A group of the names that can be configured together, and no part of which can, if any of them can be: one that is left
/// when each name without which a part passes is left out. For each name it costs what `plancheck_group::greatest_part` does
/// of those that are left. Memory alone can fail.
pub fn group_of(
    alloc: Global,
    db: &Records<'_, '_>,
    names: &[Name],
) -> Result<Option<Names>, AllocError>
    ensures { IfOk result
        (λ group. MatchOption group (NoPartPasses db.now names.now)
        (λ members. IsGroupOf db.now names.now members)) }
{
    let part = greatest_part(alloc, db, names)?;
    if part.is_empty() {
        return Ok(None);
    }
    let narrow = narrowed_by(alloc, db, names, part)?;
    let group = in_order(alloc, narrow.as_slice())?;
    Ok(Some(group))
}
