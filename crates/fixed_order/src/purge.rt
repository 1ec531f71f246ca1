// The last phase: each name of a purge goal of which configuration files alone are left is purged, in the order of the names.

ghost use Rattle.std.specs.Prelude.{◌≡◌, ℕ, IfOk, List, MatchOption, map};
ghost use Rattle.rules.specs.declared.step.Step.TheVariants.{Purge};
ghost use Rattle.plain.specs.Order.{ArePurges};
ghost use Rattle.fixed_order.specs.Purge.{ArePurgesIn, IsToPurgeBy};

use crate::key::{Key, in_order};
use crate::state::is_removed;
use plancheck_state::Records;
use rules::{Goal, Step};
use std::alloc::{AllocError, Global};
use universe::Universe;

// The name that the goal asks to purge and of which configuration files alone are left, if there is one.
fn purge_by<'u>(db: &Records<'_, '_>, asked: &'u Goal) -> Option<Key<'u>>
    ensures { MatchOption result ((name : List ℕ) → ¬ IsToPurgeBy db.now asked.now name)
        (IsToPurgeBy db.now asked.now) }
{
    match asked {
        Goal::Purge(name) if is_removed(db, name.as_bytes()) => Some(Key::new(name.as_bytes())),
        _ => None,
    }
}

// The names that the goals ask to purge and of which configuration files alone are left.
fn purges_by<'u>(
    alloc: Global,
    db: &Records<'_, '_>,
    goals: &'u [Goal],
) -> Result<Vec<Key<'u>>, AllocError>
    ensures { IfOk result (λ keys. ArePurgesIn db.now goals.now keys.items) }
{
    let mut keys = Vec::new(alloc);
    for asked in goals {
        match purge_by(db, asked) {
            Some(key) => keys.push(key)?,
            None => {}
        }
    }
    Ok(keys)
}

// The steps that purge the names.
fn steps_of(alloc: Global, keys: &[Key<'_>]) -> Result<Vec<Step>, AllocError>
    ensures { IfOk result (λ steps. steps.items ≡ map Purge keys.now) }
{
    let mut steps = Vec::new(alloc);
    for key in keys {
        steps.push(Step::Purge(key.try_name(alloc)?))?;
    }
    Ok(steps)
}

/// The purges. Memory alone can fail. Linear in the goals, with a look-up for each, and n log n comparisons of n names.
pub(crate) fn purges(
    alloc: Global,
    db: &Records<'_, '_>,
    universe: &Universe<'_, '_>,
) -> Result<Vec<Step>, AllocError>
    ensures { IfOk result
        (λ steps. (names : List (List ℕ)) × ArePurges universe.now db.now names
        × (steps.items ≡ map Purge names)) }
{
    let asked = purges_by(alloc, db, universe.goals())?;
    let keys = in_order(asked)?;
    let steps = steps_of(alloc, keys.as_slice())?;
    Ok(steps)
}
