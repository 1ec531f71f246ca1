// What stands against a removal: who needs the package (Policy 7.2).

ghost use Rattle.std.specs.Prelude.{◌≡◌, ◌≢◌, ◌++◌, true, IfOk, MatchOption};
ghost use Rattle.std.specs.List.{All, Any};
ghost use Rattle.rules.specs.Legal.{RemoveAsks};
ghost use Rattle.rules.specs.Database.{IsInstalled};
ghost use Rattle.rules.specs.Remove.{IsNotNeeded};
ghost use Rattle.rules.specs.declared.step.Rule.TheVariants as rules;
ghost use Rattle.witness.specs.Needed.{ManagesWithoutAll};
ghost use Rattle.witness.specs.Witness.{HasAt, IsAgainstRemove, ManagesWithout, NeedsAt, clauses_in, remove_has_witness};

use crate::clauses::first_needing;
use crate::witness::{ClauseField, Witness};
use plancheck_state::{Records, StateRecord, is_same};
use rules::{Rule, Text};
use std::alloc::{AllocError, Global};

// The first clause of the record that doesn't manage without the present package of the name.
fn needing_clause(
    db: &Records<'_, '_>,
    name: &[u8],
    other: &StateRecord<'_, '_>,
) -> Option<(ClauseField, usize)>
    ensures { MatchOption result
        (All (ManagesWithout db.now name.now)
        (other.now.relations.pre_depends ++ other.now.relations.depends))
        (λ need. HasAt (λ clause. ¬ ManagesWithout db.now name.now clause)
        (clauses_in need.0 other.now) need.1) }
{
    match first_needing(db, name, other.pre_depends()) {
        Some(place) => Some((ClauseField::PreDepends, place)),
        None => match first_needing(db, name, other.depends()) {
            None => None,
            Some(place) => Some((ClauseField::Depends, place)),
        },
    }
}

// The clause by which the record's package, if it is installed and of another name, needs the name.
#[tactic(auto, unfolding(crate::specs::Witness::NeedsAt, crate::specs::Needed::ManagesWithoutAll))]
fn need_of(
    db: &Records<'_, '_>,
    name: &[u8],
    other: &StateRecord<'_, '_>,
) -> Option<(ClauseField, usize)>
    ensures { MatchOption result (ManagesWithoutAll db.now name.now other.now)
        (λ need. NeedsAt db.now name.now need.0 need.1 other.now) }
{
    if !other.state().is_installed() || is_same(other.name(), name) {
        return None;
    }
    needing_clause(db, name, other)
}

// The first installed package of another name that needs the name, with its clause.
fn first_in_need<'a>(db: &Records<'_, 'a>, name: &[u8]) -> Option<(&'a [u8], ClauseField, usize)>
    ensures { MatchOption result (All (ManagesWithoutAll db.now name.now) db.now)
        (λ need. Any (λ other. (other.name ≡ need.0.now)
        × NeedsAt db.now name.now need.1 need.2 other) db.now) }
{
    for other in db.as_slice() {
        if let Some((field, place)) = need_of(db, name, other) {
            return Some((other.name(), field, place));
        }
    }
    None
}

fn need(alloc: Global, db: &Records<'_, '_>, name: &[u8]) -> Result<Option<Witness>, AllocError>
    ensures { IfOk result (λ witness. MatchOption witness (IsNotNeeded db.now name.now)
        (IsAgainstRemove db.now name.now rules.NeededBy)) }
{
    match first_in_need(db, name) {
        None => Ok(None),
        Some((other, field, place)) => {
            let other = Text::copied_from(alloc, other)?;
            Ok(Some(Witness::Needs(other, field, place)))
        }
    }
}

/// What stands against the removal of the name, by this rule. Linear in the installed packages' clauses, for each that the
/// package matches in the records that have or provide a name of it. Memory alone can fail.
pub(crate) fn against_remove(
    alloc: Global,
    db: &Records<'_, '_>,
    name: &[u8],
    rule: Rule,
) -> Result<Option<Witness>, AllocError>
    ensures { IfOk result
        (λ witness. MatchOption witness
        (remove_has_witness rule ≡ true → RemoveAsks db.now name.now rule)
        (IsAgainstRemove db.now name.now rule)) }
{
    match rule {
        Rule::NeededBy => need(alloc, db, name),
        _ => Ok(None),
    }
}
