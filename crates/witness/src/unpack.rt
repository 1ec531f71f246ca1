// What stands against an unpacking (Policy 7.2 to 7.4).

ghost use Rattle.std.specs.Prelude.{◌≡◌, ◌≢◌, ◌↔◌, ℕ, List, true, IfOk, IsTrue, MatchOption, Some};
ghost use Rattle.std.specs.List.{All};
ghost use Rattle.std.specs.Option.{option_copied};
ghost use Rattle.rules.specs.Database.{HasRecord, IsInstalled, IsPresent, pkg_of};
ghost use Rattle.rules.specs.Legal.{UnpackAsks};
ghost use Rattle.rules.specs.Package.{ConflictsWith};
ghost use Rattle.rules.specs.Unpack.{BreaksNone, HasNoConflict, HasPreDepends};
ghost use Rattle.rules.specs.declared.step.Rule.TheVariants as rules;
ghost use Rattle.witness.specs.Witness.{IsAgainstUnpack, IsBroken, IsConflicting, unpack_has_witness};
ghost use Rattle.witness.specs.declared.witness.Direction.TheVariants as directions;

use crate::clauses::first_unsatisfied;
use crate::witness::{Direction, Witness};
use index::IndexPackage;
use plancheck_state::{Records, StateRecord, breaks_other, conflicts_with, is_same};
use relation::Pkg;
use rules::{Rule, Text};
use std::alloc::{AllocError, Global};

// What of the package's Pre-Depends isn't satisfied.
fn unsatisfied_clause(db: &Records<'_, '_>, pkg: &Pkg<'_>) -> Option<Witness>
    ensures { MatchOption result (HasPreDepends db.now pkg.now)
        (IsAgainstUnpack db.now pkg.now rules.PreDepends) }
{
    match first_unsatisfied(db, pkg) {
        None => None,
        Some(place) => Some(Witness::Unsatisfied(place)),
    }
}

// Whether the record is of a present package of another name with which the package conflicts.
#[tactic(auto, unfolding(crate::specs::Witness::IsConflicting))]
fn is_own_conflict(pkg: &Pkg<'_>, other: &StateRecord<'_, '_>) -> bool
    ensures { IsTrue result ↔ IsConflicting directions.Own pkg.now other.now }
{
    match other.present_pkg() {
        None => false,
        Some(there) => !is_same(other.name(), pkg.name()) && conflicts_with(pkg, there),
    }
}

// Whether the record is of a present package of another name that conflicts with the package.
#[tactic(auto, unfolding(crate::specs::Witness::IsConflicting))]
fn is_other_conflict(pkg: &Pkg<'_>, other: &StateRecord<'_, '_>) -> bool
    ensures { IsTrue result ↔ IsConflicting directions.Other pkg.now other.now }
{
    match other.present_pkg() {
        None => false,
        Some(there) => !is_same(other.name(), pkg.name()) && conflicts_with(there, pkg),
    }
}

/// The first present package of another name with which the package conflicts, if there is one.
pub fn own_conflict<'v, 'a>(db: &'v Records<'_, 'a>, pkg: &Pkg<'_>) -> Option<&'a [u8]>
    ensures { MatchOption result
        (All (λ other. ¬ IsConflicting directions.Own pkg.now other) db.now)
        (λ name. HasRecord (IsConflicting directions.Own pkg.now) name.now db.now) }
{
    match db
        .as_slice()
        .iter()
        .find(|other| is_own_conflict(pkg, other))
    {
        None => None,
        Some(entry) => Some(entry.name()),
    }
}

// The first present package of another name that conflicts with the package.
fn other_conflict<'v, 'a>(db: &'v Records<'_, 'a>, pkg: &Pkg<'_>) -> Option<&'a [u8]>
    ensures { MatchOption result
        (All (λ other. ¬ IsConflicting directions.Other pkg.now other) db.now)
        (λ name. HasRecord (IsConflicting directions.Other pkg.now) name.now db.now) }
{
    match db
        .as_slice()
        .iter()
        .find(|other| is_other_conflict(pkg, other))
    {
        None => None,
        Some(entry) => Some(entry.name()),
    }
}

// The present package that conflicts, with which the package conflicts sooner than the other way.
fn conflict<'a>(db: &Records<'_, 'a>, pkg: &Pkg<'_>) -> Option<(Direction, &'a [u8])>
    ensures { MatchOption result (HasNoConflict db.now pkg.now)
        (λ other. HasRecord (IsConflicting other.0 pkg.now) other.1.now db.now) }
{
    match own_conflict(db, pkg) {
        Some(name) => Some((Direction::Own, name)),
        None => match other_conflict(db, pkg) {
            None => None,
            Some(name) => Some((Direction::Other, name)),
        },
    }
}

fn conflicting_package(
    alloc: Global,
    db: &Records<'_, '_>,
    pkg: &Pkg<'_>,
) -> Result<Option<Witness>, AllocError>
    ensures { IfOk result
        (λ witness. MatchOption witness (HasNoConflict db.now pkg.now)
        (IsAgainstUnpack db.now pkg.now rules.Conflict)) }
{
    match conflict(db, pkg) {
        None => Ok(None),
        Some((direction, name)) => {
            let name = Text::copied_from(alloc, name)?;
            Ok(Some(Witness::Conflicting(direction, name)))
        }
    }
}

// Whether the record is of an installed package of another name that the package breaks.
#[tactic(auto, unfolding(crate::specs::Witness::IsBroken))]
fn is_broken(pkg: &Pkg<'_>, other: &StateRecord<'_, '_>) -> bool
    ensures { IsTrue result ↔ IsBroken pkg.now other.now }
{
    match other.present_pkg() {
        Some(there) if other.state().is_installed() => {
            !is_same(other.name(), pkg.name()) && breaks_other(pkg, there)
        }
        _ => false,
    }
}

/// The first installed package of another name that the package breaks, if there is one.
pub fn first_broken<'a>(db: &Records<'_, 'a>, pkg: &Pkg<'_>) -> Option<&'a [u8]>
    ensures { MatchOption result (All (λ other. ¬ IsBroken pkg.now other) db.now)
        (λ name. HasRecord (IsBroken pkg.now) name.now db.now) }
{
    match db.as_slice().iter().find(|other| is_broken(pkg, other)) {
        None => None,
        Some(entry) => Some(entry.name()),
    }
}

fn broken_package(
    alloc: Global,
    db: &Records<'_, '_>,
    pkg: &Pkg<'_>,
) -> Result<Option<Witness>, AllocError>
    ensures { IfOk result
        (λ witness. MatchOption witness (BreaksNone db.now pkg.now)
        (IsAgainstUnpack db.now pkg.now rules.Breaks)) }
{
    match first_broken(db, pkg) {
        None => Ok(None),
        Some(name) => Ok(Some(Witness::Broken(Text::copied_from(alloc, name)?))),
    }
}

/// What stands against the unpacking of the package, by this rule. For F1 it costs what `plancheck::is_satisfied` does for each
/// clause; for F2 and F3 it is linear in the records, for each in the relations of two packages. Memory alone can fail.
pub(crate) fn against_unpack(
    alloc: Global,
    db: &Records<'_, '_>,
    listed: Option<&IndexPackage<'_>>,
    rule: Rule,
) -> Result<Option<Witness>, AllocError>
    ensures { IfOk result (λ maybe_witness. MatchOption maybe_witness
        ((name version : List ℕ) → unpack_has_witness rule ≡ true
        → UnpackAsks (option_copied listed.entry) db.now name version rule)
        (λ witness. MatchOption (option_copied listed.entry) ⊥
        (λ it. IsAgainstUnpack db.now it.pkg rule witness))) }
{
    match (rule, listed) {
        (Rule::PreDepends, Some(listed)) => Ok(unsatisfied_clause(db, listed.pkg())),
        (Rule::Conflict, Some(listed)) => conflicting_package(alloc, db, listed.pkg()),
        (Rule::Breaks, Some(listed)) => broken_package(alloc, db, listed.pkg()),
        _ => Ok(None),
    }
}
