// What stands against a configuring (Policy 7.2 and 7.3).

ghost use Rattle.std.specs.Prelude.{◌≡◌, ◌≢◌, ◌↔◌, true, IfOk, IsTrue, MatchOption};
ghost use Rattle.std.specs.List.{All, Any};
ghost use Rattle.rules.specs.Configure.{AreUnbroken};
ghost use Rattle.rules.specs.Database.{HasRecord, pkg_of};
ghost use Rattle.rules.specs.Package.{MeetsClause};
ghost use Rattle.rules.specs.Legal.{ConfigureAsks};
ghost use Rattle.rules.specs.Sound.{MeetsClauses};
ghost use Rattle.rules.specs.declared.step.Rule.TheVariants as rules;
ghost use Rattle.witness.specs.Needed.{AreMet, IsMemberWhole, IsSupplied};
ghost use Rattle.witness.specs.Witness.{BreaksMember, HasAt, IsAgainstConfigure, IsMemberBroken, LacksAt, clauses_in, configure_has_witness, counted_for, rule_for};

use crate::clauses::{first_unmet, first_unmet_with, is_member};
use crate::witness::{ClauseField, Witness};
use plancheck_state::{Records, StateRecord, breaks_other, is_same};
use relation::Pkg;
use rules::{Name, Rule, Text};
use std::alloc::{AllocError, Global};

// The place of the first clause of the field of the record that isn't met.
fn first_lacking(
    db: &Records<'_, '_>,
    names: &[Name],
    field: ClauseField,
    member: &StateRecord<'_, '_>,
) -> Option<usize>
    ensures { MatchOption result
        (MeetsClauses (counted_for field db.now names.now) (clauses_in field member.now))
        (HasAt (λ clause. ¬ MeetsClause (counted_for field db.now names.now) clause)
        (clauses_in field member.now)) }
{
    match field {
        ClauseField::PreDepends => first_unmet(db, member.pre_depends()),
        ClauseField::Depends => first_unmet_with(db, names, member.depends()),
    }
}

// The same of a member; none of another record.
#[tactic(auto, unfolding(crate::specs::Witness::LacksAt, crate::specs::Needed::IsSupplied))]
fn lacking_of(
    db: &Records<'_, '_>,
    names: &[Name],
    field: ClauseField,
    member: &StateRecord<'_, '_>,
) -> Option<usize>
    ensures { MatchOption result (IsSupplied db.now names.now field member.now)
        (λ place. LacksAt db.now names.now field place member.now) }
{
    if !is_member(names, member) {
        return None;
    }
    let place = first_lacking(db, names, field, member)?;
    Some(place)
}

// The first member that lacks something of the field, with the place of its clause.
fn first_unsupplied<'a>(
    db: &Records<'_, 'a>,
    names: &[Name],
    field: ClauseField,
) -> Option<(&'a [u8], usize)>
    ensures { MatchOption result (All (IsSupplied db.now names.now field) db.now)
        (λ lack. Any (λ member. (member.name ≡ lack.0.now)
        × LacksAt db.now names.now field lack.1 member) db.now) }
{
    for member in db.as_slice() {
        if let Some(place) = lacking_of(db, names, field, member) {
            return Some((member.name(), place));
        }
    }
    None
}

fn unmet_clause(
    alloc: Global,
    db: &Records<'_, '_>,
    names: &[Name],
    field: ClauseField,
) -> Result<Option<Witness>, AllocError>
    ensures { IfOk result (λ witness. MatchOption witness (AreMet field db.now names.now)
        (IsAgainstConfigure db.now names.now (rule_for field))) }
{
    match first_unsupplied(db, names, field) {
        None => Ok(None),
        Some((name, place)) => {
            let name = Text::copied_from(alloc, name)?;
            Ok(Some(Witness::Unmet(name, field, place)))
        }
    }
}

// Whether the record is of a present package of another name that breaks the member, whose package is `here`.
#[tactic(auto, unfolding(crate::specs::Witness::BreaksMember))]
fn breaks_member(member: &StateRecord<'_, '_>, here: &Pkg<'_>, other: &StateRecord<'_, '_>) -> bool
    requires { here.now ≡ pkg_of member.now }
    ensures { IsTrue result ↔ BreaksMember member.now other.now }
{
    match other.present_pkg() {
        None => false,
        Some(there) => !is_same(other.name(), member.name()) && breaks_other(there, here),
    }
}

// The first present package of another name that breaks the member, whose package is `here`.
fn first_breaker<'a>(
    db: &Records<'_, 'a>,
    member: &StateRecord<'_, '_>,
    here: &Pkg<'_>,
) -> Option<&'a [u8]>
    requires { here.now ≡ pkg_of member.now }
    ensures { MatchOption result (All (λ other. ¬ BreaksMember member.now other) db.now)
        (λ name. HasRecord (BreaksMember member.now) name.now db.now) }
{
    match db
        .as_slice()
        .iter()
        .find(|other| breaks_member(member, here, other))
    {
        None => None,
        Some(entry) => Some(entry.name()),
    }
}

// The first that breaks the record's package, if it is a present member.
fn breaker_of<'a>(
    db: &Records<'_, 'a>,
    names: &[Name],
    member: &StateRecord<'_, '_>,
) -> Option<&'a [u8]>
    ensures { MatchOption result (IsMemberWhole db.now names.now member.now)
        (λ breaker. IsMemberBroken db.now names.now breaker.now member.now) }
{
    if !is_member(names, member) {
        return None;
    }
    match member.present_pkg() {
        None => None,
        Some(here) => first_breaker(db, member, here),
    }
}

// The first member that is broken, and what breaks it.
fn first_broken<'a>(db: &Records<'_, 'a>, names: &[Name]) -> Option<(&'a [u8], &'a [u8])>
    ensures { MatchOption result (All (IsMemberWhole db.now names.now) db.now)
        (λ both. Any (λ member. (member.name ≡ both.0.now)
        × IsMemberBroken db.now names.now both.1.now member) db.now) }
{
    for member in db.as_slice() {
        if let Some(breaker) = breaker_of(db, names, member) {
            return Some((member.name(), breaker));
        }
    }
    None
}

fn broken_package(
    alloc: Global,
    db: &Records<'_, '_>,
    names: &[Name],
) -> Result<Option<Witness>, AllocError>
    ensures { IfOk result (λ witness. MatchOption witness (AreUnbroken db.now names.now)
        (IsAgainstConfigure db.now names.now rules.Breaks)) }
{
    match first_broken(db, names) {
        None => Ok(None),
        Some((name, breaker)) => {
            let name = Text::copied_from(alloc, name)?;
            let breaker = Text::copied_from(alloc, breaker)?;
            Ok(Some(Witness::BrokenBy(name, breaker)))
        }
    }
}

/// What stands against the configuring of these names together, by this rule. For F1 and F4 linear in the records, and for each
/// clause of a member in those that have or provide a name of it; for each that no installed package meets, linear in the
/// records once more. For F3 linear in the records for each member. Memory alone can fail.
pub(crate) fn against_configure(
    alloc: Global,
    db: &Records<'_, '_>,
    names: &[Name],
    rule: Rule,
) -> Result<Option<Witness>, AllocError>
    ensures { IfOk result
        (λ witness. MatchOption witness
        (configure_has_witness rule ≡ true → ConfigureAsks db.now names.now rule)
        (IsAgainstConfigure db.now names.now rule)) }
{
    match rule {
        Rule::PreDepends => unmet_clause(alloc, db, names, ClauseField::PreDepends),
        Rule::Depends => unmet_clause(alloc, db, names, ClauseField::Depends),
        Rule::Breaks => broken_package(alloc, db, names),
        _ => Ok(None),
    }
}
