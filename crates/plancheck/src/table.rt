// The first rule that an action fails, by the table of its rules (Policy 7.2 to 7.4).

ghost use Rattle.std.specs.Prelude.{◌≡◌, ◌↔◌, ℕ, ◌<◌, IfOk, IsTrue, MatchOption, MatchBool};
ghost use Rattle.std.specs.List.{All};
ghost use Rattle.std.specs.Option.{option_copied};
ghost use Rattle.rules.specs.Database.{HasRecord, HasSoundFlag, IsEssential, IsInstalled, IsPresent, IsRemoved};
ghost use Rattle.rules.specs.Legal.{ConfigureAsks, DeconfigureAsks, IsFirstUnkept, PurgeAsks, RemoveAsks, UnpackAsks, configure_rules, deconfigure_rules, purge_rules, remove_rules, unpack_rules};

use crate::held::{is_not_held, stands_as};
use crate::remove::{can_be_removed, is_essential, is_installed, is_not_needed, is_removed};
use crate::unpack::{breaks_none, has_no_conflict, has_pre_depends};
use debversion::Version;
use index::IndexPackage;
use plancheck_group::{
    are_configurable, are_depends_installed, are_pre_depends_installed, are_unbroken,
    is_indivisible,
};
use plancheck_state::Records;
use rules::{Name, Rule};
use std::alloc::{AllocError, Global};

// Whether the unpacking keeps the rule.
fn unpack_keeps(
    db: &Records<'_, '_>,
    listed: Option<&IndexPackage<'_>>,
    name: &[u8],
    version: &Version<'_>,
    rule: Rule,
) -> bool
    ensures { IsTrue result
        ↔ UnpackAsks (option_copied listed.entry) db.now name.now version.now rule }
{
    match (rule, listed) {
        (Rule::NotAdmitted, listed) => listed.is_some(),
        (Rule::Held, _) => is_not_held(db, name),
        (Rule::WrongState, _) => !stands_as(db, name, version),
        (Rule::PreDepends, Some(listed)) => has_pre_depends(db, listed.pkg()),
        (Rule::Conflict, Some(listed)) => has_no_conflict(db, listed.pkg()),
        (Rule::Breaks, Some(listed)) => breaks_none(db, listed.pkg()),
        _ => true,
    }
}

// Whether the removal keeps the rule.
fn remove_keeps(db: &Records<'_, '_>, name: &[u8], rule: Rule) -> bool
    ensures { IsTrue result ↔ RemoveAsks db.now name.now rule }
{
    match rule {
        Rule::WrongState => can_be_removed(db, name),
        Rule::Held => is_not_held(db, name),
        Rule::Essential => !is_essential(db, name),
        Rule::NeededBy => is_not_needed(db, name),
        _ => true,
    }
}

/// The first rule that a removal of the name fails, if there is one. Linear in the installed packages' clauses,
/// for each that the package matches in the records.
pub fn remove_failing(db: &Records<'_, '_>, name: &[u8]) -> Option<Rule>
    ensures { MatchOption result (All (RemoveAsks db.now name.now) remove_rules)
        (λ rule. IsFirstUnkept (RemoveAsks db.now name.now) remove_rules rule) }
{
    for rule in [
        Rule::WrongState,
        Rule::Held,
        Rule::Essential,
        Rule::NeededBy,
    ] {
        if !remove_keeps(db, name, rule) {
            return Some(rule);
        }
    }
    None
}

/// The first rule that an unpacking of this version of the name fails, if there is one; `listed` is the stanza
/// of the version in the indices, if it is admitted and there. Linear in the records, for each in the packages'
/// relations.
pub fn unpack_failing(
    db: &Records<'_, '_>,
    listed: Option<&IndexPackage<'_>>,
    name: &[u8],
    version: &Version<'_>,
) -> Option<Rule>
    ensures { MatchOption result
        (All (UnpackAsks (option_copied listed.entry) db.now name.now version.now) unpack_rules)
        (λ rule. IsFirstUnkept
        (UnpackAsks (option_copied listed.entry) db.now name.now version.now) unpack_rules rule) }
{
    for rule in [
        Rule::NotAdmitted,
        Rule::Held,
        Rule::WrongState,
        Rule::PreDepends,
        Rule::Conflict,
        Rule::Breaks,
    ] {
        if !unpack_keeps(db, listed, name, version, rule) {
            return Some(rule);
        }
    }
    None
}

// Whether the purge keeps the rule.
fn purge_keeps(db: &Records<'_, '_>, name: &[u8], rule: Rule) -> bool
    ensures { IsTrue result ↔ PurgeAsks db.now name.now rule }
{
    match rule {
        Rule::WrongState => is_removed(db, name),
        Rule::Held => is_not_held(db, name),
        _ => true,
    }
}

/// The first rule that a purge of the name fails, if there is one. Linear in the records.
pub fn purge_failing(db: &Records<'_, '_>, name: &[u8]) -> Option<Rule>
    ensures { MatchOption result (All (PurgeAsks db.now name.now) purge_rules)
        (λ rule. IsFirstUnkept (PurgeAsks db.now name.now) purge_rules rule) }
{
    for rule in [Rule::WrongState, Rule::Held] {
        if !purge_keeps(db, name, rule) {
            return Some(rule);
        }
    }
    None
}

// Whether the deconfiguring keeps the rule.
fn deconfigure_keeps(db: &Records<'_, '_>, name: &[u8], rule: Rule) -> bool
    ensures { IsTrue result ↔ DeconfigureAsks db.now name.now rule }
{
    match rule {
        Rule::WrongState => is_installed(db, name),
        _ => true,
    }
}

/// The rule that a deconfiguring of the name fails, if it fails. Linear in the records.
pub fn deconfigure_failing(db: &Records<'_, '_>, name: &[u8]) -> Option<Rule>
    ensures { MatchOption result (All (DeconfigureAsks db.now name.now) deconfigure_rules)
        (λ rule. IsFirstUnkept (DeconfigureAsks db.now name.now) deconfigure_rules rule) }
{
    for rule in [Rule::WrongState] {
        if !deconfigure_keeps(db, name, rule) {
            return Some(rule);
        }
    }
    None
}

// Whether the configuring of the group keeps the rule.
fn configure_keeps(
    alloc: Global,
    db: &Records<'_, '_>,
    names: &[Name],
    rule: Rule,
) -> Result<bool, AllocError>
    ensures { IfOk result (λ answer. IsTrue answer ↔ ConfigureAsks db.now names.now rule) }
{
    match rule {
        Rule::WrongState => Ok(are_configurable(db, names)),
        Rule::PreDepends => Ok(are_pre_depends_installed(db, names)),
        Rule::Depends => Ok(are_depends_installed(db, names)),
        Rule::Breaks => Ok(are_unbroken(db, names)),
        Rule::Group => is_indivisible(alloc, db, names),
        _ => Ok(true),
    }
}

/// The first rule that a configuring of these names together fails, if there is one. For each member linear in the
/// records for each of its clauses; the last rule, whether a part could be configured by itself, costs what
/// `plancheck_group::is_indivisible` says. Memory alone can fail.
pub fn configure_failing(
    alloc: Global,
    db: &Records<'_, '_>,
    names: &[Name],
) -> Result<Option<Rule>, AllocError>
    ensures { IfOk result
        (λ failing. MatchOption failing (All (ConfigureAsks db.now names.now) configure_rules)
        (λ rule. IsFirstUnkept (ConfigureAsks db.now names.now) configure_rules rule)) }
{
    for rule in [
        Rule::WrongState,
        Rule::PreDepends,
        Rule::Depends,
        Rule::Breaks,
        Rule::Group,
    ] {
        if !configure_keeps(alloc, db, names, rule)? {
            return Ok(Some(rule));
        }
    }
    Ok(None)
}
