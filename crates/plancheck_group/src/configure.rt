// What a group of packages needs to be configured together (Policy 7.2 and 7.3).

ghost use Rattle.std.specs.Prelude.{◌≡◌, ◌≢◌, ◌↔◌, ◌++◌, IsTrue, true};
ghost use Rattle.std.specs.List.{All, Any};
ghost use Rattle.rules.specs.Configure.{AreConfigurable, HasConfigurable, AreDependsInstalled, ArePreDependsInstalled, AreUnbroken, IsConfigurable, IsUnbroken, is_present_among, members_of};
ghost use Rattle.rules.specs.Database.{ForMembers, ForOthers, HasRecord, IsInstalled, installed_of, pkg_of};
ghost use Rattle.rules.specs.Package.{Matches, MatchesSome, MeetsClause};
ghost use Rattle.rules.specs.Sound.{MeetsClauses};
ghost use Rattle.plancheck_group.specs.Part.{AreSupplied, DoesNotBreak};

use crate::part::Among;
use plancheck_state::{Holders, Records, StateRecord, are_met, breaks_other, is_met, is_same};
use relation::{Atom, Clause, Pkg};
use rules::Name;

fn is_configurable(entry: &StateRecord<'_, '_>, name: &[u8]) -> bool
    ensures { IsTrue result ↔ ((entry.now.name ≡ name.now) × IsConfigurable entry.now) }
{
    is_same(entry.name(), name) && entry.state().is_unconfigured() && entry.flag().is_sound()
}

fn some_is_configurable(mut holders: Holders<'_, '_, '_>, name: &[u8]) -> bool
    ensures { IsTrue result ↔ HasRecord IsConfigurable name.now holders.entry }
{
    holders.any(|entry| is_configurable(entry, name))
}

fn has_configurable(db: &Records<'_, '_>, name: &[u8]) -> bool
    ensures { IsTrue result ↔ HasConfigurable db.now name.now }
{
    some_is_configurable(db.holders(name), name)
}

/// Whether each name of the group has a record that may be configured. For each name linear in the records that have or
/// provide it.
#[tactic(auto, unfolding(rules::specs::Configure::AreConfigurable))]
pub fn are_configurable(db: &Records<'_, '_>, names: &[Name]) -> bool
    ensures { IsTrue result ↔ AreConfigurable db.now names.now }
{
    names
        .iter()
        .all(|name| has_configurable(db, name.as_bytes()))
}

// Whether the record is of another name, or its Pre-Depends are met by installed packages.
fn is_other_or_prepared(db: &Records<'_, '_>, name: &[u8], member: &StateRecord<'_, '_>) -> bool
    ensures { IsTrue result ↔ (member.now.name ≡ name.now
        → MeetsClauses (installed_of db.now) member.now.relations.pre_depends) }
{
    !is_same(member.name(), name) || are_met(db, member.pre_depends())
}

fn are_others_or_prepared(
    db: &Records<'_, '_>,
    mut members: Holders<'_, '_, '_>,
    name: &[u8],
) -> bool
    ensures { IsTrue result ↔ All (λ member. member.name ≡ name.now
        → MeetsClauses (installed_of db.now) member.relations.pre_depends) members.entry }
{
    members.all(|member| is_other_or_prepared(db, name, member))
}

// Whether the Pre-Depends of the name's package are met by installed packages.
fn is_prepared(db: &Records<'_, '_>, name: &[u8]) -> bool
    ensures { IsTrue result ↔ All (λ member. member.name ≡ name.now
        → MeetsClauses (installed_of db.now) member.relations.pre_depends) db.now }
{
    are_others_or_prepared(db, db.holders(name), name)
}

fn are_prepared(db: &Records<'_, '_>, names: &[Name]) -> bool
    ensures { IsTrue result ↔ All (λ name. All (λ member. member.name ≡ name
        → MeetsClauses (installed_of db.now) member.relations.pre_depends) db.now) names.now }
{
    names.iter().all(|name| is_prepared(db, name.as_bytes()))
}

/// Whether each Pre-Depends clause of the group's members is met by installed packages, each tested as
/// `plancheck_state::is_met` says.
pub fn are_pre_depends_installed(db: &Records<'_, '_>, names: &[Name]) -> bool
    ensures { IsTrue result ↔ ArePreDependsInstalled db.now names.now }
{
    are_prepared(db, names)
}

// Whether a present package of another name breaks the package of the record.
#[tactic(auto, unfolding(crate::specs::Part::DoesNotBreak))]
fn is_not_broken_by(
    other: &StateRecord<'_, '_>,
    member: &StateRecord<'_, '_>,
    here: &Pkg<'_>,
) -> bool
    requires { here.now ≡ pkg_of member.now }
    ensures { IsTrue result
        ↔ (other.now.name ≢ member.now.name → DoesNotBreak member.now other.now) }
{
    match other.present_pkg() {
        None => true,
        Some(there) => !breaks_other(there, here) || is_same(other.name(), member.name()),
    }
}

fn is_broken_by_none(db: &Records<'_, '_>, member: &StateRecord<'_, '_>, here: &Pkg<'_>) -> bool
    requires { here.now ≡ pkg_of member.now }
    ensures { IsTrue result ↔ ForOthers (DoesNotBreak member.now) member.now.name db.now }
{
    db.as_slice()
        .iter()
        .all(|other| is_not_broken_by(other, member, here))
}

// Whether no present package of another name breaks the package of the record, if it is present.
#[tactic(auto, unfolding(crate::specs::Part::DoesNotBreak, rules::specs::Configure::IsUnbroken))]
fn is_unbroken(db: &Records<'_, '_>, member: &StateRecord<'_, '_>) -> bool
    ensures { IsTrue result ↔ IsUnbroken db.now member.now }
{
    match member.present_pkg() {
        None => true,
        Some(here) => is_broken_by_none(db, member, here),
    }
}

// Whether the record is of another name, or no present package of another name breaks its package.
fn is_other_or_unbroken(db: &Records<'_, '_>, name: &[u8], member: &StateRecord<'_, '_>) -> bool
    ensures { IsTrue result ↔ (member.now.name ≡ name.now → IsUnbroken db.now member.now) }
{
    !is_same(member.name(), name) || is_unbroken(db, member)
}

fn are_others_or_unbroken(
    db: &Records<'_, '_>,
    mut members: Holders<'_, '_, '_>,
    name: &[u8],
) -> bool
    ensures { IsTrue result
        ↔ All (λ member. member.name ≡ name.now → IsUnbroken db.now member) members.entry }
{
    members.all(|member| is_other_or_unbroken(db, name, member))
}

// Whether no present package of another name breaks the name's package.
fn is_name_unbroken(db: &Records<'_, '_>, name: &[u8]) -> bool
    ensures { IsTrue result
        ↔ All (λ member. member.name ≡ name.now → IsUnbroken db.now member) db.now }
{
    are_others_or_unbroken(db, db.holders(name), name)
}

fn are_each_unbroken(db: &Records<'_, '_>, names: &[Name]) -> bool
    ensures { IsTrue result
        ↔ All (λ name.
        All (λ member. member.name ≡ name → IsUnbroken db.now member) db.now) names.now }
{
    names
        .iter()
        .all(|name| is_name_unbroken(db, name.as_bytes()))
}

/// Whether no present package of another name breaks a member of the group. For each member linear in the
/// records.
pub fn are_unbroken(db: &Records<'_, '_>, names: &[Name]) -> bool
    ensures { IsTrue result ↔ AreUnbroken db.now names.now }
{
    are_each_unbroken(db, names)
}

// Whether the record is present, of one of the names, and matches the atom.
fn matches_among(part: &Among<'_, '_>, entry: &StateRecord<'_, '_>, atom: &Atom<'_>) -> bool
    ensures { IsTrue result
        ↔ ((is_present_among part.now entry.now ≡ true) × Matches (pkg_of entry.now) atom.now) }
{
    match entry.present_pkg() {
        Some(there) => part.has_record(entry) && atom.matched_by(there),
        None => false,
    }
}

fn some_holder_matches(
    mut holders: Holders<'_, '_, '_>,
    part: &Among<'_, '_>,
    atom: &Atom<'_>,
) -> bool
    ensures { IsTrue result ↔ Any (λ entry. (is_present_among part.now entry ≡ true)
        × Matches (pkg_of entry) atom.now) holders.entry }
{
    holders.any(|entry| matches_among(part, entry, atom))
}

fn is_atom_met_among(db: &Records<'_, '_>, part: &Among<'_, '_>, atom: &Atom<'_>) -> bool
    ensures { IsTrue result ↔ Any (λ entry. (is_present_among part.now entry ≡ true)
        × Matches (pkg_of entry) atom.now) db.now }
{
    some_holder_matches(db.holders(atom.name()), part, atom)
}

fn some_atom_is_met_among(db: &Records<'_, '_>, part: &Among<'_, '_>, atoms: &[Atom<'_>]) -> bool
    ensures { IsTrue result ↔ Any (λ atom. Any (λ entry. (is_present_among part.now entry ≡ true)
        × Matches (pkg_of entry) atom) db.now) atoms.now }
{
    atoms.iter().any(|atom| is_atom_met_among(db, part, atom))
}

// Whether a member matches the clause.
fn some_matches_among(db: &Records<'_, '_>, part: &Among<'_, '_>, clause: &Clause<'_>) -> bool
    ensures { IsTrue result ↔ Any (λ entry. (is_present_among part.now entry ≡ true)
        × MatchesSome (pkg_of entry) clause.now) db.now }
{
    some_atom_is_met_among(db, part, clause.as_slice())
}

// Whether an installed package or a member matches the clause.
fn is_met_with(db: &Records<'_, '_>, part: &Among<'_, '_>, clause: &Clause<'_>) -> bool
    ensures { IsTrue result
        ↔ MeetsClause (installed_of db.now ++ members_of part.now db.now) clause.now }
{
    is_met(db, clause) || some_matches_among(db, part, clause)
}

#[tactic(auto, unfolding(rules::specs::Sound::MeetsClauses))]
fn are_met_with(db: &Records<'_, '_>, part: &Among<'_, '_>, clauses: &[Clause<'_>]) -> bool
    ensures { IsTrue result
        ↔ MeetsClauses (installed_of db.now ++ members_of part.now db.now) clauses.now }
{
    clauses.iter().all(|clause| is_met_with(db, part, clause))
}

// Whether the record is of another name, or its Depends are met by installed packages and the part's.
fn is_other_or_supplied(
    db: &Records<'_, '_>,
    part: &Among<'_, '_>,
    name: &[u8],
    member: &StateRecord<'_, '_>,
) -> bool
    ensures { IsTrue result ↔ (member.now.name ≡ name.now
        → MeetsClauses
        (installed_of db.now ++ members_of part.now db.now) member.now.relations.depends) }
{
    !is_same(member.name(), name) || are_met_with(db, part, member.depends())
}

fn are_others_or_supplied(
    db: &Records<'_, '_>,
    part: &Among<'_, '_>,
    mut members: Holders<'_, '_, '_>,
    name: &[u8],
) -> bool
    ensures { IsTrue result ↔ All (λ member. member.name ≡ name.now
        → MeetsClauses
        (installed_of db.now
        ++ members_of part.now db.now) member.relations.depends) members.entry }
{
    members.all(|member| is_other_or_supplied(db, part, name, member))
}

/// Whether the Depends of the name's package are met by installed packages and the part's. For each atom linear in the
/// records that have or provide its name.
pub fn is_supplied(db: &Records<'_, '_>, part: &Among<'_, '_>, name: &[u8]) -> bool
    ensures { IsTrue result ↔ All (λ member. member.name ≡ name.now
        → MeetsClauses
        (installed_of db.now ++ members_of part.now db.now) member.relations.depends) db.now }
{
    are_others_or_supplied(db, part, db.holders(name), name)
}

fn are_each_supplied(db: &Records<'_, '_>, part: &Among<'_, '_>, names: &[Name]) -> bool
    ensures { IsTrue result ↔ All (λ name. All (λ member. member.name ≡ name
        → MeetsClauses
        (installed_of db.now
        ++ members_of part.now db.now) member.relations.depends) db.now) names.now }
{
    names
        .iter()
        .all(|name| is_supplied(db, part, name.as_bytes()))
}

// Whether each Depends clause of the packages of these names is met by installed packages and those of the part.
fn are_supplied(db: &Records<'_, '_>, part: &Among<'_, '_>, names: &[Name]) -> bool
    ensures { IsTrue result ↔ AreSupplied db.now part.now names.now }
{
    are_each_supplied(db, part, names)
}

/// Whether each Depends clause of the group's members is met by installed packages and members. For each atom linear
/// in the records that have or provide its name, for each in the members.
#[tactic(auto, unfolding(crate::specs::Part::AreSupplied, rules::specs::Configure::AreDependsInstalled))]
pub fn are_depends_installed(db: &Records<'_, '_>, names: &[Name]) -> bool
    ensures { IsTrue result ↔ AreDependsInstalled db.now names.now }
{
    are_supplied(db, &Among::of_list(names), names)
}
