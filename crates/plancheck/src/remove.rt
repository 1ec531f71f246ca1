// What a package needs to be removed: that no other needs it (Policy 7.2).

ghost use Rattle.std.specs.Prelude.{◌≡◌, ◌≢◌, ◌↔◌, ◌++◌, IsTrue};
ghost use Rattle.std.specs.List.{All, Any};
ghost use Rattle.rules.specs.Database.{ForOthers, HasRecord, HasSoundFlag, IsEssential, IsInstalled, IsPresent, IsRemoved, SomeOther, Stands, pkg_of};
ghost use Rattle.rules.specs.Package.{Matches, MatchesSome};
ghost use Rattle.rules.specs.Remove.{IsNeededByNone, IsNotNeeded, IsMetWithout, NeedsNot};

use plancheck_state::{Holders, Records, StateRecord, is_same, matches_some};
use relation::{Atom, Clause, Pkg};

fn is_present_and_sound(entry: &StateRecord<'_, '_>, name: &[u8]) -> bool
    ensures { IsTrue result
        ↔ ((entry.now.name ≡ name.now) × (IsPresent entry.now × HasSoundFlag entry.now)) }
{
    is_same(entry.name(), name) && entry.state().is_present() && entry.flag().is_sound()
}

fn some_can_be_removed(mut holders: Holders<'_, '_, '_>, name: &[u8]) -> bool
    ensures { IsTrue result
        ↔ HasRecord (λ entry. IsPresent entry × HasSoundFlag entry) name.now holders.entry }
{
    holders.any(|entry| is_present_and_sound(entry, name))
}

/// Whether the name is present with flag ok. Linear in the records that have or provide it.
pub fn can_be_removed(db: &Records<'_, '_>, name: &[u8]) -> bool
    ensures { IsTrue result
        ↔ HasRecord (λ entry. IsPresent entry × HasSoundFlag entry) name.now db.now }
{
    some_can_be_removed(db.holders(name), name)
}

fn is_essential_name(entry: &StateRecord<'_, '_>, name: &[u8]) -> bool
    ensures { IsTrue result ↔ ((entry.now.name ≡ name.now) × IsEssential entry.now) }
{
    is_same(entry.name(), name) && entry.is_essential()
}

fn some_is_essential(mut holders: Holders<'_, '_, '_>, name: &[u8]) -> bool
    ensures { IsTrue result ↔ HasRecord IsEssential name.now holders.entry }
{
    holders.any(|entry| is_essential_name(entry, name))
}

/// Whether the name is essential. Linear in the records that have or provide it.
pub fn is_essential(db: &Records<'_, '_>, name: &[u8]) -> bool
    ensures { IsTrue result ↔ HasRecord IsEssential name.now db.now }
{
    some_is_essential(db.holders(name), name)
}

fn is_installed_name(entry: &StateRecord<'_, '_>, name: &[u8]) -> bool
    ensures { IsTrue result ↔ ((entry.now.name ≡ name.now) × IsInstalled entry.now) }
{
    is_same(entry.name(), name) && entry.state().is_installed()
}

fn some_is_installed(mut holders: Holders<'_, '_, '_>, name: &[u8]) -> bool
    ensures { IsTrue result ↔ HasRecord IsInstalled name.now holders.entry }
{
    holders.any(|entry| is_installed_name(entry, name))
}

/// Whether the name is installed. Linear in the records that have or provide it.
pub fn is_installed(db: &Records<'_, '_>, name: &[u8]) -> bool
    ensures { IsTrue result ↔ HasRecord IsInstalled name.now db.now }
{
    some_is_installed(db.holders(name), name)
}

fn is_removed_name(entry: &StateRecord<'_, '_>, name: &[u8]) -> bool
    ensures { IsTrue result ↔ ((entry.now.name ≡ name.now) × IsRemoved entry.now) }
{
    is_same(entry.name(), name) && entry.state().is_removed()
}

fn some_is_removed(mut holders: Holders<'_, '_, '_>, name: &[u8]) -> bool
    ensures { IsTrue result ↔ HasRecord IsRemoved name.now holders.entry }
{
    holders.any(|entry| is_removed_name(entry, name))
}

/// Whether configuration files alone are left of the name. Linear in the records that have or provide it.
pub fn is_removed(db: &Records<'_, '_>, name: &[u8]) -> bool
    ensures { IsTrue result ↔ HasRecord IsRemoved name.now db.now }
{
    some_is_removed(db.holders(name), name)
}

// Whether the record is of another name, stands and matches the atom.
fn stands_in(other: &StateRecord<'_, '_>, name: &[u8], atom: &Atom<'_>) -> bool
    ensures { IsTrue result ↔ (((other.now.name ≢ name.now) × Stands other.now)
        × Matches (pkg_of other.now) atom.now) }
{
    match other.present_pkg() {
        Some(there) => !is_same(other.name(), name) && other.stands() && atom.matched_by(there),
        None => false,
    }
}

fn some_holder_stands_in(mut others: Holders<'_, '_, '_>, name: &[u8], atom: &Atom<'_>) -> bool
    ensures { IsTrue result ↔ Any (λ other. ((other.name ≢ name.now) × Stands other)
        × Matches (pkg_of other) atom.now) others.entry }
{
    others.any(|other| stands_in(other, name, atom))
}

fn some_stands_in_atom(db: &Records<'_, '_>, name: &[u8], atom: &Atom<'_>) -> bool
    ensures { IsTrue result ↔ Any (λ other. ((other.name ≢ name.now) × Stands other)
        × Matches (pkg_of other) atom.now) db.now }
{
    some_holder_stands_in(db.holders(atom.name()), name, atom)
}

fn some_stands_in_atoms(db: &Records<'_, '_>, name: &[u8], atoms: &[Atom<'_>]) -> bool
    ensures { IsTrue result ↔ Any (λ atom. Any (λ other. ((other.name ≢ name.now) × Stands other)
        × Matches (pkg_of other) atom) db.now) atoms.now }
{
    atoms.iter().any(|atom| some_stands_in_atom(db, name, atom))
}

fn some_stands_in(db: &Records<'_, '_>, name: &[u8], clause: &Clause<'_>) -> bool
    ensures { IsTrue result
        ↔ SomeOther (λ other. Stands other
        × MatchesSome (pkg_of other) clause.now) name.now db.now }
{
    some_stands_in_atoms(db, name, clause.as_slice())
}

// Whether the clause, if the package to be removed matches it, is matched by another that stands.
#[tactic(auto, unfolding(rules::specs::Remove::IsMetWithout))]
fn manages_without(
    db: &Records<'_, '_>,
    removed: &StateRecord<'_, '_>,
    there: &Pkg<'_>,
    clause: &Clause<'_>,
) -> bool
    requires { there.now ≡ pkg_of removed.now }
    ensures { IsTrue result ↔ IsMetWithout db.now removed.now clause.now }
{
    !matches_some(there, clause.as_slice()) || some_stands_in(db, removed.name(), clause)
}

fn manages_without_all(
    db: &Records<'_, '_>,
    removed: &StateRecord<'_, '_>,
    there: &Pkg<'_>,
    clauses: &[Clause<'_>],
) -> bool
    requires { there.now ≡ pkg_of removed.now }
    ensures { IsTrue result ↔ All (IsMetWithout db.now removed.now) clauses.now }
{
    clauses
        .iter()
        .all(|clause| manages_without(db, removed, there, clause))
}

fn is_other_or_managed_without(
    db: &Records<'_, '_>,
    name: &[u8],
    removed: &StateRecord<'_, '_>,
    clause: &Clause<'_>,
) -> bool
    ensures { IsTrue result
        ↔ (removed.now.name ≡ name.now → IsPresent removed.now
        → IsMetWithout db.now removed.now clause.now) }
{
    match removed.present_pkg() {
        None => true,
        Some(there) => {
            !is_same(removed.name(), name) || manages_without(db, removed, there, clause)
        }
    }
}

fn are_others_or_managed_without(
    db: &Records<'_, '_>,
    mut removed: Holders<'_, '_, '_>,
    name: &[u8],
    clause: &Clause<'_>,
) -> bool
    ensures { IsTrue result
        ↔ All (λ removed. removed.name ≡ name.now → IsPresent removed
        → IsMetWithout db.now removed clause.now) removed.entry }
{
    removed.all(|removed| is_other_or_managed_without(db, name, removed, clause))
}

/// Whether the clause manages without the present package of this name: if that matches it, a package of another name that
/// stands does too. Where it is a clause of an installed package of another name and doesn't manage, the name is needed, by
/// that one clause. For each of its atoms linear in the records that have or provide the atom's name.
pub fn is_met_without(db: &Records<'_, '_>, name: &[u8], clause: &Clause<'_>) -> bool
    ensures { IsTrue result
        ↔ All (λ removed. removed.name ≡ name.now → IsPresent removed
        → IsMetWithout db.now removed clause.now) db.now }
{
    are_others_or_managed_without(db, db.holders(name), name, clause)
}

// Whether each clause of the other record that the package matches is matched by another.
fn manages_without_needs(
    db: &Records<'_, '_>,
    removed: &StateRecord<'_, '_>,
    there: &Pkg<'_>,
    other: &StateRecord<'_, '_>,
) -> bool
    requires { there.now ≡ pkg_of removed.now }
    ensures { IsTrue result ↔ All (IsMetWithout db.now removed.now)
        (other.now.relations.pre_depends ++ other.now.relations.depends) }
{
    manages_without_all(db, removed, there, other.pre_depends())
        && manages_without_all(db, removed, there, other.depends())
}

// Whether the other record isn't installed or doesn't need the package to be removed.
#[tactic(auto, unfolding(rules::specs::Remove::NeedsNot))]
fn needs_not(
    db: &Records<'_, '_>,
    removed: &StateRecord<'_, '_>,
    there: &Pkg<'_>,
    other: &StateRecord<'_, '_>,
) -> bool
    requires { there.now ≡ pkg_of removed.now }
    ensures { IsTrue result ↔ NeedsNot db.now removed.now other.now }
{
    !other.state().is_installed() || manages_without_needs(db, removed, there, other)
}

fn is_own_or_needs_not(
    db: &Records<'_, '_>,
    removed: &StateRecord<'_, '_>,
    there: &Pkg<'_>,
    other: &StateRecord<'_, '_>,
) -> bool
    requires { there.now ≡ pkg_of removed.now }
    ensures { IsTrue result
        ↔ (other.now.name ≢ removed.now.name → NeedsNot db.now removed.now other.now) }
{
    needs_not(db, removed, there, other) || is_same(other.name(), removed.name())
}

// Whether no installed package of another name needs the package of the record.
#[tactic(auto, unfolding(rules::specs::Remove::IsNeededByNone))]
fn is_expendable(db: &Records<'_, '_>, removed: &StateRecord<'_, '_>, there: &Pkg<'_>) -> bool
    requires { there.now ≡ pkg_of removed.now }
    ensures { IsTrue result ↔ IsNeededByNone db.now removed.now }
{
    db.as_slice()
        .iter()
        .all(|other| is_own_or_needs_not(db, removed, there, other))
}

fn is_other_or_expendable(db: &Records<'_, '_>, name: &[u8], removed: &StateRecord<'_, '_>) -> bool
    ensures { IsTrue result
        ↔ (removed.now.name ≡ name.now → IsPresent removed.now
        → IsNeededByNone db.now removed.now) }
{
    match removed.present_pkg() {
        None => true,
        Some(there) => !is_same(removed.name(), name) || is_expendable(db, removed, there),
    }
}

fn are_others_or_expendable(
    db: &Records<'_, '_>,
    mut removed: Holders<'_, '_, '_>,
    name: &[u8],
) -> bool
    ensures { IsTrue result
        ↔ All (λ removed. removed.name ≡ name.now → IsPresent removed
        → IsNeededByNone db.now removed) removed.entry }
{
    removed.all(|removed| is_other_or_expendable(db, name, removed))
}

/// Whether no installed package of another name needs the present package of this name. Linear in the records and
/// the installed packages' clauses, for each that the package matches in the records that have or provide a name of
/// it.
#[tactic(auto, unfolding(rules::specs::Remove::IsNotNeeded))]
pub fn is_not_needed(db: &Records<'_, '_>, name: &[u8]) -> bool
    ensures { IsTrue result ↔ IsNotNeeded db.now name.now }
{
    are_others_or_expendable(db, db.holders(name), name)
}
