// What a package needs to be unpacked (Policy 7.2 to 7.4).

ghost use Rattle.std.specs.Prelude.{◌≡◌, ◌≢◌, ◌↔◌, IsTrue};
ghost use Rattle.std.specs.List.{All, Any};
ghost use Rattle.rules.specs.Database.{IsInstalled, IsPresent, SomeOther, pkg_of};
ghost use Rattle.rules.specs.Package.{ConflictsWith, Matches};
ghost use Rattle.rules.specs.Unpack.{BreaksNone, FitsFromBefore, FitsThenAndNow, HasNoConflict, HasPreDepends, IsSatisfied, SatisfiesAtom};
ghost use Rattle.plancheck.specs.Apart.{NoOtherConflicts, IsApart};

use crate::quiet::no_atom_matches;
use debversion::Version;
use plancheck_state::{Holders, Records, StateRecord, conflicts_with, is_same};
use relation::{Atom, Clause, Pkg};

// Whether the record fits the atom as it is now and as it was when this version of it was configured.
#[tactic(auto, unfolding(rules::specs::Unpack::FitsThenAndNow))]
fn fits_then_and_now(
    entry: &StateRecord<'_, '_>,
    there: &Pkg<'_>,
    atom: &Atom<'_>,
    configured: &Version<'_>,
) -> bool
    requires { there.now ≡ pkg_of entry.now }
    ensures { IsTrue result ↔ FitsThenAndNow entry.now atom.now configured.now }
{
    (is_same(there.name(), atom.name()) && atom.met_by(there.version()) && atom.met_by(configured))
        || atom.provided_by(there)
}

// Whether the record is unconfigured, was configured before, and fits the atom.
#[tactic(auto, unfolding(rules::specs::Unpack::FitsFromBefore))]
fn fits_from_before(entry: &StateRecord<'_, '_>, atom: &Atom<'_>) -> bool
    ensures { IsTrue result ↔ FitsFromBefore entry.now atom.now }
{
    match entry.present_pkg() {
        Some(there) if entry.state().is_unconfigured() => match entry.last_configured() {
            Some(configured) => fits_then_and_now(entry, there, atom, &configured),
            None => false,
        },
        _ => false,
    }
}

// Whether the record is installed and matches the atom.
fn matches_installed(entry: &StateRecord<'_, '_>, atom: &Atom<'_>) -> bool
    ensures { IsTrue result ↔ (IsInstalled entry.now × Matches (pkg_of entry.now) atom.now) }
{
    match entry.present_pkg() {
        Some(there) if entry.state().is_installed() => atom.matched_by(there),
        _ => false,
    }
}

// Whether the record satisfies the atom of a Pre-Depends.
#[tactic(auto, unfolding(rules::specs::Unpack::SatisfiesAtom))]
fn satisfies_atom(entry: &StateRecord<'_, '_>, atom: &Atom<'_>) -> bool
    ensures { IsTrue result ↔ SatisfiesAtom entry.now atom.now }
{
    !atom.is_foreign() && (matches_installed(entry, atom) || fits_from_before(entry, atom))
}

fn is_other_and_satisfies(entry: &StateRecord<'_, '_>, name: &[u8], atom: &Atom<'_>) -> bool
    ensures { IsTrue result ↔ ((entry.now.name ≢ name.now) × SatisfiesAtom entry.now atom.now) }
{
    !is_same(entry.name(), name) && satisfies_atom(entry, atom)
}

fn some_other_satisfies(mut others: Holders<'_, '_, '_>, name: &[u8], atom: &Atom<'_>) -> bool
    ensures { IsTrue result
        ↔ SomeOther (λ other. SatisfiesAtom other atom.now) name.now others.entry }
{
    others.any(|other| is_other_and_satisfies(other, name, atom))
}

fn is_atom_satisfied(db: &Records<'_, '_>, name: &[u8], atom: &Atom<'_>) -> bool
    ensures { IsTrue result ↔ SomeOther (λ other. SatisfiesAtom other atom.now) name.now db.now }
{
    some_other_satisfies(db.holders(atom.name()), name, atom)
}

/// Whether a package of another name satisfies an atom of the clause. For each atom linear in the records that have or
/// provide its name, and in what they provide.
#[tactic(auto, unfolding(rules::specs::Unpack::IsSatisfied))]
pub fn is_satisfied(db: &Records<'_, '_>, name: &[u8], clause: &Clause<'_>) -> bool
    ensures { IsTrue result ↔ IsSatisfied db.now name.now clause.now }
{
    clause
        .as_slice()
        .iter()
        .any(|atom| is_atom_satisfied(db, name, atom))
}

/// Whether each Pre-Depends clause of the package is satisfied by packages of other names. For each atom linear in
/// the records that have or provide its name, and in what they provide.
#[tactic(auto, unfolding(rules::specs::Unpack::HasPreDepends))]
pub fn has_pre_depends(db: &Records<'_, '_>, pkg: &Pkg<'_>) -> bool
    ensures { IsTrue result ↔ HasPreDepends db.now pkg.now }
{
    pkg.pre_depends()
        .iter()
        .all(|clause| is_satisfied(db, pkg.name(), clause))
}

// Whether the package of the record, if it is present and of another name, doesn't conflict with the package.
fn does_not_conflict(pkg: &Pkg<'_>, other: &StateRecord<'_, '_>) -> bool
    ensures { IsTrue result
        ↔ (other.now.name ≢ pkg.now.name → IsPresent other.now
        → ¬ ConflictsWith (pkg_of other.now) pkg.now) }
{
    match other.present_pkg() {
        None => true,
        Some(there) => !conflicts_with(there, pkg) || is_same(other.name(), pkg.name()),
    }
}

// Whether no present package of another name conflicts with the package.
fn no_other_conflicts(db: &Records<'_, '_>, pkg: &Pkg<'_>) -> bool
    ensures { IsTrue result ↔ NoOtherConflicts db.now pkg.now }
{
    db.as_slice()
        .iter()
        .all(|other| does_not_conflict(pkg, other))
}

/// Whether no present package of another name conflicts with the package, either way. For each of its Conflicts atoms
/// linear in the records that have or provide its name; and linear in the records, for each in its Conflicts.
pub fn has_no_conflict(db: &Records<'_, '_>, pkg: &Pkg<'_>) -> bool
    ensures { IsTrue result ↔ HasNoConflict db.now pkg.now }
{
    no_atom_matches(db, pkg, pkg.conflicts()) && no_other_conflicts(db, pkg)
}

// Whether the record isn't installed, has the package's name, or doesn't match the atom.
fn is_apart(pkg: &Pkg<'_>, atom: &Atom<'_>, other: &StateRecord<'_, '_>) -> bool
    ensures { IsTrue result ↔ IsApart pkg.now other.now atom.now }
{
    match other.present_pkg() {
        Some(there) if other.state().is_installed() => {
            is_same(other.name(), pkg.name()) || !atom.matched_by(there)
        }
        _ => true,
    }
}

fn are_apart(pkg: &Pkg<'_>, atom: &Atom<'_>, mut others: Holders<'_, '_, '_>) -> bool
    ensures { IsTrue result ↔ All (λ other. IsApart pkg.now other atom.now) others.entry }
{
    others.all(|other| is_apart(pkg, atom, other))
}

fn is_atom_apart(db: &Records<'_, '_>, pkg: &Pkg<'_>, atom: &Atom<'_>) -> bool
    ensures { IsTrue result ↔ All (λ other. IsApart pkg.now other atom.now) db.now }
{
    are_apart(pkg, atom, db.holders(atom.name()))
}

fn are_atoms_apart(db: &Records<'_, '_>, pkg: &Pkg<'_>, atoms: &[Atom<'_>]) -> bool
    ensures { IsTrue result
        ↔ All (λ atom. All (λ other. IsApart pkg.now other atom) db.now) atoms.now }
{
    atoms.iter().all(|atom| is_atom_apart(db, pkg, atom))
}

/// Whether the package breaks no installed package of another name. For each of its Breaks atoms linear in the records that
/// have or provide its name, and in what they provide.
pub fn breaks_none(db: &Records<'_, '_>, pkg: &Pkg<'_>) -> bool
    ensures { IsTrue result ↔ BreaksNone db.now pkg.now }
{
    are_atoms_apart(db, pkg, pkg.breaks())
}
