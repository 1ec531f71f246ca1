// What the installed packages of the database meet and have (Policy 7.2).

ghost use Rattle.std.specs.Prelude.{◌≡◌, ◌↔◌, IsTrue};
ghost use Rattle.std.specs.List.{Any};
ghost use Rattle.rules.specs.Database.{IsInstalled, installed_of, pkg_of};
ghost use Rattle.rules.specs.Package.{Matches, MeetsClause};
ghost use Rattle.rules.specs.Sound.{HasMember, HasVersion, MeetsClauses};
ghost use Rattle.rules.specs.Universe.{IsOf};

use crate::holder::Holders;
use crate::lookup::Records;
use crate::matching::is_same;
use crate::package_record::StateRecord;
use debversion::Version;
use relation::{Atom, Clause, Pkg};

// Whether the record is installed and matches the atom.
fn matches_installed(entry: &StateRecord<'_, '_>, atom: &Atom<'_>) -> bool
    ensures { IsTrue result ↔ (IsInstalled entry.now × Matches (pkg_of entry.now) atom.now) }
{
    match entry.present_pkg() {
        Some(there) if entry.state().is_installed() => atom.matched_by(there),
        _ => false,
    }
}

fn some_matches_installed(mut holders: Holders<'_, '_, '_>, atom: &Atom<'_>) -> bool
    ensures { IsTrue result
        ↔ Any (λ entry. IsInstalled entry × Matches (pkg_of entry) atom.now) holders.entry }
{
    holders.any(|entry| matches_installed(entry, atom))
}

fn is_atom_met(db: &Records<'_, '_>, atom: &Atom<'_>) -> bool
    ensures { IsTrue result
        ↔ Any (λ entry. IsInstalled entry × Matches (pkg_of entry) atom.now) db.now }
{
    some_matches_installed(db.holders(atom.name()), atom)
}

fn some_atom_is_met(db: &Records<'_, '_>, atoms: &[Atom<'_>]) -> bool
    ensures { IsTrue result
        ↔ Any (λ atom.
        Any (λ entry. IsInstalled entry × Matches (pkg_of entry) atom) db.now) atoms.now }
{
    atoms.iter().any(|atom| is_atom_met(db, atom))
}

/// Whether an installed package matches an atom of the clause. For each atom linear in the records that have or
/// provide its name, and in what they provide.
pub fn is_met(db: &Records<'_, '_>, clause: &Clause<'_>) -> bool
    ensures { IsTrue result ↔ MeetsClause (installed_of db.now) clause.now }
{
    some_atom_is_met(db, clause.as_slice())
}

/// Whether each clause is met by installed packages, each tested as `is_met` says.
#[tactic(auto, unfolding(rules::specs::Sound::MeetsClauses))]
pub fn are_met(db: &Records<'_, '_>, clauses: &[Clause<'_>]) -> bool
    ensures { IsTrue result ↔ MeetsClauses (installed_of db.now) clauses.now }
{
    clauses.iter().all(|clause| is_met(db, clause))
}

fn is_installed_name(entry: &StateRecord<'_, '_>, name: &[u8]) -> bool
    ensures { IsTrue result ↔ (IsInstalled entry.now × (entry.now.name ≡ name.now)) }
{
    entry.state().is_installed() && is_same(entry.name(), name)
}

fn some_is_installed(mut holders: Holders<'_, '_, '_>, name: &[u8]) -> bool
    ensures { IsTrue result
        ↔ Any (λ entry. IsInstalled entry × (entry.name ≡ name.now)) holders.entry }
{
    holders.any(|entry| is_installed_name(entry, name))
}

/// Whether a package of the name is installed. Linear in the records that have or provide the name.
pub fn has_member(db: &Records<'_, '_>, name: &[u8]) -> bool
    ensures { IsTrue result ↔ HasMember name.now (installed_of db.now) }
{
    some_is_installed(db.holders(name), name)
}

fn is_of(pkg: &Pkg<'_>, name: &[u8], version: &Version<'_>) -> bool
    ensures { IsTrue result ↔ IsOf name.now version.now pkg.now }
{
    is_same(pkg.name(), name) && pkg.version() == version
}

fn is_installed_version(entry: &StateRecord<'_, '_>, name: &[u8], version: &Version<'_>) -> bool
    ensures { IsTrue result
        ↔ (IsInstalled entry.now × IsOf name.now version.now (pkg_of entry.now)) }
{
    match entry.present_pkg() {
        Some(there) if entry.state().is_installed() => is_of(there, name, version),
        _ => false,
    }
}

fn some_is_version(mut holders: Holders<'_, '_, '_>, name: &[u8], version: &Version<'_>) -> bool
    ensures { IsTrue result
        ↔ Any (λ entry. IsInstalled entry
        × IsOf name.now version.now (pkg_of entry)) holders.entry }
{
    holders.any(|entry| is_installed_version(entry, name, version))
}

/// Whether this version of the name is installed. Linear in the records that have or provide the name.
pub fn has_version(db: &Records<'_, '_>, name: &[u8], version: &Version<'_>) -> bool
    ensures { IsTrue result ↔ HasVersion name.now version.now (installed_of db.now) }
{
    some_is_version(db.holders(name), name, version)
}
