// Whether two packages conflict at the start (Policy 7.4).

ghost use Rattle.std.specs.Prelude.{◌≡◌, ◌≢◌, ◌↔◌, IsTrue};
ghost use Rattle.std.specs.List.{All};
ghost use Rattle.rules.specs.Database.{HasNoConflictWith, IsPresent, IsQuiet, pkg_of};
ghost use Rattle.rules.specs.Package.{Matches};

use plancheck_state::{Holders, Records, StateRecord, is_same};
use relation::{Atom, Pkg};

// Whether the record isn't present, has the package's name, or doesn't match the atom.
fn does_not_match(pkg: &Pkg<'_>, atom: &Atom<'_>, other: &StateRecord<'_, '_>) -> bool
    ensures { IsTrue result
        ↔ (IsPresent other.now → pkg.now.name ≢ other.now.name
        → ¬ Matches (pkg_of other.now) atom.now) }
{
    match other.present_pkg() {
        None => true,
        Some(there) => is_same(pkg.name(), other.name()) || !atom.matched_by(there),
    }
}

fn none_matches(pkg: &Pkg<'_>, atom: &Atom<'_>, mut others: Holders<'_, '_, '_>) -> bool
    ensures { IsTrue result ↔ All (λ other. IsPresent other → pkg.now.name ≢ other.name
        → ¬ Matches (pkg_of other) atom.now) others.entry }
{
    others.all(|other| does_not_match(pkg, atom, other))
}

fn no_holder_matches(db: &Records<'_, '_>, pkg: &Pkg<'_>, atom: &Atom<'_>) -> bool
    ensures { IsTrue result ↔ All (λ other. IsPresent other → pkg.now.name ≢ other.name
        → ¬ Matches (pkg_of other) atom.now) db.now }
{
    none_matches(pkg, atom, db.holders(atom.name()))
}

/// Whether no present package of another name than this matches one of the atoms. For each atom linear in the records that have or
/// provide its name, and in what they provide.
pub(crate) fn no_atom_matches(db: &Records<'_, '_>, pkg: &Pkg<'_>, atoms: &[Atom<'_>]) -> bool
    ensures { IsTrue result ↔ All (λ atom. All (λ other. IsPresent other → pkg.now.name ≢ other.name
        → ¬ Matches (pkg_of other) atom) db.now) atoms.now }
{
    atoms.iter().all(|atom| no_holder_matches(db, pkg, atom))
}

// Whether the package of the record, if it is present, isn't in conflict with any other.
fn conflicts_with_none(db: &Records<'_, '_>, entry: &StateRecord<'_, '_>) -> bool
    ensures { IsTrue result ↔ All (HasNoConflictWith entry.now) db.now }
{
    match entry.present_pkg() {
        None => true,
        Some(pkg) => no_atom_matches(db, pkg, pkg.conflicts()),
    }
}

/// Whether no present package conflicts with a present one of another name. Linear in the records; for each Conflicts
/// atom in those that have or provide its name, and in what they provide.
#[tactic(auto, unfolding(rules::specs::Database::IsQuiet))]
pub fn is_quiet(db: &Records<'_, '_>) -> bool
    ensures { IsTrue result ↔ IsQuiet db.now }
{
    db.as_slice()
        .iter()
        .all(|entry| conflicts_with_none(db, entry))
}
