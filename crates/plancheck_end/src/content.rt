// Whether a package has what it needs among the installed ones (Policy 7.2 to 7.4).

ghost use Rattle.std.specs.Prelude.{◌≡◌, ◌≢◌, ◌↔◌, IsTrue};
ghost use Rattle.std.specs.List.{All};
ghost use Rattle.rules.specs.Database.{IsInstalled, installed_of, pkg_of};
ghost use Rattle.rules.specs.Package.{Matches};
ghost use Rattle.rules.specs.Sound.{HasItsRelations, MatchedByNoOther, MeetsClauses};

use plancheck_state::{Holders, Records, StateRecord, are_met, is_same};
use relation::{Atom, Pkg};

// Whether the record isn't installed, is of the name, or doesn't match the atom.
fn is_apart(other: &StateRecord<'_, '_>, name: &[u8], atom: &Atom<'_>) -> bool
    ensures { IsTrue result
        ↔ (IsInstalled other.now → other.now.name ≢ name.now
        → ¬ Matches (pkg_of other.now) atom.now) }
{
    match other.present_pkg() {
        Some(there) if other.state().is_installed() => {
            is_same(other.name(), name) || !atom.matched_by(there)
        }
        _ => true,
    }
}

fn are_apart(mut others: Holders<'_, '_, '_>, name: &[u8], atom: &Atom<'_>) -> bool
    ensures { IsTrue result ↔ All (λ other. IsInstalled other → other.name ≢ name.now
        → ¬ Matches (pkg_of other) atom.now) others.entry }
{
    others.all(|other| is_apart(other, name, atom))
}

fn is_atom_apart(db: &Records<'_, '_>, name: &[u8], atom: &Atom<'_>) -> bool
    ensures { IsTrue result ↔ All (λ other. IsInstalled other → other.name ≢ name.now
        → ¬ Matches (pkg_of other) atom.now) db.now }
{
    are_apart(db.holders(atom.name()), name, atom)
}

fn are_all_apart(db: &Records<'_, '_>, name: &[u8], atoms: &[Atom<'_>]) -> bool
    ensures { IsTrue result ↔ All (λ atom. All (λ other. IsInstalled other → other.name ≢ name.now
        → ¬ Matches (pkg_of other) atom) db.now) atoms.now }
{
    atoms.iter().all(|atom| is_atom_apart(db, name, atom))
}

// Whether no installed package of another name matches an atom.
fn is_matched_by_no_other(db: &Records<'_, '_>, name: &[u8], atoms: &[Atom<'_>]) -> bool
    ensures { IsTrue result ↔ MatchedByNoOther (installed_of db.now) name.now atoms.now }
{
    are_all_apart(db, name, atoms)
}

fn has_needs(db: &Records<'_, '_>, pkg: &Pkg<'_>) -> bool
    ensures { IsTrue result ↔ (MeetsClauses (installed_of db.now) pkg.now.relations.pre_depends
        × MeetsClauses (installed_of db.now) pkg.now.relations.depends) }
{
    are_met(db, pkg.pre_depends()) && are_met(db, pkg.depends())
}

fn clashes_with_none(db: &Records<'_, '_>, pkg: &Pkg<'_>) -> bool
    ensures { IsTrue result
        ↔ (MatchedByNoOther (installed_of db.now) pkg.now.name pkg.now.relations.conflicts
        × MatchedByNoOther (installed_of db.now) pkg.now.name pkg.now.relations.breaks) }
{
    is_matched_by_no_other(db, pkg.name(), pkg.conflicts())
        && is_matched_by_no_other(db, pkg.name(), pkg.breaks())
}

/// Whether each clause of the package is met by installed packages, and it conflicts with and breaks none of
/// another name. For each of its atoms linear in the records that have or provide its name, and in what they
/// provide.
pub fn is_content(db: &Records<'_, '_>, pkg: &Pkg<'_>) -> bool
    ensures { IsTrue result ↔ HasItsRelations (installed_of db.now) pkg.now }
{
    has_needs(db, pkg) && clashes_with_none(db, pkg)
}
