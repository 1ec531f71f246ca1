// Packages that are asked who of them matches an atom.

ghost use Rattle.std.specs.Prelude.{◌≡◌, ◌≢◌, ◌↔◌, IfOk, IsTrue, MatchOption, map};
ghost use Rattle.std.specs.List.{Any, slice_get};
ghost use Rattle.std.specs.Option.{option_copied};
ghost use Rattle.rules.specs.Package.{Matches};
ghost use Rattle.plainness.specs.Parts.{IsMatchedByOther};

use plancheck_state::is_same;
use providers::Providers;
use relation::{Atom, Pkg};
use std::alloc::{AllocError, Global};
use std::marker::Model;

/// Packages, lent, with who of them has or provides a name.
#[derive(Drop)]
pub(crate) struct Packages<'k, 'a> {
    alloc: Global,
    packages: &'k [&'k Pkg<'a>],
    providers: Providers<'a>,
}

impl<'k, 'a> Model for Packages<'k, 'a> {
    ghost use Rattle.std.specs.Prelude.{◌≡◌, List, map};
    ghost use Rattle.rules.specs.Package.{Pkg as PkgValue};

    ghost Value = { List PkgValue };

    ghost view = { λ p. map (λ pkg. pkg.now) p.packages.now };

    ghost invariant = { λ p. p.providers ≡ map (λ pkg. pkg.now) p.packages.now };
}

// The package that is lent at this place.
fn lent_at<'k, 'a>(packages: &[&'k Pkg<'a>], place: usize) -> Option<&'k Pkg<'a>>
    ensures { option_copied result ≡ slice_get (map (λ pkg. pkg.now) packages.now) place }
{
    match packages.get(place) {
        None => None,
        Some(pkg) => Some(*pkg),
    }
}

// Whether the package has another name than this and matches the atom.
fn is_other_and_matches(pkg: &Pkg<'_>, name: &[u8], atom: &Atom<'_>) -> bool
    ensures { IsTrue result ↔ ((pkg.now.name ≢ name.now) × Matches pkg.now atom.now) }
{
    !is_same(pkg.name(), name) && atom.matched_by(pkg)
}

impl<'k, 'a> Packages<'k, 'a> {
    /// These packages. Memory alone can fail. About n log n comparisons of the n names that they have and provide.
    pub(crate) fn new(
        alloc: Global,
        packages: &'k [&'k Pkg<'a>],
    ) -> Result<Packages<'k, 'a>, AllocError>
        ensures { IfOk result (λ made. made ≡ map (λ pkg. pkg.now) packages.now) }
    {
        let providers = Providers::of_packages(alloc, packages)?;
        Ok(Packages {
            alloc,
            packages,
            providers,
        })
    }

    /// The packages, in their order.
    pub(crate) fn as_slice(&self) -> &'k [&'k Pkg<'a>]
        ensures { map (λ pkg. pkg.now) result.now ≡ self.now }
    {
        self.packages
    }

    // Whether there is a package at the place, of another name than this, that matches the atom.
    fn is_match_at(&self, place: usize, name: &[u8], atom: &Atom<'_>) -> bool
        ensures { IsTrue result ↔ MatchOption (slice_get self.now place) ⊥
            (λ pkg. (pkg.name ≢ name.now) × Matches pkg atom.now) }
    {
        match lent_at(self.packages, place) {
            None => false,
            Some(pkg) => is_other_and_matches(pkg, name, atom),
        }
    }

    // The same of one of the places.
    fn is_match_among(&self, places: &[usize], name: &[u8], atom: &Atom<'_>) -> bool
        ensures { IsTrue result ↔ Any (λ place. MatchOption (slice_get self.now place) ⊥
            (λ pkg. (pkg.name ≢ name.now) × Matches pkg atom.now)) places.now }
    {
        places
            .iter()
            .any(|place| self.is_match_at(*place, name, atom))
    }

    // Whether a package of another name than this matches the atom.
    fn has_match(&self, name: &[u8], atom: &Atom<'_>) -> Result<bool, AllocError>
        ensures { IfOk result
            (λ answer. IsTrue answer
            ↔ Any (λ pkg. (pkg.name ≢ name.now) × Matches pkg atom.now) self.now) }
    {
        let places = self.providers.of(self.alloc, atom.name())?;
        let answer = self.is_match_among(places.as_slice(), name, atom);
        Ok(answer)
    }

    /// Whether a package of another name than this matches one of the atoms. Memory alone can fail. For each atom linear in
    /// the packages that have or provide its name.
    pub(crate) fn have_match(&self, name: &[u8], atoms: &[Atom<'_>]) -> Result<bool, AllocError>
        ensures { IfOk result
            (λ answer. IsTrue answer ↔ IsMatchedByOther self.now name.now atoms.now) }
    {
        for atom in atoms {
            let matched = self.has_match(name, atom)?;
            if matched {
                return Ok(true);
            }
        }
        Ok(false)
    }
}
