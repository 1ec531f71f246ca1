// What clauses are made from: a part of a universe with its packages, who has or provides a name, and who is preferred.

ghost use Rattle.std.specs.Prelude.{◌≡◌, ◌↔◌, ◌⊎◌, ◌+◌, ℕ, IfOk, OnOk, length, map};
ghost use Rattle.std.specs.List.{Any, Contains, slice_get};
ghost use Rattle.std.specs.Option.{option_copied};
ghost use Rattle.index.specs.Providers.{IsProviderAt};
ghost use Rattle.universe_parts.specs.Parts.{packages_of};
ghost use Rattle.encode.specs.Numbers.{AreNumbersOf, IsAsked, IsNumberAt};

use crate::preferences::Preferences;
use crate::query::{Query, has_name};
use providers::Providers;
use reach::Part;
use relation::Pkg;
use std::alloc::{AllocError, Global};
use std::marker::Model;

/// A part of a universe, with its packages, who has or provides a name, and who is preferred.
#[derive(Drop)]
pub(crate) struct Facts<'u, 'w, 'p, 'a> {
    alloc: Global,
    part: &'u Part<'w, 'p, 'a>,
    packages: &'u [&'u Pkg<'a>],
    providers: Providers<'a>,
    preferences: Preferences,
}

impl<'u, 'w, 'p, 'a> Model for Facts<'u, 'w, 'p, 'a> {
    ghost use Rattle.std.specs.Prelude.{◌≡◌, map};
    ghost use Rattle.rules.specs.Universe.{Universe as UniverseValue};
    ghost use Rattle.universe_parts.specs.Parts.{packages_of};

    ghost Value = { UniverseValue };

    ghost view = { λ f. f.part.now };

    ghost invariant = { λ f. (map (λ pkg. pkg.now) f.packages.now ≡ packages_of f.part.now.pairs)
        × (f.providers ≡ packages_of f.part.now.pairs) };
}

/// The number of what is at a place; an error where it is above 4,294,967,295.
pub(crate) fn number_at(place: usize) -> Result<u32, AllocError>
    ensures { IfOk result (λ number. number ≡ place + 1) }
{
    match u32::try_from(place.saturating_add(1)) {
        Ok(number) => Ok(number),
        Err(_) => Err(AllocError),
    }
}

// The package that is lent at this place.
fn lent_at<'u, 'a>(packages: &'u [&'u Pkg<'a>], place: usize) -> Option<&'u Pkg<'a>>
    ensures { option_copied result ≡ slice_get (map (λ pkg. pkg.now) packages.now) place }
{
    match packages.get(place) {
        None => None,
        Some(pkg) => Some(*pkg),
    }
}

impl<'u, 'w, 'p, 'a> Facts<'u, 'w, 'p, 'a> {
    /// The facts of the part, whose packages these are. Memory alone can fail. Costs what `Providers::of_packages` and
    /// `Preferences::of_packages` say.
    pub(crate) fn new(
        alloc: Global,
        part: &'u Part<'w, 'p, 'a>,
        packages: &'u [&'u Pkg<'a>],
    ) -> Result<Facts<'u, 'w, 'p, 'a>, AllocError>
        requires { map (λ pkg. pkg.now) packages.now ≡ packages_of part.now.pairs }
        ensures { IfOk result (λ facts. facts ≡ part.now) }
    {
        let providers = Providers::of_packages(alloc, packages)?;
        let preferences = Preferences::of_packages(alloc, part, &providers, packages)?;
        Ok(Facts {
            alloc,
            part,
            packages,
            providers,
            preferences,
        })
    }

    /// The allocator that memory is taken from.
    pub(crate) fn alloc(&self) -> Global {
        self.alloc
    }

    /// The part of a universe.
    pub(crate) fn part(&self) -> &'u Part<'w, 'p, 'a>
        ensures { result.now ≡ self.now }
    {
        self.part
    }

    /// Who has or provides a name, and who matches an atom.
    pub(crate) fn providers(&self) -> &Providers<'a>
        ensures { result.now ≡ packages_of self.now.pairs }
    {
        &self.providers
    }

    /// How many pairs there are.
    pub(crate) fn count(&self) -> usize
        ensures { result ≡ length self.now.pairs }
    {
        self.part.pairs().len()
    }

    /// The package of the pair at this place.
    pub(crate) fn pkg_in(&self, place: usize) -> Option<&'u Pkg<'a>>
        ensures { option_copied result ≡ slice_get (packages_of self.now.pairs) place }
    {
        lent_at(self.packages, place)
    }

    // How the package at a place is preferred where the name is asked for.
    fn order_at(&self, place: usize, name: &[u8]) -> (usize, usize) {
        let has_name = self.pkg_in(place).is_some_and(|pkg| has_name(pkg, name));
        self.preferences.order(place, has_name)
    }

    /// The same places, those first whose packages are preferred where the name is asked for. Memory alone can fail. About
    /// n log n comparisons.
    pub(crate) fn by_preference(
        &self,
        places: Vec<usize>,
        name: &[u8],
    ) -> Result<Vec<usize>, AllocError>
        ensures { IfOk result
            (λ by_preference. (place : ℕ) → Contains by_preference.items place
            ↔ Contains places.items place) }
    {
        let mut by_preference = places;
        by_preference.sort_by_key(|place| self.order_at(*place, name))?;
        Ok(by_preference)
    }

    // Puts the number of the pair at this place behind the others, if its package is asked for.
    fn push_place(
        &self,
        numbers: &mut Vec<u32>,
        place: usize,
        query: Query<'_, '_>,
    ) -> Result<(), AllocError>
        ensures { OnOk result ((number : ℕ) → Contains numbers.new.items number
            ↔ (Contains numbers.old.items number
            ⊎ IsNumberAt self.now (IsAsked query.entry) place number)) }
    {
        match self.pkg_in(place) {
            None => Ok(()),
            Some(pkg) => {
                if !query.asks_for(pkg) {
                    return Ok(());
                }
                let number = number_at(place)?;
                numbers.push(number)?;
                Ok(())
            }
        }
    }

    // The numbers of the pairs at these places whose packages are asked for.
    fn asked_at(&self, places: &[usize], query: Query<'_, '_>) -> Result<Vec<u32>, AllocError>
        ensures { IfOk result (λ numbers. (number : ℕ) → Contains numbers.items number
            ↔ Any (λ place. IsNumberAt self.now (IsAsked query.entry) place number) places.now) }
    {
        let mut numbers = Vec::new(self.alloc);
        for place in places {
            self.push_place(&mut numbers, *place, query)?;
        }
        Ok(numbers)
    }

    // The places of the packages that have or provide the name, those first that are preferred.
    fn places_of(&self, name: &[u8]) -> Result<Vec<usize>, AllocError>
        ensures { IfOk result
            (λ places. (place : ℕ) → Contains places.items place
            ↔ IsProviderAt name.now (packages_of self.now.pairs) place) }
    {
        let places = self.providers().of(self.alloc, name)?;
        let preferred = self.by_preference(places, name)?;
        Ok(preferred)
    }

    /// The numbers of the pairs whose packages are asked for, each once, those first that are preferred. Memory alone can
    /// fail. About n log n comparisons of the n packages that have or provide the name.
    pub(crate) fn numbers_of(&self, query: Query<'_, '_>) -> Result<Vec<u32>, AllocError>
        ensures { IfOk result
            (λ numbers. AreNumbersOf self.now (IsAsked query.entry) numbers.items) }
    {
        let places = self.places_of(query.name())?;
        let numbers = self.asked_at(places.as_slice(), query)?;
        Ok(numbers)
    }
}
