// The pairs whose packages match an atom of a clause, or of a list of what a package is against (Policy 7.1, 7.5).

ghost use Rattle.std.specs.Prelude.{◌≡◌, ◌≢◌, ◌↔◌, ◌⊎◌, ◌+◌, ℕ, IfOk, OnOk};
ghost use Rattle.std.specs.List.{Any, Contains, filter};
ghost use Rattle.rules.specs.Package.{Matches, MatchesSome};
ghost use Rattle.refutation.specs.Premise.{PairHas};
ghost use Rattle.universe_parts.specs.Parts.{packages_of};
ghost use Rattle.providers.specs.Matching.{IsMatchAt};
ghost use Rattle.encode.specs.Numbers.{AreNumbersOf, is_of_other};

use crate::facts::{Facts, number_at};
use indexmap::IndexSet;
use providers::Ticks;
use relation::Atom;
use std::alloc::AllocError;

// Puts the number of what is at a place behind the others, unless it is there.
fn insert_at(numbers: &mut IndexSet<u32>, place: usize) -> Result<(), AllocError>
    ensures { OnOk result
        ((number : ℕ) → Contains numbers.new.keys number
        ↔ (Contains numbers.old.keys number ⊎ (number ≡ place + 1))) }
{
    let number = number_at(place)?;
    numbers.insert(number)?;
    Ok(())
}

// Puts the numbers of what is at these places behind the others, those alone that aren't there.
fn insert_each(numbers: &mut IndexSet<u32>, places: &[usize]) -> Result<(), AllocError>
    ensures { OnOk result ((number : ℕ) → Contains numbers.new.keys number
        ↔ (Contains numbers.old.keys number ⊎ Any (λ place. number ≡ place + 1) places.now)) }
{
    for place in places {
        insert_at(numbers, *place)?;
    }
    Ok(())
}

impl Facts<'_, '_, '_, '_> {
    // The places of the packages that match the atom, those first that are preferred.
    fn places_matching(&self, atom: &Atom<'_>) -> Result<Vec<usize>, AllocError>
        ensures { IfOk result
            (λ places. (place : ℕ) → Contains places.items place
            ↔ IsMatchAt (packages_of self.now.pairs) atom.now place) }
    {
        let mut ticks = Ticks::new();
        let places = self.providers().matching(self.alloc(), atom, &mut ticks)?;
        let preferred = self.by_preference(places, atom.name())?;
        Ok(preferred)
    }

    // Puts the numbers of the pairs whose packages match the atom behind the others, those alone that aren't there.
    fn insert_matching(
        &self,
        numbers: &mut IndexSet<u32>,
        atom: &Atom<'_>,
    ) -> Result<(), AllocError>
        ensures { OnOk result ((number : ℕ) → Contains numbers.new.keys number
            ↔ (Contains numbers.old.keys number
            ⊎ PairHas self.now number (λ pkg. Matches pkg atom.now))) }
    {
        let places = self.places_matching(atom)?;
        insert_each(numbers, places.as_slice())?;
        Ok(())
    }

    /// The numbers of the pairs whose packages match one of the atoms, each once: atom by atom, and of one atom those first
    /// that are preferred. Memory alone can fail. For each atom n log n in the n that match it.
    pub(crate) fn matching(&self, atoms: &[Atom<'_>]) -> Result<IndexSet<u32>, AllocError>
        ensures { IfOk result
            (λ numbers. AreNumbersOf self.now (λ pkg. MatchesSome pkg atoms.now) numbers.keys) }
    {
        let mut numbers = IndexSet::new(self.alloc());
        for atom in atoms {
            self.insert_matching(&mut numbers, atom)?;
        }
        Ok(numbers)
    }

    // Whether the pair of the number has another name.
    fn is_of_other(&self, number: u32, name: &[u8]) -> bool
        ensures { result ≡ is_of_other self.now name.now number }
    {
        match self.part().pair(number) {
            None => false,
            Some(pair) => pair.name() != name,
        }
    }

    // Of the numbers those of pairs of other names.
    fn those_of_others(&self, numbers: &[u32], name: &[u8]) -> Result<Vec<u32>, AllocError>
        ensures { IfOk result
            (λ others. others.items ≡ filter (is_of_other self.now name.now) numbers.now) }
    {
        numbers
            .iter()
            .copied()
            .filter(|number| self.is_of_other(*number, name))
            .collect(self.alloc())
    }

    /// The numbers of the pairs of other names whose packages match one of the atoms. Memory alone can fail. Costs what
    /// `matching` costs.
    pub(crate) fn matching_others(
        &self,
        atoms: &[Atom<'_>],
        name: &[u8],
    ) -> Result<Vec<u32>, AllocError>
        ensures { IfOk result (λ numbers. AreNumbersOf self.now
            (λ pkg. (pkg.name ≢ name.now) × MatchesSome pkg atoms.now) numbers.items) }
    {
        let numbers = self.matching(atoms)?;
        let others = self.those_of_others(numbers.as_slice(), name)?;
        Ok(others)
    }
}
