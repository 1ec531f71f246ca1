// The premises of a universe: what their clauses are found in. No package is read but those that a premise asks for.

ghost use Rattle.std.specs.Prelude.{◌≡◌, ◌↔◌, ◌⊎◌, ◌+◌, ◌++◌, ◌^◌, ◌<◌, ℕ, IfOk, IsTrue, OnOk, length, map};
ghost use Rattle.std.specs.List.{All, Any, Contains, list_any, slice_get};
ghost use Rattle.std.specs.Option.{option_copied, option_map};
ghost use Rattle.rules.specs.Package.{Matches};
ghost use Rattle.rules.specs.Universe.{candidate_of, start_in};
ghost use Rattle.refutation.specs.Clause.{IsListOf, item_at};
ghost use Rattle.refutation.specs.Premise.{PairHas, PairsAre, Selects};
ghost use Rattle.refutation.specs.declared.literal.Literal.{Literal};
ghost use Rattle.universe_parts.specs.Parts.{HaveDistinctNames, packages_of};
ghost use Rattle.refutecheck.specs.Sought.{IsSelectedAt, IsSought, is_no_remove};

use crate::sought::{Sought, is_sought, name_of};
use debversion::Version;
use providers::Ticks;
use refutation::Literal;
use relation::Atom;
use rules::{Goal, Items};
use std::alloc::{AllocError, Global};
use std::marker::Model;
use universe::{CountingPkg, Pair, Start, Universe};

/// The premises of a universe: its parts, with who has or provides a name and who matches an atom.
#[derive(Drop)]
pub struct Premises<'u, 'p, 'a> {
    alloc: Global,
    universe: &'u Universe<'p, 'a>,
    keeps: bool,
}

impl<'u, 'p, 'a> Model for Premises<'u, 'p, 'a> {
    ghost use Rattle.std.specs.Prelude.{◌≡◌, ◌^◌, ◌<◌, length};
    ghost use Rattle.std.specs.List.{list_any};
    ghost use Rattle.rules.specs.Universe.{Universe as UniverseValue};
    ghost use Rattle.universe_parts.specs.Parts.{HaveDistinctNames};
    ghost use Rattle.refutecheck.specs.Sought.{is_no_remove};

    ghost Value = { UniverseValue };

    ghost view = { λ p. p.universe.now };

    ghost invariant = { λ p. (p.keeps ≡ list_any is_no_remove p.universe.now.goals)
        × (length p.universe.now.pairs < 2 ^ 32)
        × HaveDistinctNames p.universe.now.starts };
}

// Whether the goal is that nothing is removed.
fn is_no_remove(goal: &Goal) -> bool
    ensures { result ≡ is_no_remove goal.now }
{
    matches!(goal, Goal::NoRemove)
}

// Whether a goal is that nothing is removed.
fn has_no_remove(goals: &[Goal]) -> bool
    ensures { result ≡ list_any is_no_remove goals.now }
{
    goals.iter().any(|goal| is_no_remove(goal))
}

impl<'u, 'p, 'a> Premises<'u, 'p, 'a> {
    /// The premises of the universe, whose providers they are found by. Linear in its goals.
    pub fn new(alloc: Global, universe: &'u Universe<'p, 'a>) -> Premises<'u, 'p, 'a>
        requires few { length universe.now.pairs < 2 ^ 32 }
        requires distinct { HaveDistinctNames universe.now.starts }
        ensures { result ≡ universe.now }
    {
        Premises {
            alloc,
            universe,
            keeps: has_no_remove(universe.goals()),
        }
    }

    /// The allocator that memory is taken from.
    pub fn alloc(&self) -> Global {
        self.alloc
    }

    /// The universe.
    pub fn universe(&self) -> &'u Universe<'p, 'a>
        ensures { result.now ≡ self.now }
    {
        self.universe
    }

    // The pair at this place, counted from 0. Its package isn't read.
    fn pair_in(&self, place: usize) -> Option<&'u Pair<'p, 'a>>
        ensures { option_map (λ pair. pair.now.pkg) result
            ≡ slice_get (packages_of self.now.pairs) place }
    {
        self.universe.pairs().get(place)
    }

    /// The pair of this number. Its package isn't read.
    pub fn pair_at(&self, number: u32) -> Option<&'u Pair<'p, 'a>>
        ensures { option_map (λ pair. pair.now.pkg) result
            ≡ item_at (packages_of self.now.pairs) number }
    {
        let place = number.checked_sub(1)?;
        self.pair_in(place as usize)
    }

    /// The package of the pair of this number, which is read if it doesn't stand. Memory alone can fail. Linear in it.
    pub fn read_at(&self, number: u32) -> Result<Option<CountingPkg<'u, 'a>>, AllocError>
        ensures { IfOk result (λ pkg. pkg ≡ item_at (packages_of self.now.pairs) number) }
    {
        match self.pair_at(number) {
            None => Ok(None),
            Some(pair) => {
                let pkg = CountingPkg::of_pair(self.alloc, pair)?;
                Ok(Some(pkg))
            }
        }
    }

    // The number of the pair at this place, at which there is one.
    fn number_at(&self, place: usize) -> u32
        requires { place < length self.now.pairs }
        ensures { result ≡ place + 1 }
    {
        let _few = self.keeps;
        (place + 1) as u32
    }

    // Puts the pair at this place behind the literals, if its package is sought.
    fn push_place(
        &self,
        literals: &mut Vec<Literal>,
        place: usize,
        sought: Sought<'_, '_>,
    ) -> Result<(), AllocError>
        ensures { OnOk result
            ((literal : Literal) → Contains literals.new.items literal
            ↔ (Contains literals.old.items literal
            ⊎ IsSelectedAt (packages_of self.now.pairs) (IsSought sought.entry) place literal)) }
    {
        match self.pair_in(place) {
            None => Ok(()),
            Some(pair) => {
                if !is_sought(pair, sought) {
                    return Ok(());
                }
                literals.push(Literal::Selected(self.number_at(place)))?;
                Ok(())
            }
        }
    }

    // Puts the pairs at these places behind the literals whose packages are sought.
    fn push_places(
        &self,
        literals: &mut Vec<Literal>,
        places: &[usize],
        sought: Sought<'_, '_>,
    ) -> Result<(), AllocError>
        ensures { OnOk result
            ((literal : Literal) → Contains literals.new.items literal
            ↔ (Contains literals.old.items literal
            ⊎ Any (λ place.
            IsSelectedAt (packages_of self.now.pairs)
            (IsSought sought.entry) place literal) places.now)) }
    {
        for place in places {
            self.push_place(literals, *place, sought)?;
        }
        Ok(())
    }

    /// The pairs whose packages are sought, selected. Memory alone can fail. Linear in the packages that have or provide
    /// the name.
    pub fn all_sought(&self, sought: Sought<'_, '_>) -> Result<Items<Literal>, AllocError>
        ensures { IfOk result (IsListOf (Selects self.now (IsSought sought.entry))) }
    {
        let mut literals = Vec::new(self.alloc);
        let places = self.universe.providers().of(self.alloc, name_of(sought))?;
        self.push_places(&mut literals, places.as_slice(), sought)?;
        Ok(Items::new(literals))
    }

    // Puts the pairs at these places behind the literals.
    fn push_all(&self, literals: &mut Vec<Literal>, places: &[usize]) -> Result<(), AllocError>
        requires { All (λ place. place < length self.now.pairs) places.now }
        ensures { OnOk result (literals.new.items
            ≡ literals.old.items ++ map (λ place. Literal.Selected (place + 1)) places.now) }
    {
        for place in places {
            literals.push(Literal::Selected(self.number_at(*place)))?;
        }
        Ok(())
    }

    /// Puts the pairs whose packages match the atom behind the literals. Memory alone can fail. Two binary searches among
    /// the versions of the name, and m log m in the m that match.
    pub fn push_matching(
        &self,
        literals: &mut Vec<Literal>,
        atom: &Atom<'_>,
    ) -> Result<(), AllocError>
        ensures { OnOk result
            ((literal : Literal) → Contains literals.new.items literal
            ↔ (Contains literals.old.items literal
            ⊎ Selects self.now (λ pkg. Matches pkg atom.now) literal)) }
    {
        let mut ticks = Ticks::new();
        let places = self
            .universe
            .providers()
            .matching(self.alloc, atom, &mut ticks)?;
        self.push_all(literals, places.as_slice())?;
        Ok(())
    }

    /// The goal of this number.
    pub fn goal_at(&self, number: u32) -> Option<&'u Goal>
        ensures { option_copied result ≡ item_at self.now.goals number }
    {
        let place = number.checked_sub(1)?;
        self.universe.goals().get(place as usize)
    }

    /// What the start says of the name, if it knows it.
    pub fn start(&self, name: &[u8]) -> Option<&'u Start<'a>>
        ensures start { option_copied result ≡ start_in self.now name.now }
        ensures distinct { HaveDistinctNames self.now.starts }
    {
        self.universe.start(name)
    }

    /// The candidate's version, if the name has one.
    pub fn candidate(&self, name: &[u8]) -> Option<&'u Version<'a>>
        ensures { option_copied result ≡ candidate_of self.now name.now }
    {
        self.universe.candidate(name)
    }

    /// Whether a goal is that nothing is removed.
    pub fn keeps(&self) -> bool
        ensures { IsTrue result ↔ Contains self.now.goals Goal.NoRemove }
    {
        self.keeps
    }
}
