// Reaching the pairs for which there is a reason without others: their names were present, or a goal names them.

ghost use Rattle.std.specs.Prelude.{◌≡◌, ◌↔◌, ⊤, IsTrue, MatchOption, OnOk, length, true};
ghost use Rattle.std.specs.List.{Any, slice_get};
ghost use Rattle.std.specs.Option.{option_copied};
ghost use Rattle.rules.specs.Minimal.{AsksFor, IsWanted, WasPresent};
ghost use Rattle.universe_parts.specs.Parts.{packages_of};
ghost use Rattle.reach.specs.Marks.{Extends, has};
ghost use Rattle.reach.specs.Reached.{HasAll, asked_by};

use crate::marks::Marks;
use providers::Providers;
use rules::Goal;
use std::alloc::{AllocError, Global};
use universe::{Pair, Start, Universe};

fn is_same(name: &[u8], other: &[u8]) -> bool
    ensures { IsTrue result ↔ (name.now ≡ other.now) }
{
    name == other
}

// Whether the pair at a place has this name.
fn is_named(pairs: &[Pair<'_, '_>], place: usize, name: &[u8]) -> bool
    ensures { IsTrue result
        ↔ MatchOption (slice_get pairs.now place) ⊥ (λ pair. pair.pkg.name ≡ name.now) }
{
    match pairs.get(place) {
        None => false,
        Some(pair) => is_same(pair.name(), name),
    }
}

// The name that an install or upgrade goal asks for.
fn asked_by(goal: &Goal) -> Option<&[u8]>
    ensures { option_copied result ≡ asked_by goal.now }
{
    match goal {
        Goal::Install(asked, _) => Some(asked.as_bytes()),
        Goal::Upgrade(asked) => Some(asked.as_bytes()),
        Goal::Remove(_) => None,
        Goal::Purge(_) => None,
        Goal::UpgradeAll => None,
        Goal::NoRemove => None,
    }
}

impl Marks {
    // Marks a place, if the pair there has this name.
    fn mark_if_named(
        &mut self,
        pairs: &[Pair<'_, '_>],
        place: usize,
        name: &[u8],
    ) -> Result<(), AllocError>
        requires { length self.old.marks ≡ length pairs.now }
        ensures extends { OnOk result (Extends self.old self.new) }
        ensures marked { OnOk result
            (MatchOption (slice_get pairs.now place) ⊤
            (λ pair. pair.pkg.name ≡ name.now → has self.new.marks place ≡ true)) }
    {
        if !is_named(pairs, place, name) {
            return Ok(());
        }
        self.mark(place)?;
        Ok(())
    }

    // Marks the pairs of this name.
    fn mark_name(
        &mut self,
        alloc: Global,
        universe: &Universe<'_, '_>,
        providers: &Providers<'_>,
        name: &[u8],
    ) -> Result<(), AllocError>
        requires offered { providers.now ≡ packages_of universe.now.pairs }
        requires long { length self.old.marks ≡ length universe.now.pairs }
        ensures extends { OnOk result (Extends self.old self.new) }
        ensures marked { OnOk result
            (HasAll providers.now self.new.marks (λ pkg. pkg.name ≡ name.now)) }
    {
        let pairs = universe.pairs();
        let places = providers.of(alloc, name)?;
        for place in places.as_slice() {
            self.mark_if_named(pairs, *place, name)?;
        }
        Ok(())
    }

    // Marks the pairs of a name that was present.
    fn mark_start(
        &mut self,
        alloc: Global,
        universe: &Universe<'_, '_>,
        providers: &Providers<'_>,
        start: &Start<'_>,
    ) -> Result<(), AllocError>
        requires offered { providers.now ≡ packages_of universe.now.pairs }
        requires long { length self.old.marks ≡ length universe.now.pairs }
        ensures extends { OnOk result (Extends self.old self.new) }
        ensures marked { OnOk result
            (HasAll providers.now self.new.marks
            (λ pkg. (start.now.name ≡ pkg.name) × IsTrue start.now.is_present)) }
    {
        if !start.is_present() {
            return Ok(());
        }
        self.mark_name(alloc, universe, providers, start.name())?;
        Ok(())
    }

    // Marks the pairs of the name that a goal asks for, if it asks for one.
    fn mark_goal(
        &mut self,
        alloc: Global,
        universe: &Universe<'_, '_>,
        providers: &Providers<'_>,
        goal: &Goal,
    ) -> Result<(), AllocError>
        requires offered { providers.now ≡ packages_of universe.now.pairs }
        requires long { length self.old.marks ≡ length universe.now.pairs }
        ensures extends { OnOk result (Extends self.old self.new) }
        ensures marked { OnOk result
            (HasAll providers.now self.new.marks (λ pkg. AsksFor pkg.name goal.now)) }
    {
        match asked_by(goal) {
            None => Ok(()),
            Some(name) => {
                self.mark_name(alloc, universe, providers, name)?;
                Ok(())
            }
        }
    }

    // Marks the pairs of names that were present.
    fn mark_starts(
        &mut self,
        alloc: Global,
        universe: &Universe<'_, '_>,
        providers: &Providers<'_>,
    ) -> Result<(), AllocError>
        requires offered { providers.now ≡ packages_of universe.now.pairs }
        requires long { length self.old.marks ≡ length universe.now.pairs }
        ensures extends { OnOk result (Extends self.old self.new) }
        ensures marked { OnOk result
            (HasAll providers.now self.new.marks (λ pkg. WasPresent universe.now pkg.name)) }
    {
        for start in universe.starts() {
            self.mark_start(alloc, universe, providers, start)?;
        }
        Ok(())
    }

    // Marks the pairs of names that goals ask for.
    fn mark_goals(
        &mut self,
        alloc: Global,
        universe: &Universe<'_, '_>,
        providers: &Providers<'_>,
    ) -> Result<(), AllocError>
        requires offered { providers.now ≡ packages_of universe.now.pairs }
        requires long { length self.old.marks ≡ length universe.now.pairs }
        ensures extends { OnOk result (Extends self.old self.new) }
        ensures marked { OnOk result
            (HasAll providers.now self.new.marks
            (λ pkg. Any (AsksFor pkg.name) universe.now.goals)) }
    {
        for goal in universe.goals() {
            self.mark_goal(alloc, universe, providers, goal)?;
        }
        Ok(())
    }

    /// Marks the pairs that are wanted. Memory alone can fail.
    pub(crate) fn mark_wanted(
        &mut self,
        alloc: Global,
        universe: &Universe<'_, '_>,
        providers: &Providers<'_>,
    ) -> Result<(), AllocError>
        requires offered { providers.now ≡ packages_of universe.now.pairs }
        requires long { length self.old.marks ≡ length universe.now.pairs }
        ensures extends { OnOk result (Extends self.old self.new) }
        ensures marked { OnOk result (HasAll providers.now self.new.marks (IsWanted universe.now)) }
    {
        self.mark_starts(alloc, universe, providers)?;
        self.mark_goals(alloc, universe, providers)?;
        Ok(())
    }
}
