// Which pairs of a universe are reached.

ghost use Rattle.std.specs.Prelude.{◌≡◌, IfOk, OnOk, ℕ, length, true};
ghost use Rattle.std.specs.List.{slice_get};
ghost use Rattle.std.specs.Option.{option_copied};
ghost use Rattle.universe_parts.specs.Parts.{packages_of};
ghost use Rattle.reach.specs.Marks.{Extends, IsOrdered, has};
ghost use Rattle.reach.specs.Reached.{HasNeeds, HasReached};

use crate::marks::Marks;
use providers::Providers;
use std::alloc::{AllocError, Global};
use universe::{CountingPkg, Pair, Universe};

// The pair at a place.
fn pair_at<'u, 'p, 'a>(universe: &'u Universe<'p, 'a>, place: usize) -> Option<&'u Pair<'p, 'a>>
    ensures { option_copied result ≡ slice_get universe.now.pairs place }
{
    universe.pairs().get(place)
}

impl Marks {
    // Marks what the pair at a place needs.
    fn expand(
        &mut self,
        alloc: Global,
        universe: &Universe<'_, '_>,
        providers: &Providers<'_>,
        place: usize,
    ) -> Result<(), AllocError>
        requires offered { providers.now ≡ packages_of universe.now.pairs }
        requires long { length self.old.marks ≡ length universe.now.pairs }
        ensures extends { OnOk result (Extends self.old self.new) }
        ensures needed { OnOk result (HasNeeds providers.now self.new.marks place) }
    {
        match pair_at(universe, place) {
            None => Ok(()),
            Some(pair) => {
                let pkg = CountingPkg::of_pair(alloc, pair)?;
                self.mark_needed(alloc, providers, pkg.pkg())?;
                Ok(())
            }
        }
    }

    // Marks all that is needed by what was reached, in turn.
    fn close(
        &mut self,
        alloc: Global,
        universe: &Universe<'_, '_>,
        providers: &Providers<'_>,
    ) -> Result<(), AllocError>
        requires offered { providers.now ≡ packages_of universe.now.pairs }
        requires long { length self.old.marks ≡ length universe.now.pairs }
        requires ordered { IsOrdered self.old }
        ensures extends { OnOk result (Extends self.old self.new) }
        ensures needed { OnOk result
            ((place : ℕ) → has self.new.marks place ≡ true
            → HasNeeds providers.now self.new.marks place) }
    {
        for turn in 0..usize::MAX {
            let Some(place) = self.at(turn) else {
                return Ok(());
            };
            self.expand(alloc, universe, providers, place)?;
        }
        Ok(())
    }
}

/// The places of the pairs that are wanted, and with a pair of those that it needs. Memory alone can fail. What is wanted is
/// found by its names, and each reached package is read once.
pub(crate) fn reached_in(alloc: Global, universe: &Universe<'_, '_>) -> Result<Marks, AllocError>
    ensures long { IfOk result (λ reached. length reached.marks ≡ length universe.now.pairs) }
    ensures reached { IfOk result (λ reached. HasReached universe.now reached.marks) }
{
    let providers = universe.providers();
    let mut marks = Marks::of_none(alloc, universe.pairs().len())?;
    marks.mark_wanted(alloc, universe, providers)?;
    marks.close(alloc, universe, providers)?;
    Ok(marks)
}
