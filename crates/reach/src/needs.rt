// Reaching what a package needs (Policy 7.2).

ghost use Rattle.std.specs.Prelude.{◌≡◌, OnOk, length};
ghost use Rattle.std.specs.List.{Any};
ghost use Rattle.rules.specs.Minimal.{Needs};
ghost use Rattle.rules.specs.Package.{Matches, MatchesSome};
ghost use Rattle.reach.specs.Marks.{Extends};
ghost use Rattle.reach.specs.Reached.{HasAll};

use crate::marks::Marks;
use providers::{Providers, Ticks};
use relation::{Atom, Clause, Pkg};
use std::alloc::{AllocError, Global};

impl Marks {
    // Marks the packages that match an atom.
    fn mark_matching(
        &mut self,
        alloc: Global,
        providers: &Providers<'_>,
        atom: &Atom<'_>,
    ) -> Result<(), AllocError>
        requires { length self.old.marks ≡ length providers.now }
        ensures extends { OnOk result (Extends self.old self.new) }
        ensures marked { OnOk result
            (HasAll providers.now self.new.marks (λ pkg. Matches pkg atom.now)) }
    {
        let mut ticks = Ticks::new();
        let places = providers.matching(alloc, atom, &mut ticks)?;
        self.mark_all(places.as_slice())?;
        Ok(())
    }

    // Marks the packages that match an atom of a clause.
    fn mark_clause(
        &mut self,
        alloc: Global,
        providers: &Providers<'_>,
        clause: &Clause<'_>,
    ) -> Result<(), AllocError>
        requires { length self.old.marks ≡ length providers.now }
        ensures extends { OnOk result (Extends self.old self.new) }
        ensures marked { OnOk result
            (HasAll providers.now self.new.marks (λ pkg. MatchesSome pkg clause.now)) }
    {
        for atom in clause.as_slice() {
            self.mark_matching(alloc, providers, atom)?;
        }
        Ok(())
    }

    // Marks the packages that match an atom of some clause.
    fn mark_clauses(
        &mut self,
        alloc: Global,
        providers: &Providers<'_>,
        clauses: &[Clause<'_>],
    ) -> Result<(), AllocError>
        requires { length self.old.marks ≡ length providers.now }
        ensures extends { OnOk result (Extends self.old self.new) }
        ensures marked { OnOk result
            (HasAll providers.now self.new.marks (λ pkg. Any (MatchesSome pkg) clauses.now)) }
    {
        for clause in clauses {
            self.mark_clause(alloc, providers, clause)?;
        }
        Ok(())
    }

    /// Marks the packages that a package needs. Memory alone can fail.
    pub(crate) fn mark_needed(
        &mut self,
        alloc: Global,
        providers: &Providers<'_>,
        pkg: &Pkg<'_>,
    ) -> Result<(), AllocError>
        requires { length self.old.marks ≡ length providers.now }
        ensures extends { OnOk result (Extends self.old self.new) }
        ensures marked { OnOk result (HasAll providers.now self.new.marks (Needs pkg.now)) }
    {
        self.mark_clauses(alloc, providers, pkg.pre_depends())?;
        self.mark_clauses(alloc, providers, pkg.depends())?;
        Ok(())
    }
}
