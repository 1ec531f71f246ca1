//! Which package matches which atom (Policy 7.1, 7.5). Nothing here takes memory.
ghost use Rattle.std.specs.Prelude.{◌≡◌, ◌↔◌, ℕ, IsTrue, List};
ghost use Rattle.std.specs.List.{Any};
ghost use Rattle.std.specs.Option.{option_copied, option_map};
ghost use Rattle.relation.specs.Value.{restriction_by_ref};
ghost use Rattle.rules.specs.Package.{FitsByName, FitsByProvides, FitsProvided, Matches, Meets, MeetsAsProvided};

use crate::atom::Atom;
use crate::pkg::Pkg;
use crate::provided::Provided;
use debversion::{Op, Version};

fn is_same(text: &[u8], other: &[u8]) -> bool
    ensures { IsTrue result ↔ (text.now ≡ other.now) }
{
    text == other
}

fn meets(version: &Version<'_>, restriction: Option<(Op, &Version<'_>)>) -> bool
    ensures { IsTrue result ↔ Meets version.now (option_map restriction_by_ref restriction.entry) }
{
    match restriction {
        None => true,
        Some((op, other)) => version.satisfies(op, other),
    }
}

// What is provided without a version meets no restriction.
fn meets_as_provided(version: Option<&Version<'_>>, restriction: Option<(Op, &Version<'_>)>) -> bool
    ensures { IsTrue result
        ↔ MeetsAsProvided (option_copied version.entry)
        (option_map restriction_by_ref restriction.entry) }
{
    match (version, restriction) {
        (_, None) => true,
        (None, Some(_)) => false,
        (Some(version), Some((op, other))) => version.satisfies(op, other),
    }
}

impl<'a> Atom<'a> {
    #[tactic(auto, unfolding(rules::specs::Package::FitsByName))]
    fn fits_name(&self, pkg: &Pkg<'_>) -> bool
        ensures { IsTrue result ↔ FitsByName pkg.now self.now }
    {
        is_same(pkg.name(), self.name()) && meets(pkg.version(), self.restriction())
    }

    #[tactic(auto, unfolding(rules::specs::Package::FitsProvided))]
    fn fits_item(&self, item: &Provided<'_>) -> bool
        ensures { IsTrue result ↔ FitsProvided item.now self.now }
    {
        !item.is_foreign()
            && is_same(item.name(), self.name())
            && meets_as_provided(item.version(), self.restriction())
    }

    /// Whether the version meets the restriction, if there is one.
    pub fn met_by(&self, version: &Version<'_>) -> bool
        ensures { IsTrue result ↔ Meets version.now self.now.restriction }
    {
        meets(version, self.restriction())
    }

    /// Whether something that the package provides fits the atom, whatever its qualifier. Linear in the
    /// package's Provides items.
    #[tactic(auto, unfolding(rules::specs::Package::FitsByProvides))]
    pub fn provided_by(&self, pkg: &Pkg<'_>) -> bool
        ensures { IsTrue result ↔ FitsByProvides pkg.now self.now }
    {
        pkg.provides().iter().any(|item| self.fits_item(item))
    }

    /// Whether the package matches the atom, by its own name and version or by what it provides. Linear in
    /// the package's Provides items.
    #[tactic(auto, unfolding(rules::specs::Package::Matches))]
    pub fn matched_by(&self, pkg: &Pkg<'_>) -> bool
        ensures { IsTrue result ↔ Matches pkg.now self.now }
    {
        !self.is_foreign() && (self.fits_name(pkg) || self.provided_by(pkg))
    }
}
