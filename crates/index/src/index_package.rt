// A package of an index.

ghost use Rattle.std.specs.Prelude.{◌≡◌};

use relation::Pkg;
use rules::IndexPlace;
use std::marker::Model;

/// A package of an index: the package, whether it is marked essential, whether it is so by the field Essential itself, and the
/// place of its stanza in the indices.
#[derive(Drop)]
pub struct IndexPackage<'a> {
    pkg: Pkg<'a>,
    is_essential: bool,
    says_essential: bool,
    place: IndexPlace,
}

impl<'a> Model for IndexPackage<'a> {
    ghost use Rattle.rules.specs.Step.{IndexPackage as IndexPackageValue};

    ghost Value = { IndexPackageValue };

    ghost view = { λ p. record {
      pkg = p.pkg;
      is_essential = p.is_essential;
      says_essential = p.says_essential;
      place = p.place;
    } };
}

impl<'a> IndexPackage<'a> {
    /// The package, with these two marks, of the stanza at the place.
    pub fn new(
        pkg: Pkg<'a>,
        is_essential: bool,
        says_essential: bool,
        place: IndexPlace,
    ) -> IndexPackage<'a>
        ensures { result ≡ record {
          pkg = pkg.entry;
          is_essential = is_essential;
          says_essential = says_essential;
          place = place;
        } }
    {
        IndexPackage {
            pkg,
            is_essential,
            says_essential,
            place,
        }
    }

    /// The package.
    pub fn pkg(&self) -> &Pkg<'a>
        ensures { result.now ≡ self.now.pkg }
    {
        &self.pkg
    }

    /// Whether the stanza marks the package essential.
    pub fn is_essential(&self) -> bool
        ensures { result ≡ self.now.is_essential }
    {
        self.is_essential
    }

    /// Whether a field `Essential: yes` stands in the stanza, so that every package may take this one for granted (Policy 3.8).
    pub fn says_essential(&self) -> bool
        ensures { result ≡ self.now.says_essential }
    {
        self.says_essential
    }

    /// The place of its stanza in the indices.
    pub fn place(&self) -> IndexPlace
        ensures { result ≡ self.now.place }
    {
        self.place
    }
}
