// A package of an index, whose texts are read when they are asked for.

ghost use Rattle.std.specs.Prelude.{◌≡◌, IfOk};
ghost use Rattle.index.specs.Row.{IsRow, package_at};

use crate::index_package::IndexPackage;
use crate::row::{KeptTexts, Row, name_of, provides_of, values_of, version_of};
use relation::{Pkg, Provided, Version};
use rules::IndexPlace;
use std::alloc::{AllocError, Global};
use std::marker::Model;

/// A package of an index: a handle of its row and of the texts that the index keeps. Its relation fields have been tested, and
/// `pkg` reads them each time that it is called, `provides` Provides alone.
#[derive(Drop)]
pub struct IndexEntry<'a> {
    kept: &'a KeptTexts,
    row: &'a Row,
}

impl<'a> Model for IndexEntry<'a> {
    ghost use Rattle.index.specs.Row.{IsRow, package_at};
    ghost use Rattle.rules.specs.Step.{IndexPackage as IndexPackageValue};

    ghost Value = { IndexPackageValue };

    ghost view = { λ e. package_at e.kept.now.arch.items e.kept.now.number e.kept.now.arena.items e.row.now };

    ghost invariant = { λ e. IsRow e.kept.now.arena.items e.row.now };
}

impl<'a> IndexEntry<'a> {
    // The package of the row in these texts.
    pub(crate) fn new(kept: &'a KeptTexts, row: &'a Row) -> IndexEntry<'a>
        requires { IsRow kept.now.arena.items row.now }
        ensures { result
            ≡ package_at kept.now.arch.items kept.now.number kept.now.arena.items row.now }
    {
        IndexEntry { kept, row }
    }

    /// The name of the package.
    pub fn name(&self) -> &'a [u8]
        ensures { result.now ≡ self.now.pkg.name }
    {
        name_of(self.kept.arena.as_slice(), self.row)
    }

    /// The version of the package, parsed. Linear in its text.
    pub fn version(&self) -> Version<'a>
        ensures { result ≡ self.now.pkg.version }
    {
        version_of(self.kept.arena.as_slice(), self.row)
    }

    /// Whether the stanza marks the package essential.
    pub fn is_essential(&self) -> bool
        ensures { result ≡ self.now.is_essential }
    {
        self.row.is_essential
    }

    /// Whether a field `Essential: yes` stands in the stanza, so that every package may take this one for granted (Policy 3.8).
    pub fn says_essential(&self) -> bool
        ensures { result ≡ self.now.says_essential }
    {
        self.row.says_essential
    }

    /// The place of its stanza in the indices.
    pub fn place(&self) -> IndexPlace
        ensures { result ≡ self.now.place }
    {
        IndexPlace {
            index: self.kept.number,
            stanza: self.row.stanza as usize,
        }
    }

    /// What the package provides: the items that its Provides has (Policy 7.5). Memory alone can fail, and none is taken where
    /// the field isn't there. Linear in the field.
    pub fn provides(&self, alloc: Global) -> Result<Vec<Provided<'a>>, AllocError>
        ensures { IfOk result (λ items. items.items ≡ self.now.pkg.relations.provides) }
    {
        provides_of(
            alloc,
            self.kept.arena.as_slice(),
            self.row,
            self.kept.arch.as_slice(),
        )
    }

    /// The package, with its relations. Memory alone can fail. Linear in the relation fields.
    pub fn pkg(&self, alloc: Global) -> Result<Pkg<'a>, AllocError>
        ensures { IfOk result (λ pkg. pkg ≡ self.now.pkg) }
    {
        values_of(self.kept.arena.as_slice(), self.row).pkg(alloc, self.kept.arch.as_slice())
    }

    /// The package as `pkg` reads it, with its marks and its place. Memory alone can fail. Linear in the relation fields.
    pub fn package(&self, alloc: Global) -> Result<IndexPackage<'a>, AllocError>
        ensures { IfOk result (λ indexed. indexed ≡ self.now) }
    {
        let pkg = self.pkg(alloc)?;
        Ok(IndexPackage::new(
            pkg,
            self.is_essential(),
            self.says_essential(),
            self.place(),
        ))
    }
}
