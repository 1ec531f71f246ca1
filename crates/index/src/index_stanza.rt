// A stanza of an index that counts, with the fields from which an unpacking writes.

ghost use Rattle.std.specs.Prelude.{◌≡◌, IfOk, MatchResult, None, Ok, Some};
ghost use Rattle.index.specs.Index.{indexed_at};
ghost use Rattle.relation.specs.PkgFields.{fields_of};
ghost use Rattle.relation.specs.PkgText.{pkg_fault, pkg_of, read_pkg};
ghost use Rattle.relation.specs.PkgValues.{spelled};
ghost use Rattle.relation.specs.PackageStanza.{is_essential as marked_essential, read_stanza, says_essential as said_essential};

use relation::{Pkg, PkgFault, PkgFields, PkgValues, Version};
use rules::IndexPlace;
use stanza::Stanza;
use std::alloc::{AllocError, Global};
use std::marker::Model;

/// A stanza of an index that counts: its package, whether it is marked essential, its place in the indices, and the stanza
/// itself. Its relation fields have been tested.
#[derive(Drop)]
pub struct IndexStanza<'a> {
    values: PkgValues<'a>,
    arch: &'a [u8],
    is_essential: bool,
    says_essential: bool,
    place: IndexPlace,
    stanza: Stanza<'a>,
}

impl<'a> Model for IndexStanza<'a> {
    ghost use Rattle.std.specs.Prelude.{◌≡◌, None};
    ghost use Rattle.relation.specs.PkgFields.{fields_of};
    ghost use Rattle.relation.specs.PkgText.{pkg_fault, pkg_of};
    ghost use Rattle.rules.specs.FileRecord.{IndexStanza as IndexStanzaValue};
    ghost use Rattle.relation.specs.PackageStanza.{read_stanza};
    ghost use Rattle.relation.specs.PkgValues.{spelled};

    ghost Value = { IndexStanzaValue };

    ghost view = { λ s. record {
      listed = record {
        pkg = spelled s.arch.now s.values;
        is_essential = s.is_essential;
        says_essential = s.says_essential;
        place = s.place;
      };
      fields = (read_stanza s.stanza).fields;
    } };

    ghost invariant = { λ s. (pkg_fault (fields_of s.stanza) ≡ None) × (spelled s.arch.now s.values ≡ pkg_of s.arch.now (fields_of s.stanza)) };
}

impl<'a> IndexStanza<'a> {
    // The stanza at the place, with the package that its fields, which are these, spell for this configured architecture,
    // or their first refusal.
    pub(crate) fn read(
        fields: &PkgFields<'a>,
        arch: &'a [u8],
        is_essential: bool,
        says_essential: bool,
        place: IndexPlace,
        stanza: Stanza<'a>,
    ) -> Result<IndexStanza<'a>, PkgFault>
        requires fields { fields.now ≡ fields_of stanza }
        requires essential { is_essential ≡ marked_essential stanza.fields }
        requires said { says_essential ≡ said_essential stanza.fields }
        ensures { MatchResult result
            (λ indexed. (pkg_fault fields.now ≡ None)
            × (indexed ≡ indexed_at place stanza.entry (pkg_of arch.now fields.now)))
            (λ fault. pkg_fault fields.now ≡ Some fault) }
    {
        let values = fields.values()?;
        Ok(IndexStanza {
            values,
            arch,
            is_essential,
            says_essential,
            place,
            stanza,
        })
    }

    /// The name of the package.
    pub fn name(&self) -> &'a [u8]
        ensures { result.now ≡ self.now.listed.pkg.name }
    {
        self.values.name()
    }

    /// The version of the package.
    pub fn version(&self) -> &Version<'a>
        ensures { result.now ≡ self.now.listed.pkg.version }
    {
        self.values.version()
    }

    /// The stanza, and the configured architecture for which it was read: its package is read from these alone.
    pub fn origin(&self) -> (&Stanza<'a>, &'a [u8])
        ensures fields { (read_stanza result.0.now).fields ≡ self.now.fields }
        ensures pkg { read_pkg result.1.now result.0.now ≡ Ok self.now.listed.pkg }
    {
        (&self.stanza, self.arch)
    }

    /// Whether the stanza marks the package essential.
    pub fn is_essential(&self) -> bool
        ensures { result ≡ self.now.listed.is_essential }
    {
        self.is_essential
    }

    /// Whether a field `Essential: yes` stands in the stanza, so that every package may take this one for granted (Policy 3.8).
    pub fn says_essential(&self) -> bool
        ensures { result ≡ self.now.listed.says_essential }
    {
        self.says_essential
    }

    /// The place of the stanza in the indices.
    pub fn place(&self) -> IndexPlace
        ensures { result ≡ self.now.listed.place }
    {
        self.place
    }

    /// The package, with its relations. Memory alone can fail. Linear in the relation fields.
    pub fn pkg(&self, alloc: Global) -> Result<Pkg<'a>, AllocError>
        ensures { IfOk result (λ pkg. pkg ≡ self.now.listed.pkg) }
    {
        self.values.pkg(alloc, self.arch)
    }
}
