//! Packages with their relations, and which package matches which atom.
ghost use Rattle.std.specs.Prelude.{◌≡◌, ◌↔◌, IsTrue, List};
ghost use Rattle.std.specs.List.{Any};
ghost use Rattle.rules.specs.Package.{FitsByName, FitsByProvides, FitsProvided, Matches};

use crate::atom::{Atom, Clause};
use crate::provided::Provided;
use debversion::Version;
use std::marker::Model;

/// A package: its name, its version and its relations, over the text of its stanza.
#[derive(Drop)]
pub struct Pkg<'a> {
    name: &'a [u8],
    version: Version<'a>,
    relations: Relations<'a>,
}

impl<'a> Model for Pkg<'a> {
    ghost use Rattle.rules.specs.Package.{Pkg as PkgValue};

    ghost Value = { PkgValue };

    ghost view = { λ p. record { name = p.name.now; version = p.version; relations = p.relations } };
}

/// The relation fields of a package.
#[derive(Drop)]
pub struct Relations<'a> {
    pre_depends: Vec<Clause<'a>>,
    depends: Vec<Clause<'a>>,
    conflicts: Vec<Atom<'a>>,
    breaks: Vec<Atom<'a>>,
    provides: Vec<Provided<'a>>,
}

impl<'a> Model for Relations<'a> {
    ghost use Rattle.rules.specs.Package.{Relations as RelationsValue};

    ghost Value = { RelationsValue };

    ghost view = { λ r. record {
      pre_depends = r.pre_depends.items;
      depends = r.depends.items;
      conflicts = r.conflicts.items;
      breaks = r.breaks.items;
      provides = r.provides.items;
    } };
}

impl<'a> Relations<'a> {
    // The relations of these fields.
    pub(crate) fn new(
        pre_depends: Vec<Clause<'a>>,
        depends: Vec<Clause<'a>>,
        conflicts: Vec<Atom<'a>>,
        breaks: Vec<Atom<'a>>,
        provides: Vec<Provided<'a>>,
    ) -> Relations<'a>
        ensures { result ≡ record {
          pre_depends = pre_depends.entry.items;
          depends = depends.entry.items;
          conflicts = conflicts.entry.items;
          breaks = breaks.entry.items;
          provides = provides.entry.items;
        } }
    {
        Relations {
            pre_depends,
            depends,
            conflicts,
            breaks,
            provides,
        }
    }
}

impl<'a> Pkg<'a> {
    // The package of this name, version and relations.
    pub(crate) fn new(name: &'a [u8], version: Version<'a>, relations: Relations<'a>) -> Pkg<'a>
        ensures { result
            ≡ record { name = name.now; version = version.entry; relations = relations.entry } }
    {
        Pkg {
            name,
            version,
            relations,
        }
    }

    /// The name.
    pub fn name(&self) -> &'a [u8]
        ensures { result.now ≡ self.now.name }
    {
        self.name
    }

    /// The version.
    pub fn version(&self) -> &Version<'a>
        ensures { result.now ≡ self.now.version }
    {
        &self.version
    }

    /// The clauses of Pre-Depends.
    pub fn pre_depends(&self) -> &[Clause<'a>]
        ensures { result.now ≡ self.now.relations.pre_depends }
    {
        self.relations.pre_depends.as_slice()
    }

    /// The clauses of Depends.
    pub fn depends(&self) -> &[Clause<'a>]
        ensures { result.now ≡ self.now.relations.depends }
    {
        self.relations.depends.as_slice()
    }

    /// The atoms of Conflicts.
    pub fn conflicts(&self) -> &[Atom<'a>]
        ensures { result.now ≡ self.now.relations.conflicts }
    {
        self.relations.conflicts.as_slice()
    }

    /// The atoms of Breaks.
    pub fn breaks(&self) -> &[Atom<'a>]
        ensures { result.now ≡ self.now.relations.breaks }
    {
        self.relations.breaks.as_slice()
    }

    /// The items of Provides.
    pub fn provides(&self) -> &[Provided<'a>]
        ensures { result.now ≡ self.now.relations.provides }
    {
        self.relations.provides.as_slice()
    }
}
