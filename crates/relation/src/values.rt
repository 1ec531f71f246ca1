//! The values that a package is read from, of which none is refused.
ghost use Rattle.std.specs.Prelude.{◌≡◌, IfOk, MatchResult, None, Some};
ghost use Rattle.relation.specs.PkgText as Spec;
ghost use Rattle.relation.specs.PkgText.{pkg_fault};
ghost use Rattle.relation.specs.PkgValues.{spelled, values_of};
ghost use Rattle.relation.specs.PkgTexts.{AreTested, values_in};

use crate::error::PkgFault;
use crate::fields::PkgFields;
use crate::parse::{atoms_between, clauses_of, provided_items_of};
use crate::pkg::{Pkg, Relations};
use crate::provided::Provided;
use debversion::Version;
use relation_text::{Acceptor, Separator};
use stanza::Field;
use std::alloc::{AllocError, Global};
use std::marker::Model;

/// The name of a package (Policy 5.6.1) and its version, and the values of its relation fields, which were tested; that of a field that isn't
/// there is empty. The package can be read from these at any time.
#[derive(Drop)]
pub struct PkgValues<'a> {
    name: &'a [u8],
    version: Version<'a>,
    pre_depends: &'a [u8],
    depends: &'a [u8],
    conflicts: &'a [u8],
    breaks: &'a [u8],
    provides: &'a [u8],
}

impl<'a> Model for PkgValues<'a> {
    ghost use Rattle.std.specs.Prelude.{IsTrue};
    ghost use Rattle.relation.specs.PkgValues.{HaveGoodRelations, PkgValues as PkgValuesText};
    ghost use Rattle.rules.specs.Name.{is_name};

    ghost Value = { PkgValuesText };

    ghost view = { λ v. record {
      name = v.name.now;
      version = v.version;
      pre_depends = v.pre_depends.now;
      depends = v.depends.now;
      conflicts = v.conflicts.now;
      breaks = v.breaks.now;
      provides = v.provides.now;
    } };

    ghost invariant = { λ v. IsTrue (is_name v.name.now) × HaveGoodRelations (record {
      name = v.name.now;
      version = v.version;
      pre_depends = v.pre_depends.now;
      depends = v.depends.now;
      conflicts = v.conflicts.now;
      breaks = v.breaks.now;
      provides = v.provides.now;
    }) };
}

// The value of a field, which is empty where there is none.
fn value_in<'a>(field: &Option<Field<'a>>) -> &'a [u8]
    ensures { result.now ≡ Spec.value_in field.now }
{
    match field {
        None => &[],
        Some(field) => field.value(),
    }
}

impl<'a> PkgFields<'a> {
    // The values of the fields, or their first refusal, the relation fields tested by the tables where there are some.
    fn tested_values(&self, tables: Option<&Acceptor>) -> Result<PkgValues<'a>, PkgFault>
        ensures { MatchResult result
            (λ values. (pkg_fault self.now ≡ None) × (values ≡ values_of self.now))
            (λ fault. pkg_fault self.now ≡ Some fault) }
    {
        let name = self.name()?;
        let version = self.version()?;
        self.check_relations_by(tables)?;
        Ok(PkgValues {
            name,
            version,
            pre_depends: value_in(&self.pre_depends),
            depends: value_in(&self.depends),
            conflicts: value_in(&self.conflicts),
            breaks: value_in(&self.breaks),
            provides: value_in(&self.provides),
        })
    }

    /// The values of the fields, or their first refusal: of Package, then of Version, then of the relation fields. It takes no
    /// memory. Linear in the values.
    pub fn values(&self) -> Result<PkgValues<'a>, PkgFault>
        ensures { MatchResult result
            (λ values. (pkg_fault self.now ≡ None) × (values ≡ values_of self.now))
            (λ fault. pkg_fault self.now ≡ Some fault) }
    {
        self.tested_values(None)
    }

    /// The same by the tables of the acceptor, which test the relation fields of many stanzas faster.
    pub fn values_by(&self, acceptor: &Acceptor) -> Result<PkgValues<'a>, PkgFault>
        ensures { MatchResult result
            (λ values. (pkg_fault self.now ≡ None) × (values ≡ values_of self.now))
            (λ fault. pkg_fault self.now ≡ Some fault) }
    {
        self.tested_values(Some(acceptor))
    }
}

/// The texts that a package is read from, one behind another as `PkgValues` has them.
#[derive(Clone, Copy, Drop)]
pub struct PkgTexts<'a> {
    pub name: &'a [u8],
    pub version: &'a [u8],
    pub pre_depends: &'a [u8],
    pub depends: &'a [u8],
    pub conflicts: &'a [u8],
    pub breaks: &'a [u8],
    pub provides: &'a [u8],
}

impl<'a> PkgTexts<'a> {
    /// The values that these texts are, which were tested before.
    pub fn values(&self) -> PkgValues<'a>
        requires { AreTested (values_in self.now) }
        ensures { result ≡ values_in self.now }
    {
        match Version::parse(self.version) {
            Ok(version) => PkgValues {
                name: self.name,
                version,
                pre_depends: self.pre_depends,
                depends: self.depends,
                conflicts: self.conflicts,
                breaks: self.breaks,
                provides: self.provides,
            },
            Err(_) => unreachable!(),
        }
    }

    /// The items of Provides, for the configured architecture `arch` (Policy 7.5), of texts that were tested before. Memory alone
    /// can fail, and none is taken where the field isn't there. Linear in the value.
    pub fn provides(&self, alloc: Global, arch: &[u8]) -> Result<Vec<Provided<'a>>, AllocError>
        requires { AreTested (values_in self.now) }
        ensures { IfOk result
            (λ items. items.items ≡ (spelled arch.now (values_in self.now)).relations.provides) }
    {
        provided_items_of(alloc, self.provides, arch)
    }
}

impl<'a> PkgValues<'a> {
    /// The texts of the values.
    pub fn texts(&self) -> PkgTexts<'a>
        ensures texts { values_in result ≡ self.now }
        ensures tested { AreTested self.now }
    {
        PkgTexts {
            name: self.name,
            version: self.version.text(),
            pre_depends: self.pre_depends,
            depends: self.depends,
            conflicts: self.conflicts,
            breaks: self.breaks,
            provides: self.provides,
        }
    }

    /// The name.
    pub fn name(&self) -> &'a [u8]
        ensures { result.now ≡ self.now.name }
    {
        self.name
    }

    /// The version.
    pub fn version(&self) -> &Version<'a>
        ensures { result.now ≡ self.now.version }
    {
        &self.version
    }

    // The relations of the package.
    fn relations(&self, alloc: Global, arch: &[u8]) -> Result<Relations<'a>, AllocError>
        ensures { IfOk result (λ relations. relations ≡ (spelled arch.now self.now).relations) }
    {
        Ok(Relations::new(
            clauses_of(alloc, self.pre_depends, arch)?,
            clauses_of(alloc, self.depends, arch)?,
            atoms_between(alloc, Separator::Comma, self.conflicts, arch)?,
            atoms_between(alloc, Separator::Comma, self.breaks, arch)?,
            provided_items_of(alloc, self.provides, arch)?,
        ))
    }

    /// The package, for the configured architecture `arch`. Memory alone can fail. Linear in the values, and the memory in their
    /// atoms.
    pub fn pkg(&self, alloc: Global, arch: &[u8]) -> Result<Pkg<'a>, AllocError>
        ensures { IfOk result (λ pkg. pkg ≡ spelled arch.now self.now) }
    {
        let relations = self.relations(alloc, arch)?;
        Ok(Pkg::new(self.name, self.version.again(), relations))
    }
}
