//! The package of a stanza, whose relation fields are read when they are asked for.
ghost use Rattle.std.specs.Prelude.{◌≡◌, IfOk};
ghost use Rattle.relation.specs.PkgValues.{spelled};

use relation::{Pkg, PkgValues};
use std::alloc::{AllocError, Global};
use std::marker::Model;

/// The package of a stanza: its fields were tested, and `pkg` reads them each time that it is called. It borrows the text.
#[derive(Drop)]
pub struct TestedPkg<'a> {
    values: PkgValues<'a>,
    arch: &'a [u8],
}

impl<'a> Model for TestedPkg<'a> {
    ghost use Rattle.relation.specs.PkgValues.{spelled};
    ghost use Rattle.rules.specs.Package.{Pkg as PkgValue};

    ghost Value = { PkgValue };

    ghost view = { λ t. spelled t.arch.now t.values };
}

impl<'a> TestedPkg<'a> {
    // The package of these values for this configured architecture.
    pub(crate) fn new(values: PkgValues<'a>, arch: &'a [u8]) -> TestedPkg<'a>
        ensures { result ≡ spelled arch.now values.entry }
    {
        TestedPkg { values, arch }
    }

    /// The same package once more.
    pub fn again(&self) -> TestedPkg<'a>
        ensures { result ≡ self.now }
    {
        TestedPkg {
            values: self.values.texts().values(),
            arch: self.arch,
        }
    }

    /// The package. Memory alone can fail. Linear in the relation fields.
    pub fn pkg(&self, alloc: Global) -> Result<Pkg<'a>, AllocError>
        ensures { IfOk result (λ pkg. pkg ≡ self.now) }
    {
        self.values.pkg(alloc, self.arch)
    }
}
