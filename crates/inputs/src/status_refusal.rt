//! The refusal of a status file, which has its own copy of the name that it names.

ghost use Rattle.std.specs.Prelude.{◌≡◌, IfOk};
ghost use Rattle.inputs.specs.Texts.{status_refusal};

use relation::PkgFault;
use rules::Text;
use stanza::StanzaError;
use status_text::{PackageName, StatusFault, StatusField};
use std::alloc::{AllocError, Global};
use std::fmt;
use std::marker::Model;
use thiserror::Error;

/// The name of a package (Policy 5.6.1), which owns its bytes.
#[derive(Debug, Drop)]
pub struct NamedPackage {
    name: Text,
}

impl Model for NamedPackage {
    ghost use Rattle.std.specs.Prelude.{List, ℕ};

    ghost Value = { List ℕ };

    ghost view = { λ named. named.name };
}

impl NamedPackage {
    /// A copy of the name with these bytes. Memory alone can fail.
    pub fn copied_from(alloc: Global, name: &[u8]) -> Result<NamedPackage, AllocError>
        ensures { IfOk result (λ named. named ≡ name.now) }
    {
        Ok(NamedPackage {
            name: Text::copied_from(alloc, name)?,
        })
    }

    /// The bytes of the name.
    pub fn as_bytes(&self) -> &[u8]
        ensures { result.now ≡ self.now }
    {
        self.name.as_bytes()
    }
}

impl fmt::Display for NamedPackage {
    // A name has ASCII bytes alone, so that each is a character.
    fn fmt<W: fmt::Write>(&self, f: &mut fmt::Formatter<W>) -> fmt::Result {
        for byte in self.as_bytes() {
            f.write_char(char::from(*byte))?;
        }
        Ok(())
    }
}

/// A refusal of the status file.
#[derive(Debug, Drop, Error)]
pub enum StatusRefusal {
    /// No control text goes on so.
    #[error("{0}")]
    Stanza(StanzaError),
    /// The fields of a package are refused.
    #[error("{0}")]
    Pkg(PkgFault),
    /// A required field isn't in the stanza that begins on this line.
    #[error("E9 MissingField {0} {1}")]
    MissingField(usize, StatusField),
    /// The value of Status on this line isn't three words of dpkg(1).
    #[error("E12 BadStatus {0}")]
    BadStatus(usize),
    /// A second record of this name.
    #[error("E13 DuplicatePackage {0}")]
    DuplicatePackage(NamedPackage),
    /// This package is of another architecture, and isn't not-installed.
    #[error("E14 ForeignArchitecture {0}")]
    ForeignArchitecture(NamedPackage),
    /// A text of more bytes than are read.
    #[error("E10 TooLarge")]
    TooLarge,
}

fn named_package(alloc: Global, name: &PackageName<'_>) -> Result<NamedPackage, AllocError>
    ensures { IfOk result (λ named. named ≡ name.now) }
{
    NamedPackage::copied_from(alloc, name.as_bytes())
}

/// The refusal with its own copy of the name, if it has one. Memory alone can fail.
pub(crate) fn owned_refusal(
    alloc: Global,
    refused: &StatusFault<'_>,
) -> Result<StatusRefusal, AllocError>
    ensures { IfOk result (λ owned. owned ≡ status_refusal refused.now) }
{
    match refused {
        StatusFault::Stanza(refused) => Ok(StatusRefusal::Stanza(*refused)),
        StatusFault::Pkg(refused) => Ok(StatusRefusal::Pkg(*refused)),
        StatusFault::MissingField(line, field) => Ok(StatusRefusal::MissingField(*line, *field)),
        StatusFault::BadStatus(line) => Ok(StatusRefusal::BadStatus(*line)),
        StatusFault::DuplicatePackage(name) => {
            Ok(StatusRefusal::DuplicatePackage(named_package(alloc, name)?))
        }
        StatusFault::ForeignArchitecture(name) => {
            Ok(StatusRefusal::ForeignArchitecture(named_package(alloc, name)?))
        }
        StatusFault::TooLarge => Ok(StatusRefusal::TooLarge),
    }
}
