//! Why a status file wasn't read.
ghost use Rattle.std.specs.Prelude.{◌≡◌};
ghost use Rattle.status_text.specs.declared.error.StatusError.TheVariants as error;
ghost use Rattle.status_text.specs.declared.error.StatusFault.TheVariants as fault;

use crate::name::PackageName;
use relation::PkgFault;
use stanza::StanzaError;
use std::alloc::{AllocError, AllocFailed};
use std::fmt;
use thiserror::Error;

/// A field without which a stanza of the status file says nothing of its package.
#[derive(Clone, Copy, Debug, PartialEq, Eq)]
pub enum StatusField {
    /// `Status`
    Status,
    /// `Architecture`
    Architecture,
}

impl fmt::Display for StatusField {
    ghost use Rattle.std.specs.Prelude.{Some};
    ghost use Rattle.status_text.specs.Error.{field_name};

    ghost output = { λ field. Some (field_name field) };

    fn fmt<W: fmt::Write>(&self, f: &mut fmt::Formatter<W>) -> fmt::Result {
        match self {
            StatusField::Status => f.write_str("Status"),
            StatusField::Architecture => f.write_str("Architecture"),
        }
    }
}

/// A refusal of a status file.
#[derive(Debug, Drop, Error)]
pub enum StatusFault<'a> {
    /// No control text goes on so.
    #[error("{0}")]
    Stanza(StanzaError),
    /// The fields of a package are refused.
    #[error("{0}")]
    Pkg(PkgFault),
    /// A required field isn't in the stanza that begins on this line.
    #[error("E9 MissingField {0} {1}")]
    MissingField(usize, StatusField),
    /// The value of Status on this line isn't three words of dpkg(1).
    #[error("E12 BadStatus {0}")]
    BadStatus(usize),
    /// A second record of this name.
    #[error("E13 DuplicatePackage {0}")]
    DuplicatePackage(PackageName<'a>),
    /// This package is of another architecture, and isn't not-installed.
    #[error("E14 ForeignArchitecture {0}")]
    ForeignArchitecture(PackageName<'a>),
    /// A text of more bytes than are read.
    #[error("E10 TooLarge")]
    TooLarge,
}

/// Why a status file wasn't read.
#[derive(Debug, Drop, Error)]
pub enum StatusError<'a> {
    /// The text is refused.
    #[error("{0}")]
    Refused(StatusFault<'a>),
    /// A growth was refused.
    #[error("E1 OutOfMemory")]
    OutOfMemory,
}

impl<'a> From<PkgFault> for StatusFault<'a> {
    ghost from_gives = { λ refused e. e ≡ fault.Pkg refused };

    fn from(refused: PkgFault) -> StatusFault<'a> {
        StatusFault::Pkg(refused)
    }
}

impl<'a> From<StatusFault<'a>> for StatusError<'a> {
    ghost from_gives = { λ refused e. e ≡ error.Refused refused };

    fn from(refused: StatusFault<'a>) -> StatusError<'a> {
        StatusError::Refused(refused)
    }
}

impl<'a> From<PkgFault> for StatusError<'a> {
    ghost from_gives = { λ refused e. e ≡ error.Refused (fault.Pkg refused) };

    fn from(refused: PkgFault) -> StatusError<'a> {
        StatusError::Refused(StatusFault::Pkg(refused))
    }
}

impl<'a> From<AllocError> for StatusError<'a> {
    ghost from_gives = { λ _ e. e ≡ error.OutOfMemory };

    fn from(_e: AllocError) -> StatusError<'a> {
        StatusError::OutOfMemory
    }
}

impl<'a, T: Drop> From<AllocFailed<T>> for StatusError<'a> {
    ghost from_gives = { λ _ e. e ≡ error.OutOfMemory };

    fn from(_e: AllocFailed<T>) -> StatusError<'a> {
        StatusError::OutOfMemory
    }
}
