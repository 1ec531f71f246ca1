//! Why a value or a package wasn't read.
ghost use Rattle.relation.specs.declared.error.RelationError.TheVariants as error;
ghost use Rattle.relation.specs.declared.error.PkgError.TheVariants as pkg_error;
ghost use Rattle.std.specs.Prelude.{◌≡◌};

use debversion::BadVersion;
use relation_text::RelationFault;
use std::alloc::{AllocError, AllocFailed};
use std::fmt;
use thiserror::Error;

/// Why a value wasn't read.
#[derive(Clone, Copy, Debug, PartialEq, Eq, Error)]
pub enum RelationError {
    /// The value is refused.
    #[error("{0}")]
    Refused(RelationFault),
    /// A growth was refused.
    #[error("E1 OutOfMemory")]
    OutOfMemory,
}

impl From<RelationFault> for RelationError {
    ghost from_gives = { λ fault e. e ≡ error.Refused fault };

    fn from(fault: RelationFault) -> RelationError {
        RelationError::Refused(fault)
    }
}

impl From<AllocError> for RelationError {
    ghost from_gives = { λ _ e. e ≡ error.OutOfMemory };

    fn from(_e: AllocError) -> RelationError {
        RelationError::OutOfMemory
    }
}

impl<T: Drop> From<AllocFailed<T>> for RelationError {
    ghost from_gives = { λ _ e. e ≡ error.OutOfMemory };

    fn from(_e: AllocFailed<T>) -> RelationError {
        RelationError::OutOfMemory
    }
}

/// A field without which there is no package.
#[derive(Clone, Copy, Debug, PartialEq, Eq)]
pub enum RequiredField {
    /// `Package`
    Package,
    /// `Version`
    Version,
}

impl fmt::Display for RequiredField {
    ghost use Rattle.std.specs.Prelude.{Some};
    ghost use Rattle.relation.specs.Error.{field_name};

    ghost output = { λ field. Some (field_name field) };

    fn fmt<W: fmt::Write>(&self, f: &mut fmt::Formatter<W>) -> fmt::Result {
        match self {
            RequiredField::Package => f.write_str("Package"),
            RequiredField::Version => f.write_str("Version"),
        }
    }
}

/// A refusal of a stanza: the line is the field's, but of a missing field the stanza's first.
#[derive(Clone, Copy, Debug, PartialEq, Eq, Error)]
pub enum PkgFault {
    /// A required field isn't there.
    #[error("E9 MissingField {0} {1}")]
    MissingField(usize, RequiredField),
    /// The value of Version is no version.
    #[error("E6 BadVersion {0} {1}")]
    BadVersion(usize, BadVersion),
    /// The line and the offset at which a relation field's value is refused.
    #[error("E7 BadRelation {0} {1}")]
    BadRelation(usize, usize),
    /// The line and the offset of a byte with which no name goes on.
    #[error("E8 BadName {0} {1}")]
    BadName(usize, usize),
    /// An atom beyond the 65,535th.
    #[error("E10 TooLarge")]
    TooLarge,
}

/// Why the package of a stanza wasn't read.
#[derive(Clone, Copy, Debug, PartialEq, Eq, Error)]
pub enum PkgError {
    /// The stanza is refused.
    #[error("{0}")]
    Refused(PkgFault),
    /// A growth was refused.
    #[error("E1 OutOfMemory")]
    OutOfMemory,
}

impl From<PkgFault> for PkgError {
    ghost from_gives = { λ fault e. e ≡ pkg_error.Refused fault };

    fn from(fault: PkgFault) -> PkgError {
        PkgError::Refused(fault)
    }
}

impl From<AllocError> for PkgError {
    ghost from_gives = { λ _ e. e ≡ pkg_error.OutOfMemory };

    fn from(_e: AllocError) -> PkgError {
        PkgError::OutOfMemory
    }
}
