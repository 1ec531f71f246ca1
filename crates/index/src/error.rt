//! Why a sources text or an index wasn't read.
ghost use Rattle.std.specs.Prelude.{◌≡◌};
ghost use Rattle.index.specs.declared.error.IndexError.TheVariants as index_error;
ghost use Rattle.index.specs.declared.error.SourcesError.TheVariants as sources_error;

use relation::PkgFault;
use stanza::StanzaError;
use std::alloc::{AllocError, AllocFailed};
use thiserror::Error;

/// A refusal of a sources text.
#[derive(Clone, Copy, Debug, PartialEq, Eq, Error)]
pub enum SourcesFault {
    /// No control text goes on so.
    #[error("{0}")]
    Stanza(StanzaError),
    /// The stanza that begins on this line has no field File.
    #[error("E9 MissingField {0} File")]
    MissingFile(usize),
    /// A text of more bytes, or an index more, than are read.
    #[error("E10 TooLarge")]
    TooLarge,
}

/// Why a sources text wasn't read.
#[derive(Clone, Copy, Debug, PartialEq, Eq, Error)]
pub enum SourcesError {
    /// The text is refused.
    #[error("{0}")]
    Refused(SourcesFault),
    /// A growth was refused.
    #[error("E1 OutOfMemory")]
    OutOfMemory,
}

impl From<SourcesFault> for SourcesError {
    ghost from_gives = { λ fault e. e ≡ sources_error.Refused fault };

    fn from(fault: SourcesFault) -> SourcesError {
        SourcesError::Refused(fault)
    }
}

impl From<AllocError> for SourcesError {
    ghost from_gives = { λ _ e. e ≡ sources_error.OutOfMemory };

    fn from(_e: AllocError) -> SourcesError {
        SourcesError::OutOfMemory
    }
}

impl<T: Drop> From<AllocFailed<T>> for SourcesError {
    ghost from_gives = { λ _ e. e ≡ sources_error.OutOfMemory };

    fn from(_e: AllocFailed<T>) -> SourcesError {
        SourcesError::OutOfMemory
    }
}

/// A refusal of an index.
#[derive(Clone, Copy, Debug, PartialEq, Eq, Error)]
pub enum IndexFault {
    /// No control text goes on so.
    #[error("{0}")]
    Stanza(StanzaError),
    /// The fields of a package are refused.
    #[error("{0}")]
    Pkg(PkgFault),
    /// The stanza that begins on this line has no field Architecture.
    #[error("E9 MissingField {0} Architecture")]
    MissingArchitecture(usize),
    /// A text of more bytes, or a package more, than are read.
    #[error("E10 TooLarge")]
    TooLarge,
}

/// Why an index wasn't read.
#[derive(Clone, Copy, Debug, PartialEq, Eq, Error)]
pub enum IndexError {
    /// The index is refused.
    #[error("{0}")]
    Refused(IndexFault),
    /// A growth was refused.
    #[error("E1 OutOfMemory")]
    OutOfMemory,
}

impl From<IndexFault> for IndexError {
    ghost from_gives = { λ fault e. e ≡ index_error.Refused fault };

    fn from(fault: IndexFault) -> IndexError {
        IndexError::Refused(fault)
    }
}

impl From<AllocError> for IndexError {
    ghost from_gives = { λ _ e. e ≡ index_error.OutOfMemory };

    fn from(_e: AllocError) -> IndexError {
        IndexError::OutOfMemory
    }
}

impl<T: Drop> From<AllocFailed<T>> for IndexError {
    ghost from_gives = { λ _ e. e ≡ index_error.OutOfMemory };

    fn from(_e: AllocFailed<T>) -> IndexError {
        IndexError::OutOfMemory
    }
}
