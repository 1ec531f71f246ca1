//! What is refused in control text, and why none was read.
ghost use Rattle.std.specs.Prelude.{◌≡◌};
ghost use Rattle.stanza.specs.declared.error.ReaderError.TheVariants as read_error;

use crate::source::ReadFailed;
use std::alloc::{AllocError, AllocFailed};
use thiserror::Error;

/// A refusal, with the number of its line, counted from 1 in the whole text.
#[derive(Clone, Copy, Debug, PartialEq, Eq, Error)]
pub enum StanzaError {
    /// A continuation with no field before it, or a line without a colon.
    #[error("E2 BadLine {0}")]
    BadLine(usize),
    /// What stands before the colon is no name of a field.
    #[error("E3 BadFieldName {0}")]
    BadFieldName(usize),
    /// A second field of one name in a stanza.
    #[error("E4 DuplicateField {0}")]
    DuplicateField(usize),
}

/// Why no stanza was read.
#[derive(Clone, Copy, Debug, PartialEq, Eq, Error)]
pub enum ReaderError {
    /// No control text goes on so.
    #[error("{0}")]
    Refused(StanzaError),
    /// The text is longer than may be read.
    #[error("E10 TooLarge")]
    TooLarge,
    /// The source failed.
    #[error("E5 Read")]
    Read,
    /// A growth was refused.
    #[error("E1 OutOfMemory")]
    OutOfMemory,
}

impl From<StanzaError> for ReaderError {
    ghost from_gives = { λ fault e. e ≡ read_error.Refused fault };

    fn from(fault: StanzaError) -> ReaderError {
        ReaderError::Refused(fault)
    }
}

impl From<ReadFailed> for ReaderError {
    ghost from_gives = { λ _ e. e ≡ read_error.Read };

    fn from(_e: ReadFailed) -> ReaderError {
        ReaderError::Read
    }
}

impl From<AllocError> for ReaderError {
    ghost from_gives = { λ _ e. e ≡ read_error.OutOfMemory };

    fn from(_e: AllocError) -> ReaderError {
        ReaderError::OutOfMemory
    }
}

impl<T: Drop> From<AllocFailed<T>> for ReaderError {
    ghost from_gives = { λ _ e. e ≡ read_error.OutOfMemory };

    fn from(_e: AllocFailed<T>) -> ReaderError {
        ReaderError::OutOfMemory
    }
}
