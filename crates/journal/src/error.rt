//! Why a call of a journal fails.
ghost use Rattle.std.specs.Prelude.{◌≡◌};
ghost use Rattle.journal.specs.declared.error.AppendError.TheVariants as append_error;
ghost use Rattle.journal.specs.declared.error.CreateError.TheVariants as create_error;
ghost use Rattle.journal.specs.declared.error.OpenError.TheVariants as open_error;

use disk::Failed;
use status::StepName;
use std::alloc::{AllocError, AllocFailed};
use thiserror::Error;

/// Why a file wasn't opened as a journal.
#[derive(Clone, Copy, Debug, PartialEq, Eq, Error)]
pub enum OpenError {
    /// A growth was refused.
    #[error("E1 OutOfMemory")]
    OutOfMemory,
    /// A call of the disk failed.
    #[error("E20 Disk")]
    Disk,
    /// The file is shorter than 16 bytes, or doesn't begin as a journal.
    #[error("E21 NotAJournal")]
    NotAJournal,
    /// Nothing can be read at this offset: 16 for what stands before the first gate, else that of a gate.
    #[error("E22 Damaged {0}")]
    Damaged(usize),
    /// The journal names another architecture.
    #[error("E29 OtherArchitecture")]
    OtherArchitecture,
}

impl From<AllocError> for OpenError {
    ghost from_gives = { λ _ e. e ≡ open_error.OutOfMemory };

    fn from(_e: AllocError) -> OpenError {
        OpenError::OutOfMemory
    }
}

impl<T: Drop> From<AllocFailed<T>> for OpenError {
    ghost from_gives = { λ _ e. e ≡ open_error.OutOfMemory };

    fn from(_e: AllocFailed<T>) -> OpenError {
        OpenError::OutOfMemory
    }
}

impl From<Failed> for OpenError {
    ghost from_gives = { λ _ e. e ≡ open_error.Disk };

    fn from(_e: Failed) -> OpenError {
        OpenError::Disk
    }
}

/// Why a step wasn't added.
#[derive(Debug, Drop, Error)]
pub enum AppendError<'s> {
    /// A growth was refused.
    #[error("E1 OutOfMemory")]
    OutOfMemory,
    /// The payload is longer than a text may be, or the file is too long.
    #[error("E10 TooLarge")]
    TooLarge,
    /// A call of the disk failed: what the file holds isn't known, and it is to be opened again.
    #[error("E20 Disk")]
    Disk,
    /// A call of the disk has failed before.
    #[error("E23 Reopen")]
    Reopen,
    /// The package isn't in a state from which the action starts, or its stanza isn't handed in.
    #[error("E24 NotApplicable {0}")]
    NotApplicable(StepName<'s>),
}

impl<'s> From<AllocError> for AppendError<'s> {
    ghost from_gives = { λ _ e. e ≡ append_error.OutOfMemory };

    fn from(_e: AllocError) -> AppendError<'s> {
        AppendError::OutOfMemory
    }
}

impl<'s, T: Drop> From<AllocFailed<T>> for AppendError<'s> {
    ghost from_gives = { λ _ e. e ≡ append_error.OutOfMemory };

    fn from(_e: AllocFailed<T>) -> AppendError<'s> {
        AppendError::OutOfMemory
    }
}

/// Why a journal wasn't created.
#[derive(Clone, Copy, Debug, PartialEq, Eq, Error)]
pub enum CreateError {
    /// A growth was refused.
    #[error("E1 OutOfMemory")]
    OutOfMemory,
    /// The start is longer than a text may be, or the name of the architecture is longer than 65,535 bytes.
    #[error("E10 TooLarge")]
    TooLarge,
    /// A call of the disk failed.
    #[error("E20 Disk")]
    Disk,
    /// The start isn't read as a status text: a file with it would be refused so.
    #[error("E22 Damaged 16")]
    BadStart,
}

impl From<AllocError> for CreateError {
    ghost from_gives = { λ _ e. e ≡ create_error.OutOfMemory };

    fn from(_e: AllocError) -> CreateError {
        CreateError::OutOfMemory
    }
}

impl From<Failed> for CreateError {
    ghost from_gives = { λ _ e. e ≡ create_error.Disk };

    fn from(_e: Failed) -> CreateError {
        CreateError::Disk
    }
}
