// Why the text of a refutation wasn't read.

ghost use Rattle.refutation_text.specs.declared.error.RefutationError.TheVariants.{OutOfMemory, Refused};
ghost use Rattle.std.specs.Prelude.{◌≡◌};

use std::alloc::{AllocError, AllocFailed};
use thiserror::Error;

/// A refusal of the text of a refutation.
#[derive(Clone, Copy, Debug, PartialEq, Eq, Error)]
pub enum RefutationFault {
    /// The line of this number, counted from 1, isn't what the format says, or lacks its newline.
    #[error("E19 BadRefutation {0}")]
    BadRefutation(usize),
    /// The text is too long, or has a line too many, or a line with too many literals or hints.
    #[error("E10 TooLarge")]
    TooLarge,
}

/// Why the text of a refutation wasn't read.
#[derive(Clone, Copy, Debug, PartialEq, Eq, Error)]
pub enum RefutationError {
    /// The text is refused.
    #[error("{0}")]
    Refused(RefutationFault),
    /// A growth was refused.
    #[error("E1 OutOfMemory")]
    OutOfMemory,
}

impl From<RefutationFault> for RefutationError {
    ghost from_gives = { λ fault e. e ≡ Refused fault };

    fn from(fault: RefutationFault) -> RefutationError {
        RefutationError::Refused(fault)
    }
}

impl From<AllocError> for RefutationError {
    ghost from_gives = { λ _ e. e ≡ OutOfMemory };

    fn from(_e: AllocError) -> RefutationError {
        RefutationError::OutOfMemory
    }
}

impl<T: Drop> From<AllocFailed<T>> for RefutationError {
    ghost from_gives = { λ _ e. e ≡ OutOfMemory };

    fn from(_e: AllocFailed<T>) -> RefutationError {
        RefutationError::OutOfMemory
    }
}
