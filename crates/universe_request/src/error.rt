// Why a request wasn't read.

ghost use Rattle.universe_request.specs.declared.error.RequestError.TheVariants.{OutOfMemory, Refused};
ghost use Rattle.std.specs.Prelude.{◌≡◌};

use std::alloc::{AllocError, AllocFailed};
use thiserror::Error;

/// A refusal of a request.
#[derive(Clone, Copy, Debug, PartialEq, Eq, Error)]
pub enum RequestFault {
    /// The line of this number, counted from 1, asks for nothing that can be asked for.
    #[error("E16 BadRequest {0}")]
    BadRequest(usize),
    /// The text is too long, or has a goal too many.
    #[error("E10 TooLarge")]
    TooLarge,
}

/// Why a request wasn't read.
#[derive(Clone, Copy, Debug, PartialEq, Eq, Error)]
pub enum RequestError {
    /// The text is refused.
    #[error("{0}")]
    Refused(RequestFault),
    /// A growth was refused.
    #[error("E1 OutOfMemory")]
    OutOfMemory,
}

impl From<RequestFault> for RequestError {
    ghost from_gives = { λ fault e. e ≡ Refused fault };

    fn from(fault: RequestFault) -> RequestError {
        RequestError::Refused(fault)
    }
}

impl From<AllocError> for RequestError {
    ghost from_gives = { λ _ e. e ≡ OutOfMemory };

    fn from(_e: AllocError) -> RequestError {
        RequestError::OutOfMemory
    }
}

impl<T: Drop> From<AllocFailed<T>> for RequestError {
    ghost from_gives = { λ _ e. e ≡ OutOfMemory };

    fn from(_e: AllocFailed<T>) -> RequestError {
        RequestError::OutOfMemory
    }
}
