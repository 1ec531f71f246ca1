//! Why stanzas weren't fetched.
ghost use Rattle.std.specs.Prelude.{◌≡◌};
ghost use Rattle.unpack_texts.specs.Fetched.{fetch_error_of};
ghost use Rattle.unpack_texts.specs.declared.error.FetchError.TheVariants as error;

use stanza::ReaderError;
use std::alloc::{AllocError, AllocFailed};
use thiserror::Error;

/// Why stanzas weren't fetched.
#[derive(Clone, Copy, Debug, PartialEq, Eq, Error)]
pub enum FetchError {
    /// A wanted stanza isn't there as it was at first.
    #[error("E28 Changed")]
    Changed,
    /// The reader failed.
    #[error("E5 Read")]
    Read,
    /// A growth was refused.
    #[error("E1 OutOfMemory")]
    OutOfMemory,
}

impl From<ReaderError> for FetchError {
    ghost from_gives = { λ read e. e ≡ fetch_error_of read };

    fn from(read: ReaderError) -> FetchError {
        match read {
            ReaderError::Refused(_) | ReaderError::TooLarge => FetchError::Changed,
            ReaderError::Read => FetchError::Read,
            ReaderError::OutOfMemory => FetchError::OutOfMemory,
        }
    }
}

impl From<AllocError> for FetchError {
    ghost from_gives = { λ _ e. e ≡ error.OutOfMemory };

    fn from(_e: AllocError) -> FetchError {
        FetchError::OutOfMemory
    }
}

impl<T: Drop> From<AllocFailed<T>> for FetchError {
    ghost from_gives = { λ _ e. e ≡ error.OutOfMemory };

    fn from(_e: AllocFailed<T>) -> FetchError {
        FetchError::OutOfMemory
    }
}
