//! Why an index that comes piece by piece wasn't read.
ghost use Rattle.std.specs.Prelude.{◌≡◌};
ghost use Rattle.index.specs.Streamed.{of_index_error, of_read_error};
ghost use Rattle.index.specs.declared.stream_error.StreamError.TheVariants as error;

use crate::error::{IndexError, IndexFault};
use stanza::ReaderError;
use std::alloc::AllocError;
use thiserror::Error;

/// Why an index wasn't read from its source.
#[derive(Clone, Copy, Debug, PartialEq, Eq, Error)]
pub enum StreamError {
    /// The index is refused.
    #[error("{0}")]
    Refused(IndexFault),
    /// The source failed.
    #[error("E5 Read")]
    Read,
    /// A growth was refused.
    #[error("E1 OutOfMemory")]
    OutOfMemory,
}

impl From<ReaderError> for StreamError {
    ghost from_gives = { λ read e. e ≡ of_read_error read };

    fn from(read: ReaderError) -> StreamError {
        match read {
            ReaderError::Refused(refused) => StreamError::Refused(IndexFault::Stanza(refused)),
            ReaderError::TooLarge => StreamError::Refused(IndexFault::TooLarge),
            ReaderError::Read => StreamError::Read,
            ReaderError::OutOfMemory => StreamError::OutOfMemory,
        }
    }
}

impl From<IndexError> for StreamError {
    ghost from_gives = { λ index e. e ≡ of_index_error index };

    fn from(index: IndexError) -> StreamError {
        match index {
            IndexError::Refused(refused) => StreamError::Refused(refused),
            IndexError::OutOfMemory => StreamError::OutOfMemory,
        }
    }
}

impl From<AllocError> for StreamError {
    ghost from_gives = { λ _ e. e ≡ error.OutOfMemory };

    fn from(_e: AllocError) -> StreamError {
        StreamError::OutOfMemory
    }
}
