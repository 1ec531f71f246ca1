//! Why nothing was heard.
ghost use Rattle.std.specs.Prelude.{◌≡◌};
ghost use Rattle.text_lines.specs.declared.error.HearError.TheVariants as hear_error;

use stanza::ReadFailed;
use std::alloc::AllocError;

/// Why nothing was heard.
#[derive(Clone, Copy, Debug, PartialEq, Eq)]
pub enum HearError {
    /// The device failed in a reading.
    Unreadable,
    /// A growth was refused.
    OutOfMemory,
}

impl From<ReadFailed> for HearError {
    ghost from_gives = { λ _ e. e ≡ hear_error.Unreadable };

    fn from(_e: ReadFailed) -> HearError {
        HearError::Unreadable
    }
}

impl From<AllocError> for HearError {
    ghost from_gives = { λ _ e. e ≡ hear_error.OutOfMemory };

    fn from(_e: AllocError) -> HearError {
        HearError::OutOfMemory
    }
}
