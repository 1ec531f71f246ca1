// Why a preferences file wasn't read.

ghost use Rattle.std.specs.Prelude.{◌≡◌};
ghost use Rattle.pins.specs.declared.error.PrefsError.TheVariants.{OutOfMemory, Refused};

use stanza::StanzaError;
use std::alloc::{AllocError, AllocFailed};
use std::fmt;
use thiserror::Error;

/// A field without which a record says nothing.
#[derive(Clone, Copy, Debug, PartialEq, Eq)]
pub enum PrefsField {
    /// `Package`
    Package,
    /// `Pin`
    Pin,
    /// `Pin-Priority`
    PinPriority,
}

impl fmt::Display for PrefsField {
    ghost use Rattle.std.specs.Prelude.{Some};
    ghost use Rattle.pins.specs.Error.{field_name};

    ghost output = { λ field. Some (field_name field) };

    fn fmt<W: fmt::Write>(&self, f: &mut fmt::Formatter<W>) -> fmt::Result {
        match self {
            PrefsField::Package => f.write_str("Package"),
            PrefsField::Pin => f.write_str("Pin"),
            PrefsField::PinPriority => f.write_str("Pin-Priority"),
        }
    }
}

/// A refusal of a preferences file.
#[derive(Clone, Copy, Debug, PartialEq, Eq, Error)]
pub enum PrefsFault {
    /// No control text goes on so.
    #[error("{0}")]
    Stanza(StanzaError),
    /// The stanza that begins on this line lacks a field.
    #[error("E9 MissingField {0} {1}")]
    MissingField(usize, PrefsField),
    /// The value of the field that begins on this line isn't read.
    #[error("E11 BadPin {0}")]
    BadPin(usize),
    /// A text of more bytes than are read.
    #[error("E10 TooLarge")]
    TooLarge,
}

/// Why a preferences file wasn't read.
#[derive(Clone, Copy, Debug, PartialEq, Eq, Error)]
pub enum PrefsError {
    /// The file is refused.
    #[error("{0}")]
    Refused(PrefsFault),
    /// A growth was refused.
    #[error("E1 OutOfMemory")]
    OutOfMemory,
}

impl From<PrefsFault> for PrefsError {
    ghost from_gives = { λ fault e. e ≡ Refused fault };

    fn from(fault: PrefsFault) -> PrefsError {
        PrefsError::Refused(fault)
    }
}

impl From<AllocError> for PrefsError {
    ghost from_gives = { λ _ e. e ≡ OutOfMemory };

    fn from(_e: AllocError) -> PrefsError {
        PrefsError::OutOfMemory
    }
}

impl<T: Drop> From<AllocFailed<T>> for PrefsError {
    ghost from_gives = { λ _ e. e ≡ OutOfMemory };

    fn from(_e: AllocFailed<T>) -> PrefsError {
        PrefsError::OutOfMemory
    }
}
