//! Why a text was refused, and what is printed of it.

ghost use Rattle.std.specs.Prelude.{◌≡◌};
ghost use Rattle.inputs.specs.Reading.{IsPlaced, out_of_memory};

use crate::status_refusal::StatusRefusal;
use index::{IndexFault, SourcesFault};
use pins::PrefsFault;
use plantext::PlanFault;
use refutation_text::RefutationFault;
use rules::BadVersion;
use std::alloc::{AllocError, AllocFailed};
use thiserror::Error;
use universe_request::RequestFault;

/// The text that is refused.
#[derive(Clone, Copy, Debug, PartialEq, Eq, Error)]
pub enum Input {
    /// The version of this number among those of a comparison, counted from 1.
    #[error("version {0}")]
    Version(usize),
    /// The status file.
    #[error("status")]
    Status,
    /// The sources.
    #[error("sources")]
    Sources,
    /// The index of this number, counted from 1.
    #[error("index {0}")]
    Index(usize),
    /// The preferences.
    #[error("preferences")]
    Preferences,
    /// The request.
    #[error("request")]
    Request,
    /// The plan.
    #[error("plan")]
    Plan,
    /// The refutation.
    #[error("refutation")]
    Refutation,
    /// No text: memory was wanting.
    #[error("memory")]
    Memory,
}

/// What is wrong with a text.
#[derive(Debug, Drop, Error)]
pub enum Fault {
    /// The version that was to be compared is none.
    #[error("E6 BadVersion {0}")]
    Version(BadVersion),
    /// The status file is refused.
    #[error("{0}")]
    Status(StatusRefusal),
    /// The sources are refused.
    #[error("{0}")]
    Sources(SourcesFault),
    /// The index is refused.
    #[error("{0}")]
    Index(IndexFault),
    /// The preferences are refused.
    #[error("{0}")]
    Preferences(PrefsFault),
    /// The request is refused.
    #[error("{0}")]
    Request(RequestFault),
    /// The goal of this line of the request names a package that nothing has.
    #[error("E17 UnknownName {0}")]
    UnknownName(usize),
    /// The plan is refused.
    #[error("{0}")]
    Plan(PlanFault),
    /// The refutation is refused.
    #[error("{0}")]
    Refutation(RefutationFault),
    /// A request that admits more pairs than are kept.
    #[error("E10 TooLarge")]
    TooLarge,
    /// A stanza that is to be unpacked isn't there any more as it was when the index was read.
    #[error("E28 Changed")]
    Changed,
    /// A file couldn't be read.
    #[error("E5 Read")]
    Read,
    /// A growth was refused.
    #[error("E1 OutOfMemory")]
    OutOfMemory,
}

/// A refusal: the text, and what is wrong with it.
#[derive(Debug, Drop, Error)]
#[error("{place}: {fault}")]
pub struct Refusal {
    /// The text.
    pub place: Input,
    /// What is wrong with it.
    pub fault: Fault,
}

/// The refusal of the text at this place; where memory was wanting, no text is refused.
pub fn refused_at(place: Input, fault: Fault) -> Refusal
    ensures { IsPlaced place fault result }
{
    match fault {
        Fault::OutOfMemory => Refusal {
            place: Input::Memory,
            fault,
        },
        _ => Refusal { place, fault },
    }
}

impl From<AllocError> for Refusal {
    ghost from_gives = { λ _ e. e ≡ out_of_memory };

    fn from(_e: AllocError) -> Refusal {
        Refusal {
            place: Input::Memory,
            fault: Fault::OutOfMemory,
        }
    }
}

impl<T: Drop> From<AllocFailed<T>> for Refusal {
    ghost from_gives = { λ _ e. e ≡ out_of_memory };

    fn from(_e: AllocFailed<T>) -> Refusal {
        Refusal {
            place: Input::Memory,
            fault: Fault::OutOfMemory,
        }
    }
}
