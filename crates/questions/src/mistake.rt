// Why a line is no question.
ghost use Rattle.std.specs.Prelude.{◌≡◌};
ghost use Rattle.questions.specs.declared.mistake.Refused.TheVariants as refused;

use std::alloc::{AllocError, AllocFailed};
use thiserror::Error;

/// Why a line is no question, as the end of a sentence on it.
#[derive(Debug, Drop, Error)]
pub enum Mistake {
    /// It isn't UTF-8, or no JSON text.
    #[error("it is no JSON")]
    NoJson,
    /// It is another JSON value.
    #[error("it is no JSON object")]
    NoObject,
    /// It doesn't say what is asked.
    #[error("ask is none of solve, check-plan, check-refutation, candidate, installable")]
    NoAsk,
    /// A member of this name isn't part of what is asked.
    #[error("member \"{0}\" doesn't belong here")]
    Stray(String),
    /// The member of this name is absent, or of another kind.
    #[error("{0} is no string")]
    NoString(&'static str),
    /// The member of this name is absent where it is needed, or of another kind.
    #[error("{0} is no array of strings")]
    NoStrings(&'static str),
    /// The member of this name is of another kind.
    #[error("{0} is neither true nor false")]
    NoFlag(&'static str),
    /// The limit is of another kind, or too large.
    #[error("limit is no integer from 0 to 4294967295")]
    NoLimit,
    /// There is no such format of refutations.
    #[error("refutation_format is neither 1 nor 2")]
    NoFormat,
    /// Candidates of no names are asked for.
    #[error("names has no string")]
    NoName,
}

// Why a part of a question wasn't read.
#[derive(Drop)]
pub(crate) enum Refused {
    Mistake(Mistake),
    OutOfMemory,
}

impl From<Mistake> for Refused {
    ghost from_gives = { λ mistake e. e ≡ refused.Mistake mistake };

    fn from(mistake: Mistake) -> Refused {
        Refused::Mistake(mistake)
    }
}

impl From<AllocError> for Refused {
    ghost from_gives = { λ _ e. e ≡ refused.OutOfMemory };

    fn from(_e: AllocError) -> Refused {
        Refused::OutOfMemory
    }
}

impl<T: Drop> From<AllocFailed<T>> for Refused {
    ghost from_gives = { λ _ e. e ≡ refused.OutOfMemory };

    fn from(_e: AllocFailed<T>) -> Refused {
        Refused::OutOfMemory
    }
}
