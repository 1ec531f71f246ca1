// Why the text of a plan wasn't read.

ghost use Rattle.plantext.specs.declared.error.PlanError.TheVariants.{OutOfMemory, Refused};
ghost use Rattle.std.specs.Prelude.{◌≡◌};

use std::alloc::{AllocError, AllocFailed};
use thiserror::Error;

/// A refusal of the text of a plan.
#[derive(Clone, Copy, Debug, PartialEq, Eq, Error)]
pub enum PlanFault {
    /// The line of this number, counted from 1, isn't what the format says, or lacks its newline.
    #[error("E18 BadPlan {0}")]
    BadPlan(usize),
    /// The text is too long, or has a step too many.
    #[error("E10 TooLarge")]
    TooLarge,
}

/// Why the text of a plan wasn't read.
#[derive(Clone, Copy, Debug, PartialEq, Eq, Error)]
pub enum PlanError {
    /// The text is refused.
    #[error("{0}")]
    Refused(PlanFault),
    /// A growth was refused.
    #[error("E1 OutOfMemory")]
    OutOfMemory,
}

impl From<PlanFault> for PlanError {
    ghost from_gives = { λ fault e. e ≡ Refused fault };

    fn from(fault: PlanFault) -> PlanError {
        PlanError::Refused(fault)
    }
}

impl From<AllocError> for PlanError {
    ghost from_gives = { λ _ e. e ≡ OutOfMemory };

    fn from(_e: AllocError) -> PlanError {
        PlanError::OutOfMemory
    }
}

impl<T: Drop> From<AllocFailed<T>> for PlanError {
    ghost from_gives = { λ _ e. e ≡ OutOfMemory };

    fn from(_e: AllocFailed<T>) -> PlanError {
        PlanError::OutOfMemory
    }
}
