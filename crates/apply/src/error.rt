//! Why a plan wasn't taken to its end.
use journal::{CreateError, OpenError};
use status::StepName;
use thiserror::Error;

/// Why a journal doesn't have all steps of a plan.
#[derive(Debug, Drop, Error)]
pub enum CatchUpError<'s> {
    /// A growth was refused.
    #[error("E1 OutOfMemory")]
    OutOfMemory,
    /// The payload of the next step is longer than a text may be, or the file is too long.
    #[error("E10 TooLarge")]
    TooLarge,
    /// A call of the disk failed: what the file holds isn't known, and it is to be opened again.
    #[error("E20 Disk")]
    Disk,
    /// A call of the disk has failed before.
    #[error("E23 Reopen")]
    Reopen,
    /// The next step can't be taken: the package isn't in a state from which the action starts, or its stanza isn't handed in.
    #[error("E24 NotApplicable {0}")]
    NotApplicable(StepName<'s>),
    /// The journal has another start, or its steps aren't the first of the plan's.
    #[error("E25 JournalMismatch")]
    Mismatch,
}

/// Why there is no journal for a plan.
#[derive(Clone, Copy, Debug, PartialEq, Eq, Error)]
pub enum BeginError {
    /// The file wasn't read.
    #[error("{0}")]
    NotRead(OpenError),
    /// No journal was made of the file before, and none is made of it now.
    #[error("{0}")]
    NotCreated(CreateError),
}

/// Why a plan wasn't carried out on the file of a journal.
#[derive(Debug, Drop, Error)]
pub enum RunError<'s> {
    /// The file wasn't read or wasn't opened as a journal.
    #[error("{0}")]
    NotOpened(OpenError),
    /// The journal wasn't brought to the end of the plan. It has so many steps, all of them acknowledged.
    #[error("{cause}")]
    NotFinished {
        taken: usize,
        cause: CatchUpError<'s>,
    },
}
