//! Why a step wasn't taken.
ghost use Rattle.std.specs.Prelude.{◌≡◌};
ghost use Rattle.status.specs.declared.error.ApplyError.TheVariants as error;

use rules::Name;
use std::alloc::AllocError;
use std::fmt;
use std::marker::Model;
use thiserror::Error;

/// A name of a step (Policy 5.6.1). It borrows the step.
#[derive(Debug, Drop)]
pub struct StepName<'s> {
    name: &'s Name,
}

impl<'s> Model for StepName<'s> {
    ghost use Rattle.std.specs.Prelude.{List, ℕ};

    ghost Value = { List ℕ };

    ghost view = { λ step. step.name.now };
}

impl<'s> StepName<'s> {
    // This name.
    pub(crate) fn new(name: &'s Name) -> StepName<'s>
        ensures { result ≡ name.now }
    {
        StepName { name }
    }

    /// Its bytes.
    pub fn as_bytes(&self) -> &[u8]
        ensures { result.now ≡ self.now }
    {
        self.name.as_bytes()
    }
}

impl fmt::Display for StepName<'_> {
    // A name has ASCII bytes alone, so that each is a character.
    fn fmt<W: fmt::Write>(&self, f: &mut fmt::Formatter<W>) -> fmt::Result {
        for byte in self.as_bytes() {
            f.write_char(char::from(*byte))?;
        }
        Ok(())
    }
}

/// Why a step wasn't taken.
#[derive(Debug, Drop, Error)]
pub enum ApplyError<'s> {
    /// The package isn't in a state from which the action starts, or its stanza isn't handed in.
    #[error("E24 NotApplicable {0}")]
    NotApplicable(StepName<'s>),
    /// A growth was refused.
    #[error("E1 OutOfMemory")]
    OutOfMemory,
}

impl<'s> From<AllocError> for ApplyError<'s> {
    ghost from_gives = { λ _ e. e ≡ error.OutOfMemory };

    fn from(_e: AllocError) -> ApplyError<'s> {
        ApplyError::OutOfMemory
    }
}
