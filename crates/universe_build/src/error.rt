// Why no universe was built.

ghost use Rattle.std.specs.Prelude.{◌≡◌};
ghost use Rattle.universe_build.specs.declared.error.UniverseError.TheVariants.{OutOfMemory};

use std::alloc::{AllocError, AllocFailed};
use thiserror::Error;

/// Why no universe was built.
#[derive(Clone, Copy, Debug, PartialEq, Eq, Error)]
pub enum UniverseError {
    /// The goal of this line names a package that nothing has.
    #[error("E17 UnknownName {0}")]
    UnknownName(usize),
    /// More than 1,000,000 pairs are admitted.
    #[error("E10 TooLarge")]
    TooLarge,
    /// A growth was refused.
    #[error("E1 OutOfMemory")]
    OutOfMemory,
}

impl From<AllocError> for UniverseError {
    ghost from_gives = { λ _ e. e ≡ OutOfMemory };

    fn from(_e: AllocError) -> UniverseError {
        UniverseError::OutOfMemory
    }
}

impl<T: Drop> From<AllocFailed<T>> for UniverseError {
    ghost from_gives = { λ _ e. e ≡ OutOfMemory };

    fn from(_e: AllocFailed<T>) -> UniverseError {
        UniverseError::OutOfMemory
    }
}
