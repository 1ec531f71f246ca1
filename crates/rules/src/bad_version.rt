// What is wrong with a text that is no version.

use thiserror::Error;

/// The first fault of a text that is to be a version (Policy 5.6.12), in the order in which they are tested.
/// It is printed as its name.
#[derive(Clone, Copy, PartialEq, Eq, Debug, Error)]
pub enum BadVersion {
    /// The text is empty.
    #[error("Empty")]
    Empty,
    /// What precedes the first colon is empty or not all digits.
    #[error("BadEpoch")]
    BadEpoch,
    /// The epoch is above 2147483647.
    #[error("EpochTooLarge")]
    EpochTooLarge,
    /// Nothing stands where the upstream version belongs.
    #[error("EmptyUpstream")]
    EmptyUpstream,
    /// Nothing follows the last hyphen.
    #[error("EmptyRevision")]
    EmptyRevision,
    /// A byte may not stand in its part.
    #[error("BadByte")]
    BadByte,
}
