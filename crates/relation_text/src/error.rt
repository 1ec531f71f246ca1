//! What is refused in a relation field.
use thiserror::Error;

/// A refusal of a value, with its offset in bytes from the value's beginning.
#[derive(Clone, Copy, Debug, PartialEq, Eq, Error)]
pub enum RelationFault {
    /// No relation field goes on so.
    #[error("E7 BadRelation {0}")]
    BadRelation(usize),
    /// A name or a qualifier could begin here, and none does.
    #[error("E8 BadName {0}")]
    BadName(usize),
    /// An atom beyond the 65,535th.
    #[error("E10 TooLarge")]
    TooLarge,
}
