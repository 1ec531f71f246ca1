//! A stanza of the status file in its place.

use stanza::Stanza;

/// A stanza of the status file: with its record, which a reader gives as `R`, or without one.
#[derive(Drop)]
pub enum Slot<'a, R> {
    /// A stanza that has a record.
    Recorded(R),
    /// A not-installed stanza of another architecture.
    Foreign(Stanza<'a>),
}
