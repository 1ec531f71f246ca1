// How a conversation ends.

/// How a conversation ends.
#[derive(Clone, Copy, Debug, PartialEq, Eq)]
pub enum Ended {
    /// The text is over, and each line has its reply.
    Answered,
    /// The text can't be read on.
    Unread,
    /// A line has more bytes than one may have.
    TooLong,
    /// A reply couldn't be written.
    Unwritten,
    /// Memory was wanting.
    OutOfMemory,
}
