//! Whom a conversation is with.

use crate::stream::Stream;
use text_lines::Lines;

/// Whom lines come from, and where they are replied to.
#[derive(Drop)]
pub struct Talk<'o, T, W> {
    /// The lines.
    pub lines: Lines<T>,
    /// Where the replies are written.
    pub out: &'o mut Stream<W>,
}
