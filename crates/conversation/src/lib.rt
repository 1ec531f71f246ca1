//! A conversation: lines of a text that comes piece by piece are heard and replied to, one after the other. It stands on `text_lines`. Here
//! are whom it is with, how it ends, what is heard and said, and the stream on which that is written; who replies has the loop over it.
//! Begin with `specs/Conversation.antt`.
#![tactic(auto)]

mod ended;
mod stream;
mod talk;

pub use ended::Ended;
pub use stream::{Stream, Unwritten};
pub use talk::Talk;
