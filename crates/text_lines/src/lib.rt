// The lines of a text that comes piece by piece, as a person or another program writes it: each is handed on as soon as its newline is
// there, and none is longer than its reader allows, so that memory is bounded. It stands on `stanza`, whose `Source` is where a text is
// read from. The main type is `Lines`, the call `Lines::next`. Begin with `specs/Lines.antt`.
#![tactic(auto)]

mod block;
mod error;
mod lines;
mod piece;

pub use error::HearError;
pub use lines::{Heard, Lines};
