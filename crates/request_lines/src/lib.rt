// The lines of a request as wishes, of which each can be left out by itself: `upgrade-all` is spelled out as a goal for each name of
// which it asks for another version. It stands on `universe`, which has these names, and on `universe_request`, which reads goals.
// The main calls are `wishes_of` and `text_of`; begin with `specs/Spelled.antt`.
#![tactic(auto)]

mod spelled;
mod upgraded;
mod wish;

pub use spelled::{text_of, wishes_of};
pub use wish::Wish;
