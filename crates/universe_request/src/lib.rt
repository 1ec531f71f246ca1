// Requests: what is to be installed, removed, purged and upgraded. It stands on `rules`, which has the goals, and
// on `relation`, which reads atoms. The main type is `Request`, and the call `Request::read`.
#![tactic(auto)]

mod error;
mod goal_text;
mod request;
mod words;

pub use error::{RequestError, RequestFault};
pub use request::Request;
pub use rules::GoalLine;
