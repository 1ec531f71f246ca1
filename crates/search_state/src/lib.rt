// What a search for a selection holds, and its steps: the clauses, the trail of what is true, the watches and what is
// decided next; propagating, learning from a conflict and jumping back, deciding. It stands on `clauses`. The main type
// is `SearchState`; the search itself stands in `search`. Nothing here is trusted with an answer.
#![tactic(auto)]

mod agenda;
mod analyze;
mod leave_out;
pub mod literal;
mod propagate;
mod state;
mod store;
pub mod table;
mod trail;
mod watch;

pub use agenda::Agenda;
pub use analyze::Learned;
pub use leave_out::may_leave_out;
pub use state::SearchState;
pub use store::Store;
pub use trail::Trail;
pub use watch::Watches;
