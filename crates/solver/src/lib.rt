// Solves a request over its universe: encodes it into clauses, searches, puts a selection in order, and has what was found
// judged. It stands on `encode`, `search` and `order`, which find, and on the judges, which share nothing with these. The main calls are `solve`
// and, where only an acceptable selection is asked for, `decide`.
#![tactic(auto)]

mod convert;
mod decide_request;
mod decided;
mod judged;
mod lift;
mod plan;
mod solve_request;
mod solved;

pub use decide_request::decide;
pub use decided::Decided;
pub use solve_request::solve;
pub use solved::{Solved, Undecided};
