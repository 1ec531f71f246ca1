// Clauses of literals over numbers, as a search takes them, and beside them what tells it where to begin: which clauses
// have no owner, which clauses a number depends by, and what is wished. It stands on nothing of this repository. The main
// type is `Clauses`.
#![tactic(auto)]

mod clauses;
mod lists;
mod span;

pub use clauses::Clauses;
pub use lists::Lists;
pub use span::Span;
