// The search for a selection of numbers that makes every clause true, or for a refutation: conflict-driven, with two
// watched literals a clause, lines learned at the first unique implication point, and no restarts. It stands on
// `clauses` and on `search_state`, which holds what is searched and takes the steps. The main call is `search`; its
// contract speaks of the answer alone (`answer`), and nothing that finds an answer is trusted with it.
#![tactic(auto)]

mod answer;
mod choice;
mod improve;
mod pass;
mod run;
mod start;
mod trim;

pub use answer::{SearchAnswer, search};
pub use trim::{Derivation, DerivedClause};
