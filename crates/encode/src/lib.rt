// The clauses of a universe, as a search takes them: every premise of the universe with its clause over the numbers of
// the pairs, and beside them what tells a search where to begin. It stands on the definitions of `rules` and
// `refutation`, and on `providers`. The main calls are `encode` and, for a part of a universe, `encode_part`.
#![tactic(auto)]

mod against;
mod basis;
mod choice;
mod encoding;
mod facts;
mod goals;
mod laws;
mod literals;
mod matching;
mod needs;
mod preferences;
mod premises;
mod query;
mod starts;
mod wishes;

pub use basis::Basis;
pub use encoding::Encoding;
pub use laws::true_selection_is_acceptable;
pub use premises::{encode, encode_part};
