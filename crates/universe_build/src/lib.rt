// Builds the universe of a request from the records of the start, the indices, the preferences and the goals. It stands on
// `rules`, which says which pairs are admitted, and on `candidates`. The main function is `build`,
// and `Listing` is for many requests.
#![tactic(auto)]

mod asked;
mod built;
mod error;
mod listing;
mod pairs;
mod walk;

pub use built::build;
pub use error::UniverseError;
pub use listing::Listing;
