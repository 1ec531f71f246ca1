// The parts of what a request chooses from: the admitted pairs of names and versions, each with its package and its stanza
// in the indices, the facts of the start and the candidates. `universe` puts them together.
#![tactic(auto)]

mod candidate;
mod candidates;
mod packages;
mod pair;
mod pairs;
mod provides;
mod start;
mod starts;

pub use candidate::Candidate;
pub use candidates::Candidates;
pub use packages::{CountingPkg, lend_packages, packages_of};
pub use pair::Pair;
pub use pairs::Pairs;
pub use provides::CountingProvides;
pub use start::Start;
pub use starts::Starts;
