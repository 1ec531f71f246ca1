// What a request chooses from: the admitted pairs of names and versions, each with its package and its stanza
// in the indices, the facts of the start and the candidates, which universes share, and the goals. The main type is `Universe`.
#![tactic(auto)]

mod admitted;
mod universe;

pub use admitted::Admitted;
pub use index::IndexEntry;
pub use universe::Universe;
pub use universe_parts::{
    Candidate, Candidates, CountingPkg, CountingProvides, Pair, Pairs, Start, Starts, lend_packages,
};
