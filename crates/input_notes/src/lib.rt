// What a person is told of inputs that change no answer (a record of the preferences, a target release, an index), of names
// that no package has or that have no candidate, and of the versions of a name. It stands on the readers alone: no judge and nothing
// that finds uses it. The main calls are `idle_inputs`, `without_candidate`, `versions_of`, `rating_of` and `providers_of`.
#![tactic(auto)]

mod idle;
mod indices;
mod names;
mod pinned;
mod providers;
mod rating;
mod versions;
mod words;

pub use idle::idle_inputs;
pub use names::without_candidate;
pub use providers::providers_of;
pub use rating::{Rating, rating_of};
pub use versions::versions_of;
