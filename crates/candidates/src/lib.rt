// What the start and the indices have of each name: which versions may be chosen, with the priorities that the preferences
// give, and the candidate. It stands on `rules`, which says what candidates are, and on `pins`. The main type is `NameTable`.
#![tactic(auto)]

mod known;
mod names;
mod of_name;
mod of_version;
mod offer;
mod order;
mod place;
mod prefix;
mod rated;
mod recorded;

pub use known::is_free;
pub use names::{NameTable, NamesLeft, OfName};
pub use of_name::{candidate, eligible};
pub use of_version::priority;
pub use offer::{Offer, candidate_of};
pub use order::{OrderedEntry, stanza_of};
pub use recorded::{Recorded, records_in};
