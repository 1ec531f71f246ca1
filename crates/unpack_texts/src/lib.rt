//! The texts that a journal records with the steps of a plan: of an unpacking that of its stanza, which is fetched in a second
//! opening of its index. What was read of a stanza at first is looked for again: where the stanza isn't there any more, or is
//! another package, the index has changed. It stands on `stanza` for the reading, on `index` for the packages and on `inputs`
//! for the shelf that the indices are opened from. The call is `fetch_texts`, over `fetch`, which reads one index, and beside
//! it `FetchedStanzas` has the stanzas of all pairs of a universe; begin with `specs/Fetched.antt` and `specs/Texts.antt`.
#![tactic(auto)]

mod ending;
mod error;
mod fetching;
mod filling;
mod group;
mod opening;
mod pair_stanza;
mod raw_stanza;
mod reaching;
mod same;
mod stanzas;
mod texts;
mod wanted;
mod wanted_pair;

pub use error::FetchError;
pub use fetching::{fetch, in_order};
pub use raw_stanza::{RawStanza, lend_texts};
pub use stanzas::FetchedStanzas;
pub use texts::fetch_texts;
