// Preferences files (apt_preferences(5)), and the priorities that they give to versions. It stands on `rules`, which has
// the records and says what priorities mean, on `stanza`, which cuts control text, and on `debversion`.
// The main type is `Prefs`, and the calls `Prefs::read` and `Prefs::priority`.
#![tactic(auto)]

mod error;
mod matching;
mod names;
mod number;
mod origin;
mod pin;
mod prefs;
mod priority;
mod record;
mod release_pin;
mod words;

pub use error::{PrefsError, PrefsFault, PrefsField};
pub use origin::Origin;
pub use prefs::Prefs;
