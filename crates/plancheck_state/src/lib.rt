//! The status database of dpkg as the checkers of plans read it: its records, each with its package, which is parsed once. It
//! stands on `rules`, which says what the words of a record mean, on `status_text`, whose records these are, on `relation`, and
//! on `index` for what is unpacked. The main type is `StateRecord`, the main calls `parse_packages` and `view`.
#![tactic(auto)]

mod copies;
mod holder;
mod installed;
mod lookup;
mod matching;
mod package_record;
mod packages;
mod place_list;
mod places;
mod records;
mod step;
mod unpacking;

pub use copies::try_copy;
pub use holder::Holders;
pub use installed::{are_met, has_member, has_version, is_met};
pub use lookup::Records;
pub use matching::{breaks_other, conflicts_with, is_same, matches_some};
pub use package_record::StateRecord;
pub use packages::parse_packages;
pub use records::view;
pub use rules::{Flag, State, Step, Want};
