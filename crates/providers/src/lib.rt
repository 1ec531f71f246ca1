//! Which packages of a list have a name or provide it, and which match an atom, by ranges of versions (Policy 7.1, 7.5).
//! It stands on `relation`, whose packages it is built of, and on `universe_parts`, whose pairs have packages. The main type is
//! `Providers`, with the calls `of` and `matching`.
#![tactic(auto)]

mod offer;
mod places;
mod prefix;
mod providers;
mod range;
mod run;
mod seen;
mod spans;
mod ticks;
mod unsorted;

pub use providers::Providers;
pub use ticks::Ticks;
