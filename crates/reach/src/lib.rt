// The part of a universe that a request can reach: the pairs of names that were present or that goals name, and with a pair
// those that it needs. It stands on `universe` and `providers`, and on nothing that judges. The main call is `reach`, the
// main type is `Part`, which is used in place of a `Universe`.
#![tactic(auto)]

mod closing;
mod marks;
mod needs;
mod pairs_part;
mod reached_part;
mod wanted;

pub use pairs_part::Part;
pub use reached_part::{Reached, reach};
