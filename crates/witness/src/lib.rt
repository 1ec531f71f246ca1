//! What stands against a step of a plan that isn't allowed: which clause, which package, who needs it (Policy 7.2 to 7.4).
//! It stands on `plancheck`, which judges plans and takes their steps, and on the records of `plancheck_state`. The main
//! type is `Witness`, the main call `find_witness`.
#![tactic(auto)]

mod clauses;
mod configure;
mod find;
mod remove;
mod step;
mod taken;
mod unpack;
mod witness;

pub use clauses::first_unmet;
pub use find::find_witness;
pub use step::witness_of;
pub use taken::turn;
pub use unpack::{first_broken, own_conflict};
pub use witness::{ClauseField, Direction, Witness};
