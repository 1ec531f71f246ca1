// The judge of refutations: whether every line is a premise of the universe or follows from earlier ones by unit
// propagation along its hints, and the last one's clause is empty. It stands on the definitions of `rules` and
// `refutation`, which it decides, and on `providers`, a library of relations: who has a name, and who matches an atom. It
// shares nothing with what finds refutations (`reach`, `encode`, `search`, `order`). The main call is `check_refutation`.
#![tactic(auto)]

mod check;
mod falses;
mod follow;
mod goals;
mod kept;
mod literals;
mod needs;
mod open;
mod pairs;
mod premise;
mod premises;
mod repeated;
mod seen;
mod sought;
mod starts;
mod verdict;

pub use check::{check_refutation, check_refutation_by};
pub use premise::clause_of;
pub use premises::Premises;
pub use verdict::Verdict;
