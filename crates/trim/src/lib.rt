// What an accepted refutation stands on: of its lines those alone that the last one needs. It stands on `refutation`
// alone, finds nothing and judges nothing: that the answer is accepted where what is given is so is proved, not tried.
// The main call is `needed_lines`.
#![tactic(auto)]

mod copied;
mod kept;
mod marks;
mod needed;

pub use needed::needed_lines;
