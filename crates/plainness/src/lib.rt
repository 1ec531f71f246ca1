// Whether a change from a start to a selection is plain: whether no step of it can stand in another's way. It stands on
// `plain`, which says what that is, on the values of `plancheck_state` and `universe`, and on what `plancheck` says of a name; it
// uses nothing of what finds plans. The call is `is_plain`.
#![tactic(auto)]

mod change;
mod left;
mod members;
mod names;
mod no_clash;
mod packages;
mod ready;
mod unpacked;

pub use change::is_plain;
