// The end of a plan: whether it is good, and the first reason against it (Policy 7; the reasons are this
// project's own). It stands on `rules`, which says what is against an end, and on the values of `relation`,
// `plancheck_state` and `universe`; it uses nothing of what finds plans. The main call is `first_against`.
#![tactic(auto)]

mod content;
mod end;
mod goal;
mod least;

pub use end::first_against;
