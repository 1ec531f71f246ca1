// As much of a request as can be: goals that a core of a refutation names are left out, one after the other, the least wanted
// first, until there is a plan; and then each that can be had alone beside it is put back. It stands on `inputs` and `cli_engine`,
// which read and solve each request, and on `refutation_sentences`, which finds the core. The main type is `KeepBack`, a question of
// `inputs::ask`; begin with `specs/KeptBack.antt`.
#![tactic(auto)]

mod back;
mod cost;
mod keep_back;
mod kept;
mod least_wanted;
mod left;
mod named;
mod note;
mod round;

pub use keep_back::{KeepBack, KeptBack, keep};
