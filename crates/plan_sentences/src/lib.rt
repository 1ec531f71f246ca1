//! The verdict of a plan in sentences: of a no the step, its rule and what stands against it; of a yes what the plan changes,
//! name by name. It stands on `witness`, which finds what stands against a step, and on the records of `plancheck_state`. The
//! main call is `verdict_sentences`.
#![tactic(auto)]

mod against;
mod bare;
mod changes;
mod end;
mod further;
mod goals;
mod good;
mod kind;
mod lines;
mod named;
mod names;
mod no;
mod removal;
mod shown;
mod start;
mod told;
mod words;

pub use good::{change_sentences, verdict_sentences};
pub use no::no_sentences;
