//! Which packages of the indices can't be installed: whether a request for each of them by itself, beside every name that is marked
//! essential, has an acceptable selection. It stands on `inputs`, which reads each request over one reading, and on
//! `solver::decide`. The main type is `Installable`; begin with `specs/Answers.antt`.
#![tactic(auto)]

mod answer;
mod asked;
mod essential;
mod named;
mod over;
mod question;
mod request_text;
mod shard;

pub use answer::{Installability, PackageAnswer, Refuted, Surveyed};
pub use question::Installable;
pub use shard::{Shard, shards_are_the_whole};
