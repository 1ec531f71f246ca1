//! A plan made ready by texts to be carried out: it is judged by the texts of a shelf, as `cli_engine` judges it, and where it is good
//! the texts of the stanzas that it unpacks are fetched. Then a journal takes it on a disk. The question is `Prepare`; a `GoodPlan`
//! has the calls over a disk, `begin` and `go_on`. Begin with `specs/Prepared.antt`.
#![tactic(auto)]

mod good_plan;
mod judging;
mod question;
mod readying;

pub use good_plan::{CarriedOut, GoodPlan};
pub use question::{Prepare, Prepared};
