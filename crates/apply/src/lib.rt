//! A plan that is taken by a journal: where there is none it is made; it is compared with the plan, and the steps that are missing
//! are added. It stands on `journal`, which says what a crash leaves of one step that is added; here the same is said of the whole
//! run. The calls are `begin` and `go_on`, which are over a disk; `catch_up` is over a journal in memory beside it. Begin with
//! `specs/Run.antt`.
#![tactic(auto)]

mod beginning;
mod catching;
mod comparing;
mod error;
mod finishing;
mod laws;
mod running;

pub use beginning::begin;
pub use catching::catch_up;
pub use error::{BeginError, CatchUpError, RunError};
pub use laws::a_run_keeps_each_history;
pub use running::go_on;
