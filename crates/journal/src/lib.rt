//! A journal of steps that were taken in a status file: each is on the disk before it is acknowledged, and whenever the
//! machine stops, the file is opened to the steps up to one of them. It stands on `disk`, which says what a crash leaves,
//! on `status` for the status file, and on `plantext` for the lines of steps. The main type is `Ledger`, with the
//! calls `create`, `open` and `append`. Begin with `specs/History.antt`.
#![tactic(auto)]

mod adding;
mod bytes;
mod caller;
mod commit;
mod creating;
mod error;
mod header;
mod laws;
mod ledger;
mod opening;
mod payload;
mod reading;
mod spare;

pub use adding::append;
pub use creating::{create, is_unmade};
pub use error::{AppendError, CreateError, OpenError};
pub use laws::{
    a_file_shows_one_history, a_history_is_opened, a_run_of_calls_loses_nothing,
    no_acknowledged_step_is_lost, what_is_unmade_shows_nothing,
};
pub use ledger::{Ledger, RecordedStep};
pub use opening::{open, read_all};
pub use reading::read_journal;
pub use rules::Step;
