// Refutations as they are written, in either version of their text: read, judged, and written with their pairs named. It stands on
// `refutation_text` and `named_refutation`, which have the texts, and on `refutecheck` and `named_lines`, which judge them. The main
// calls are `read_written`, `check_written` and `write_naming`.
#![tactic(auto)]

mod check;
mod laws;
mod read;
mod write;
mod written;

pub use check::{JudgedLines, check_written};
pub use laws::{a_written_refutation_has_one_verdict, named_lines_are_accepted};
pub use named_lines::{Missing, NumberedLines};
pub use read::read_written;
pub use write::write_naming;
pub use written::WrittenRefutation;
