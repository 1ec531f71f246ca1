// Refutations whose pairs are named, over a universe: the lines by numbers in place of names and the other way round, and the
// verdict on them. It stands on `named_refutation`, which has the named lines, and on `refutecheck`, which judges lines by
// numbers. The main call is `check_named`.
#![tactic(auto)]

mod check;
mod laws;
mod naming;
mod numbering;

pub use check::check_named;
pub use laws::named_lines_are_numbered_again;
pub use naming::name_pairs;
pub use numbering::{Missing, NumberedLines, number_pairs};
