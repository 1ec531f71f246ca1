// The text of a refutation: the line `refutation 1`, and then a line for each premise and each derived line. It stands
// on `rules`, on `refutation`, which has the lines, and on `plantext`, which cuts lines into words. The main calls are `read_refutation` and `write_refutation`.
#![tactic(auto)]

mod derived;
mod distinct;
mod error;
mod laws;
mod limits;
mod line;
mod number;
mod premise;
mod read;
mod writable;
mod write;

pub use error::{RefutationError, RefutationFault};
pub use laws::a_refutation_is_the_text_of_its_lines;
pub use limits::{LINES, NUMBER, PAIR, WIDTH};
pub use read::read_refutation;
pub use writable::is_writable;
pub use write::write_refutation;
