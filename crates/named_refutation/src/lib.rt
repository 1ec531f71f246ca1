// The text of a refutation whose pairs are named: the line `refutation 2`, lines of the indices that it was found over, a line
// for each premise and each derived line, and the line `end N`. It stands on `refutation_text`, of whose text it is the second
// version, and on `plantext`, which cuts lines into words. The main calls are `read_named_refutation` and `write_named_refutation`.
#![tactic(auto)]

mod derived;
mod distinct;
mod index_line;
mod laws;
mod line;
mod named;
mod number;
mod pair;
mod premise;
mod read;
mod write;

pub use laws::a_named_refutation_is_the_text_of_its_lines;
pub use named::{IndexLine, NamedLine, NamedLiteral, NamedPair, NamedPremise, NamedRefutation};
pub use read::read_named_refutation;
pub use write::write_named_refutation;
