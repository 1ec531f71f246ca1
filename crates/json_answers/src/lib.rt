// Answers as JSON texts (RFC 8259), for programs to read: the text of an answer, and beside it steps, lines, verdicts and candidates
// as objects. It stands on `serde_json` for the values and their text, on `universe` for the names and versions of pairs, and on
// `stanza` for the fields of the stanzas that a plan unpacks. The main type is `Members`, the main call `document`.
#![tactic(auto)]

mod archives;
mod candidates;
mod lines;
mod members;
mod offers;
mod pairs;
mod premise_texts;
mod premises;
mod printed;
mod reading;
mod sentences;
mod sizes;
mod steps;
mod texts;
mod unpacked;
mod values;
mod verdicts;
mod words;

pub use archives::{Archive, Archives};
pub use candidates::{candidate_value, no_candidate_value};
pub use lines::put_lines;
pub use members::Members;
pub use printed::{document, line_of, refused_document, text_object};
pub use reading::read_archives;
pub use sentences::{put_text_lines, told_value};
pub use steps::put_steps;
pub use texts::{put_text, text_value};
pub use values::push_value;
pub use verdicts::{put_bad_line, put_undecided, put_verdict};
