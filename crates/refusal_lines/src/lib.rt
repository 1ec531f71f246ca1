//! The lines that the program prints of refusals (docs/FORMATS.md, section 14): of each the place, the code, its name and its values,
//! byte for byte. Begin with `specs/Texts.antt`; the main call is `refusal_line`.
#![tactic(auto)]

mod journals;
mod lines;
mod texts;
mod words;

pub use lines::{refusal_line, refusal_words, stopped_line, unbegun_line};
