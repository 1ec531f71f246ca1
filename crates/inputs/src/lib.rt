//! The texts that a request is answered from, read into values: the status file, the sources, the indices, the preferences
//! and the request, in this order, each at its turn from a shelf. It judges nothing and solves nothing. The main call is
//! `ask`, which answers a `Question`; begin with `specs/Texts.antt` and `specs/Meaning.antt`.
#![tactic(auto)]

mod before;
mod each;
mod indices;
mod inputs;
mod laws;
mod preferences;
mod question;
mod refusal;
mod request;
mod settings;
mod shelf;
mod sources;
mod status_file;
mod status_refusal;
mod texts;

pub use before::Before;
pub use each::{Each, OverRequest};
pub use indices::{lend_indices, read_indices, read_listed};
pub use inputs::{Inputs, MemoryShelf};
pub use laws::{a_meaning_is_not_refused, texts_have_one_meaning};
pub use preferences::read_preferences;
pub use question::{Question, ask, ask_bytes};
pub use refusal::{Fault, Input, Refusal, refused_at};
pub use request::{Requested, listed_in, read_requested, requested_in};
pub use settings::Settings;
pub use shelf::{Progress, ReadError, Shelf, WholeText};
pub use sources::{read_sources, read_sources_text};
pub use stanza::{ReadFailed, Source};
pub use status_file::{StatusText, read_status, read_status_file};
pub use status_refusal::{NamedPackage, StatusRefusal};
pub use texts::{open_index, read_part};
