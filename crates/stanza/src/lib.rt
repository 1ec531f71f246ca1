//! Control text (Debian Policy, chapter 5): a text is cut into stanzas, and a stanza into fields.
//! `Stanzas::new` reads the plain form, `Stanzas::with_comments` the form in which a line that begins
//! with `#` is a comment. Both walk over borrowed bytes, and take no memory.
//! The definitions that the contracts cite stand in `specs/`, `Stanza.antt` last.
#![tactic(auto)]

mod ahead;
mod entries;
mod error;
mod form;
mod front;
mod held;
mod known;
pub mod laws;
mod lines;
mod names;
mod reader;
mod seen;
mod source;
mod starts;
mod values;
mod view;
mod walk;

pub use entries::{Field, Fields};
pub use error::{ReaderError, StanzaError};
pub use form::Form;
pub use reader::Reader;
pub use source::{ReadFailed, Source};
pub use starts::{FieldAt, ReadFields, ReadStanza};
pub use view::Stanza;
pub use walk::Stanzas;
