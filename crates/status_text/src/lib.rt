//! The text of dpkg's status file (dpkg(1), "Package states"; Debian Policy 5.1): its stanzas, in order, with the records
//! of the database that plans are judged on, or the first refusal; and how stanzas are written. It stands on `stanza`,
//! `relation` and `rules`. The main type is `StatusFile`, the main call `StatusFile::read`.
#![tactic(auto)]

mod alone;
mod entry;
mod error;
mod file;
pub mod laws;
mod mark;
mod name;
mod package;
mod read;
mod record;
mod seen;
mod slot;
mod walk;
mod words;
mod write;

pub use alone::read_alone;
pub use error::{StatusError, StatusFault, StatusField};
pub use file::StatusFile;
pub use name::PackageName;
pub use package::TestedPkg;
pub use read::read_status;
pub use record::StatusRecord;
pub use slot::Slot;
pub use words::Mark;
pub use write::{write_bytes, write_field};
