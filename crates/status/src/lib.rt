//! The status database of dpkg (dpkg(1), "Package states"; Debian Policy 5.1): the stanzas of a status file in their order,
//! with the actions of dpkg applied in place, and its text. It stands on `status_text`, which reads and spells stanzas, and
//! on `index` for what is unpacked. The main type is `Database`.
#![tactic(auto)]

mod action;
mod apply;
mod database;
mod error;
mod fields;
mod laws;
mod table;
mod touch;
mod unpack;
mod words;
mod write;

pub use database::Database;
pub use error::{ApplyError, StepName};
pub use laws::{
    entries_are_written, what_was_read_reads_back, what_was_touched_reads_back,
    what_was_unpacked_reads_back,
};
pub use rules::Step;
pub use status_text::{StatusError, StatusFault, StatusRecord};
