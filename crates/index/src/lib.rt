//! What an index of packages has (Debian Policy 5.3, "Packages"): the stanzas that count for an architecture, with
//! their packages; and the sources text, which names the indices. It stands on `stanza` and `relation`.
//! The main calls are `read_sources` and `KeptIndex::read_from`.
#![tactic(auto)]

mod alone;
mod error;
mod index_entry;
mod index_package;
mod index_stanza;
mod item;
mod kept;
pub mod laws;
mod names;
mod read;
mod row;
mod rows;
mod sources;
mod stream;
mod stream_error;
mod walk;

pub use alone::read_alone;
pub use error::{IndexError, IndexFault, SourcesError, SourcesFault};
pub use index_entry::IndexEntry;
pub use index_package::IndexPackage;
pub use index_stanza::IndexStanza;
pub use kept::KeptIndex;
pub use read::Index;
pub use sources::{IndexSource, read_sources};
pub use stanza::{ReadFailed, Source};
pub use stream_error::StreamError;
