//! What the texts before a request are read as.
use crate::settings::Settings;
use index::Index;
use pins::Prefs;
use status_text::StatusFile;

/// What the texts before a request are read as, all of it lent, and for what they are read. A request is read and answered over it,
/// and over the same reading another one.
#[derive(Clone, Copy)]
pub struct Before<'c, 's, 'f, 'n, 't, 'p, 'i, 'a> {
    /// For which architecture and target release they are read.
    pub settings: &'c Settings<'s>,
    /// The status file.
    pub status_file: &'f StatusFile<'a>,
    /// The files that the sources name, one for each index.
    pub files: &'n [&'t [u8]],
    /// The indices.
    pub indices: &'i [Index<'a>],
    /// The preferences.
    pub prefs: &'p Prefs,
}
