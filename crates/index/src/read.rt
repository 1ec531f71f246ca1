//! Indices: the stanzas of a Packages file that count for an architecture (Debian Policy 5.3).
ghost use Rattle.std.specs.Prelude.{◌≡◌, IfOk, map};
ghost use Rattle.index.specs.Names.{names_of};
ghost use Rattle.rules.specs.Names.{HasListedNames};

use crate::index_entry::IndexEntry;
use crate::kept::KeptIndex;
use crate::names::distinct_names;
use indexmap::IndexSet;
use rules::Release;
use std::alloc::{AllocError, Global};
use std::marker::Model;

/// An index: its release keys, the stanzas that count, in the order of the text, and how many were skipped, since they
/// are of another architecture.
#[derive(Drop)]
pub struct Index<'a> {
    release: Release,
    entries: Vec<IndexEntry<'a>>,
    skipped: usize,
}

impl<'a> Model for Index<'a> {
    ghost use Rattle.index.specs.Index.{ReadIndex};
    ghost use Rattle.rules.specs.Names.{HasListedNames};

    ghost Value = { ReadIndex };

    ghost view = { λ i. record { index = record { release = i.release; listed = i.entries.items }; skipped = i.skipped } };

    ghost invariant = { λ i. HasListedNames i.entries.items };
}

impl<'a> Index<'a> {
    /// The index that was kept, with these release keys. Its packages borrow what was kept. Memory alone can fail. Linear in the
    /// packages.
    pub fn of(alloc: Global, kept: &'a KeptIndex, release: Release) -> Result<Index<'a>, AllocError>
        ensures { IfOk result (λ index. index ≡ record {
          index = record { release = release; listed = kept.now.listed };
          skipped = kept.now.skipped;
        }) }
    {
        let entries = kept.entries(alloc)?;
        Ok(Index {
            release,
            entries,
            skipped: kept.skipped_count(),
        })
    }

    /// The release keys.
    pub fn release(&self) -> &Release
        ensures { result.now ≡ self.now.index.release }
    {
        &self.release
    }

    /// The stanzas that count, in the order of the text.
    pub fn packages(&self) -> &[IndexEntry<'a>]
        ensures items { result.now ≡ self.now.index.listed }
        ensures named { HasListedNames self.now.index.listed }
    {
        self.entries.as_slice()
    }

    /// The names of the packages, each once, in the order in which each is first read. Memory alone can fail. Linear in the
    /// packages.
    pub fn names(&self, alloc: Global) -> Result<IndexSet<&'a [u8]>, AllocError>
        ensures { IfOk result
            (λ names. map (λ name. name.now) names.keys ≡ names_of self.now.index.listed) }
    {
        distinct_names(alloc, self.packages())
    }

    /// How many stanzas are of another architecture.
    pub fn skipped_count(&self) -> usize
        ensures { result ≡ self.now.skipped }
    {
        self.skipped
    }
}
