//! The names of an index's packages, each once.
ghost use Rattle.std.specs.Prelude.{◌≡◌, IfOk, map};
ghost use Rattle.index.specs.Names.{names_of};

use crate::index_entry::IndexEntry;
use indexmap::IndexSet;
use std::alloc::{AllocError, Global};

// The names of these packages, each once, in the order in which each comes first.
pub fn distinct_names<'a>(
    alloc: Global,
    entries: &[IndexEntry<'a>],
) -> Result<IndexSet<&'a [u8]>, AllocError>
    ensures { IfOk result (λ names. map (λ name. name.now) names.keys ≡ names_of entries.now) }
{
    let mut names = IndexSet::new(alloc);
    for entry in entries {
        names.insert(entry.name())?;
    }
    Ok(names)
}
