// The indices that add no version to those before them.
ghost use Rattle.std.specs.Prelude.{◌≡◌, ◌+◌, ◌^◌, ◌<◌, ◌∷◌, [], ◌++◌, OnOk, if◌then◌else◌};
ghost use Rattle.std.specs.List.{list_all};
ghost use Rattle.input_notes.specs.Indices as Spec;
ghost use Rattle.input_notes.specs.Keys.{AddsKeys, has_key_of};

use debversion::Version;
use index::{Index, IndexEntry};
use indexmap::IndexSet;
use phrases::push_count;
use std::alloc::{AllocError, Global};

// Whether the table has the name and the version of the stanza.
fn has_key<'a>(table: &IndexSet<(&'a [u8], Version<'a>)>, entry: &IndexEntry<'a>) -> bool
    ensures { result ≡ has_key_of table.now.keys entry.now }
{
    table.contains(&(entry.name(), entry.version()))
}

// Whether the table has those of all of the stanzas.
fn has_keys<'a>(table: &IndexSet<(&'a [u8], Version<'a>)>, entries: &[IndexEntry<'a>]) -> bool
    ensures { result ≡ list_all (has_key_of table.now.keys) entries.now }
{
    entries.iter().all(|entry| has_key(table, entry))
}

// Puts the name and the version of the stanza into the table, unless they are there.
fn insert_one<'a>(
    table: &mut IndexSet<(&'a [u8], Version<'a>)>,
    entry: &IndexEntry<'a>,
) -> Result<(), AllocError>
    ensures { OnOk result (AddsKeys table.old.keys table.new.keys (entry.now ∷ [])) }
{
    table.insert((entry.name(), entry.version()))?;
    Ok(())
}

// Puts the names and the versions of the stanzas into the table, each once.
fn insert_all<'a>(
    table: &mut IndexSet<(&'a [u8], Version<'a>)>,
    entries: &[IndexEntry<'a>],
) -> Result<(), AllocError>
    ensures { OnOk result (AddsKeys table.old.keys table.new.keys entries.now) }
{
    for entry in entries {
        insert_one(table, entry)?;
    }
    Ok(())
}

// Why an index of these stanzas adds nothing.
fn why_none(entries: &[IndexEntry<'_>]) -> &'static [u8]
    ensures { result.now ≡ Spec.why_none entries.now }
{
    match entries {
        [] => b" adds nothing: it has no package for this architecture.\n",
        _ =>
            b" adds no version: an index before it has each of its own. It may give one of them another priority.\n",
    }
}

// Writes that the index of this number adds nothing.
fn push_index_line(
    text: &mut Vec<u8>,
    number: usize,
    entries: &[IndexEntry<'_>],
) -> Result<(), AllocError>
    ensures { OnOk result (text.new.items ≡ text.old.items ++ Spec.index_line number entries.now) }
{
    text.extend_from_slice(b"Index ")?;
    push_count(text, number)?;
    text.extend_from_slice(why_none(entries))
}

// Writes that the index at this place adds nothing, where the table of those before it has each of its versions.
fn push_index<'a>(
    text: &mut Vec<u8>,
    place: usize,
    table: &IndexSet<(&'a [u8], Version<'a>)>,
    entries: &[IndexEntry<'a>],
) -> Result<(), AllocError>
    requires { place + 1 < 2 ^ 64 }
    ensures { OnOk result (text.new.items ≡ text.old.items
        ++ (if list_all (has_key_of table.now.keys) entries.now
        then Spec.index_line (place + 1) entries.now else [])) }
{
    if has_keys(table, entries) {
        return push_index_line(text, place + 1, entries);
    }
    Ok(())
}

/// Writes which indices add no version to those before them. Memory alone can fail.
pub(crate) fn push_indices(
    alloc: Global,
    text: &mut Vec<u8>,
    indices: &[Index<'_>],
) -> Result<(), AllocError>
    ensures { OnOk result (text.new.items ≡ text.old.items ++ Spec.idle_indices indices.now) }
{
    let mut table = IndexSet::new(alloc);
    for (place, index) in indices.iter().enumerate() {
        let entries = index.packages();
        push_index(text, place, &table, entries)?;
        insert_all(&mut table, entries)?;
    }
    Ok(())
}
