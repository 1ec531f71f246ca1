//! The wanted stanzas of one index.
ghost use Rattle.std.specs.Prelude.{◌≡◌, ◌<◌, ◌≤◌, ◌==◌, IfOk, length, map, take};
ghost use Rattle.std.specs.List.Sorted.{IsNonDecreasingBy, IsPermutation};
ghost use Rattle.unpack_texts.specs.Wanted.{AreOfIndex};

use crate::wanted::Wanted;
use index::IndexEntry;
use std::alloc::{AllocError, Global};

// Whether the stanza is of the index of this number.
fn is_of_index(wanted: &Wanted<'_, '_>, number: usize) -> bool
    ensures { result ≡ (wanted.now.listed.place.index == number) }
{
    wanted.index() == number
}

/// How many of the first stanzas are of the index of this number, of which the first one is.
pub(crate) fn count_of_first(wanted: &[Wanted<'_, '_>], number: usize) -> usize
    requires some { 0 < length wanted.now }
    requires first { AreOfIndex number (take 1 wanted.now) }
    ensures some { 0 < result }
    ensures within { result ≤ length wanted.now }
    ensures of_one { AreOfIndex number (take result wanted.now) }
{
    let mut count = 1;
    while count < wanted.len() && is_of_index(&wanted[count], number) {
        count += 1;
    }
    count
}

/// The stanzas, in the order of their numbers. Memory alone can fail.
pub(crate) fn by_stanza<'p, 'a>(
    alloc: Global,
    group: &[Wanted<'p, 'a>],
) -> Result<Vec<Wanted<'p, 'a>>, AllocError>
    ensures order { IfOk result
        (λ ordered. IsNonDecreasingBy (λ one. one.listed.place.stanza) ordered.items) }
    ensures same { IfOk result (λ ordered. IsPermutation group.now ordered.items) }
{
    let mut ordered = Vec::new(alloc);
    for one in group {
        ordered.push(Wanted::new(one.step(), one.entry()))?;
    }
    ordered.sort_by_key(|one| one.stanza())?;
    Ok(ordered)
}

/// The packages of the stanzas. Memory alone can fail.
pub(crate) fn entries_of<'p, 'a>(
    alloc: Global,
    group: &[Wanted<'p, 'a>],
) -> Result<Vec<&'p IndexEntry<'a>>, AllocError>
    ensures { IfOk result
        (λ entries. map (λ entry. entry.now) entries.items ≡ map (λ one. one.listed) group.now) }
{
    let mut entries = Vec::new(alloc);
    for one in group {
        entries.push(one.entry())?;
    }
    Ok(entries)
}
