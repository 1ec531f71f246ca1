//! The stanzas of pairs that one index has.
ghost use Rattle.std.specs.Prelude.{◌≡◌, IfOk, map};
ghost use Rattle.std.specs.List.Sorted.{IsNonDecreasingBy, IsPermutation};
ghost use Rattle.unpack_texts.specs.Stanzas.{AreWanted};

use crate::pair_stanza::PairStanza;
use index::IndexEntry;
use std::alloc::{AllocError, Global};
use std::marker::Model;

/// A pair whose stanza is wanted, by its place, counted from 0. The stanza is lent.
#[derive(Drop)]
pub(crate) struct WantedPair<'p, 'a> {
    place: usize,
    entry: &'p IndexEntry<'a>,
}

impl<'p, 'a> Model for WantedPair<'p, 'a> {
    ghost use Rattle.unpack_texts.specs.Stanzas.{WantedStanza};

    ghost Value = { WantedStanza };

    ghost view = { λ w. record { place = w.place; listed = w.entry.now } };
}

impl<'p, 'a> WantedPair<'p, 'a> {
    // The stanza of the pair at this place.
    fn new(place: usize, entry: &'p IndexEntry<'a>) -> WantedPair<'p, 'a>
        ensures { result ≡ record { place = place; listed = entry.now } }
    {
        WantedPair { place, entry }
    }

    /// The place of the pair.
    pub(crate) fn place(&self) -> usize
        ensures { result ≡ self.now.place }
    {
        self.place
    }

    /// The package of the stanza.
    pub(crate) fn entry(&self) -> &'p IndexEntry<'a>
        ensures { result.now ≡ self.now.listed }
    {
        self.entry
    }

    // The number of the stanza in its index.
    fn stanza(&self) -> usize
        ensures { result ≡ self.now.listed.place.stanza }
    {
        self.entry.place().stanza
    }
}

/// The stanzas of the index of this number, in the order of the pairs. Memory alone can fail. Linear in the pairs.
pub(crate) fn wanted_of<'p, 'a>(
    alloc: Global,
    stanzas: &[PairStanza<'p, 'a>],
    number: usize,
) -> Result<Vec<WantedPair<'p, 'a>>, AllocError>
    ensures { IfOk result (λ wanted. AreWanted number stanzas.now wanted.items) }
{
    let mut wanted = Vec::new(alloc);
    for i in 0..stanzas.len() {
        match stanzas[i].of_index(number) {
            Some(entry) => wanted.push(WantedPair::new(i, entry))?,
            None => {}
        }
    }
    Ok(wanted)
}

/// The same stanzas, in the order in which their index has them. Memory alone can fail.
pub(crate) fn by_stanza<'p, 'a>(
    wanted: Vec<WantedPair<'p, 'a>>,
) -> Result<Vec<WantedPair<'p, 'a>>, AllocError>
    ensures order { IfOk result
        (λ ordered. IsNonDecreasingBy (λ one. one.listed.place.stanza) ordered.items) }
    ensures same { IfOk result (λ ordered. IsPermutation wanted.entry.items ordered.items) }
{
    let mut ordered = wanted;
    ordered.sort_by_key(|one| one.stanza())?;
    Ok(ordered)
}

/// The packages of the stanzas. Memory alone can fail.
pub(crate) fn entries_of<'p, 'a>(
    alloc: Global,
    wanted: &[WantedPair<'p, 'a>],
) -> Result<Vec<&'p IndexEntry<'a>>, AllocError>
    ensures { IfOk result
        (λ entries. map (λ entry. entry.now) entries.items ≡ map (λ one. one.listed) wanted.now) }
{
    let mut entries = Vec::new(alloc);
    for one in wanted {
        entries.push(one.entry())?;
    }
    Ok(entries)
}
