//! The stanzas of the pairs of a universe, fetched index by index.
ghost use Rattle.std.specs.Prelude.{◌≡◌, ◌≢◌, ◌<◌, ◌+◌, ◌-◌, ◌^◌, ℕ, List, None, Some, IfErr, IfOk, OnOk, length, map, min, true};
ghost use Rattle.std.specs.List.{All, list_all};
ghost use Rattle.std.specs.Option.{option_copied};
ghost use Rattle.unpack_texts.specs.Fetched.{items_in};
ghost use Rattle.unpack_texts.specs.Stanzas.{AreAfter, AreAfterSome, HasGone, filled, is_there, numbered_bytes, pair_stanzas};
ghost use Rattle.unpack_texts.specs.declared.error.FetchError.TheVariants as error;

use crate::error::FetchError;
use crate::fetching::fetch;
use crate::pair_stanza::PairStanza;
use crate::wanted_pair::{WantedPair, by_stanza, entries_of, wanted_of};
use stanza::Source;
use std::alloc::{AllocError, Global};
use std::marker::Model;
use universe::{Pair, Universe};

/// The stanzas that the pairs of a universe have in the indices, whose bytes are fetched index by index in a second reading.
/// It owns the bytes that were fetched.
#[derive(Drop)]
pub struct FetchedStanzas<'p, 'a> {
    stanzas: Vec<PairStanza<'p, 'a>>,
}

impl<'p, 'a> Model for FetchedStanzas<'p, 'a> {
    ghost use Rattle.std.specs.Prelude.{List};
    ghost use Rattle.unpack_texts.specs.Stanzas.{PairStanza as PairStanzaValue};

    ghost Value = { List PairStanzaValue };

    ghost view = { λ f. f.stanzas.items };
}

// The stanzas of these pairs, of which none was fetched.
fn pair_stanzas<'p, 'a>(
    alloc: Global,
    pairs: &[Pair<'p, 'a>],
) -> Result<Vec<PairStanza<'p, 'a>>, AllocError>
    ensures { IfOk result (λ stanzas. stanzas.items ≡ pair_stanzas pairs.now) }
{
    let mut stanzas = Vec::new(alloc);
    for pair in pairs {
        stanzas.push(PairStanza::without_bytes(pair.index_entry()))?;
    }
    Ok(stanzas)
}

// Puts each text at the place of the pair of its stanza.
fn fill<'p, 'a>(
    stanzas: &mut Vec<PairStanza<'p, 'a>>,
    wanted: &[WantedPair<'p, 'a>],
    texts: Vec<Vec<u8>>,
)
    requires count { length texts.items ≡ length wanted.now }
    requires within { All (λ one. one.place < length stanzas.old.items) wanted.now }
    ensures { stanzas.new.items
        ≡ filled stanzas.old.items wanted.now (map (λ text. text.items) texts.items) }
{
    let mut at = 0;
    for text in texts {
        stanzas[wanted[at].place()] = PairStanza::with_bytes(wanted[at].entry(), text);
        at += 1;
    }
}

impl<'p, 'a> FetchedStanzas<'p, 'a> {
    /// The stanzas of the universe's pairs, of which none was fetched. Memory alone can fail. Linear in the pairs.
    pub fn new(
        alloc: Global,
        universe: &Universe<'p, 'a>,
    ) -> Result<FetchedStanzas<'p, 'a>, AllocError>
        ensures { IfOk result (λ stanzas. stanzas ≡ pair_stanzas universe.now.pairs) }
    {
        let stanzas = pair_stanzas(alloc, universe.pairs())?;
        Ok(FetchedStanzas { stanzas })
    }

    /// Fetches the stanzas of all pairs that have one in the index of this number, counted from 1, whose text the source has.
    /// It is read up to the last of them. `E28 Changed` and `E5` are answered as `fetch` does, and what was there stays as it
    /// was. Linear in the pairs and in the text up to there, but for the order of the stanzas, n log n.
    pub fn fetch<S: Source>(
        &mut self,
        alloc: Global,
        number: usize,
        source: &mut S,
        arch: &[u8],
    ) -> Result<(), FetchError>
        ensures fetched { (text : List ℕ) → S.left source.old ≡ Some text
            → OnOk result (AreAfter arch.now text number self.old self.new) }
        ensures some { OnOk result (AreAfterSome number self.old self.new) }
        ensures unchanged { IfErr result (λ _. self.new ≡ self.old) }
        ensures changed { (text : List ℕ) → S.left source.old ≡ Some text → IfErr result (λ e.
            e ≡ error.Changed → HasGone arch.now (items_in text) number self.old) }
        ensures known { (text : List ℕ) → S.left source.old ≡ Some text
            → IfErr result (λ e. e ≢ error.Read) }
        ensures sure { S.is_sure source.old ≡ true → IfErr result (λ e. e ≢ error.Read) }
        ensures count { OnOk result (S.faults source.new ≡ S.faults source.old) }
        ensures failed { IfErr result
            (λ e. e ≡ error.Read → S.faults source.new
            ≡ min (S.faults source.old + 1) (2 ^ 64 - 1)) }
    {
        let wanted = by_stanza(wanted_of(alloc, self.stanzas.as_slice(), number)?)?;
        let entries = entries_of(alloc, wanted.as_slice())?;
        let texts = fetch(alloc, source, arch, entries.as_slice())?;
        fill(&mut self.stanzas, wanted.as_slice(), texts);
        Ok(())
    }

    /// The bytes of the stanza of the pair of this number, counted from 1: nothing until its index was fetched, and where the
    /// indices have no stanza of the pair.
    pub fn stanza(&self, number: u32) -> Option<&[u8]>
        ensures { option_copied result ≡ numbered_bytes number self.now }
    {
        let place = number.checked_sub(1)?;
        match self.stanzas.get(place as usize) {
            Some(one) => one.bytes(),
            None => None,
        }
    }

    /// Whether the stanzas of all pairs that have one were fetched. Linear in the pairs.
    pub fn is_fetched(&self) -> bool
        ensures { result ≡ list_all is_there self.now }
    {
        self.stanzas.iter().all(|one| one.is_there())
    }
}
