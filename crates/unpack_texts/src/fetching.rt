//! Fetching stanzas in a second reading of their index.
ghost use Rattle.std.specs.Prelude.{◌≡◌, ◌≢◌, ◌↔◌, ◌⊎◌, ◌+◌, ◌-◌, ◌^◌, ℕ, List, None, Some, true, IfErr, IfOk, IsTrue, OnOk, length, map, min};
ghost use Rattle.std.specs.List.Sorted.{IsNonDecreasingBy, IsPermutation};
ghost use Rattle.unpack_texts.specs.Fetched.{AreFetched, HasRead, IsChanged, IsFetched, IsGone, IsSamePackage, Items, items_in};
ghost use Rattle.unpack_texts.specs.declared.error.FetchError.TheVariants as error;

use crate::error::FetchError;
use crate::reaching::reach;
use crate::same::is_same;
use index::{IndexEntry, IndexStanza, read_alone};
use rules::TEXT_BYTES;
use stanza::{Reader, Source};
use std::alloc::{AllocError, Global};

// Whether the stanza is of the same package as the entry.
fn is_same_package(
    alloc: Global,
    indexed: &IndexStanza<'_>,
    wanted: &IndexEntry<'_>,
) -> Result<bool, AllocError>
    ensures { IfOk result (λ same. IsTrue same
        ↔ ((indexed.now.listed.pkg ≡ wanted.now.pkg)
        × (indexed.now.listed.is_essential ≡ wanted.now.is_essential))) }
{
    let pkg = indexed.pkg(alloc)?;
    let at_first = wanted.pkg(alloc)?;
    Ok(is_same(&pkg, &at_first) && indexed.is_essential() == wanted.is_essential())
}

// Whether the text alone is a stanza of the same package as the entry.
fn is_text_of(
    alloc: Global,
    text: &[u8],
    arch: &[u8],
    wanted: &IndexEntry<'_>,
) -> Result<bool, AllocError>
    ensures { IfOk result (λ same. IsTrue same ↔ IsSamePackage arch.now text.now wanted.now) }
{
    match read_alone(text, arch) {
        Some(indexed) => is_same_package(alloc, &indexed, wanted),
        None => Ok(false),
    }
}

// The text of the stanza that was reached, where it is of the same package as the entry.
fn text_reached(
    alloc: Global,
    reader: &Reader,
    arch: &[u8],
    wanted: &IndexEntry<'_>,
) -> Result<Vec<u8>, FetchError>
    ensures fetched { (items : Items) (left : List ℕ)
        → HasRead items wanted.now.place.stanza reader.now left
        → IfOk result (λ text. IsFetched arch.now items wanted.now text.items) }
    ensures changed { (items : Items) (left : List ℕ)
        → HasRead items wanted.now.place.stanza reader.now left
        → IfErr result (λ e. e ≡ error.Changed → IsGone arch.now items wanted.now) }
    ensures known { IfErr result (λ e. e ≢ error.Read) }
{
    match reader.stanza() {
        Some(stanza) => {
            if !is_text_of(alloc, stanza.raw(), arch, wanted)? {
                return Err(FetchError::Changed);
            }
            Ok(stanza.raw().to_vec(alloc)?)
        }
        None => Err(FetchError::Changed),
    }
}

/// The packages in the order of their stanzas. Memory alone can fail.
pub fn in_order<'w, 'a>(
    wanted: Vec<&'w IndexEntry<'a>>,
) -> Result<Vec<&'w IndexEntry<'a>>, AllocError>
    ensures order { IfOk result
        (λ ordered. IsNonDecreasingBy (λ entry. entry.now.place.stanza) ordered.items) }
    ensures same { IfOk result (λ ordered. IsPermutation wanted.entry.items ordered.items) }
{
    let mut ordered = wanted;
    ordered.sort_by_key(|entry| entry.place().stanza)?;
    Ok(ordered)
}

/// The texts of the stanzas of these packages of one index, whose text the source has, in their order: each is the bytes of
/// the stanza at the package's place. It is read up to the last of them. `E28 Changed` is answered where the text has a fault
/// before that, where a stanza isn't there any more, and where it isn't of the same package as at first. Linear in the text
/// up to there, of which no more is held at a time than a stanza and a block behind it.
pub fn fetch<S: Source>(
    alloc: Global,
    source: &mut S,
    arch: &[u8],
    wanted: &[&IndexEntry<'_>],
) -> Result<Vec<Vec<u8>>, FetchError>
    requires order { IsNonDecreasingBy (λ entry. entry.now.place.stanza) wanted.now }
    ensures each { IfOk result (λ texts. length texts.items ≡ length wanted.now) }
    ensures fetched { (text : List ℕ) → S.left source.old ≡ Some text → IfOk result (λ texts.
        AreFetched arch.now (items_in text) (map (λ entry. entry.now) wanted.now)
        (map (λ text. text.items) texts.items)) }
    ensures changed { (text : List ℕ) → S.left source.old ≡ Some text → IfErr result (λ e.
        e ≡ error.Changed
        → IsChanged arch.now (items_in text) (map (λ entry. entry.now) wanted.now)) }
    ensures known { (text : List ℕ) → S.left source.old ≡ Some text
        → IfErr result (λ e. e ≢ error.Read) }
    ensures sure { S.is_sure source.old ≡ true → IfErr result (λ e. e ≢ error.Read) }
    ensures count { OnOk result (S.faults source.new ≡ S.faults source.old) }
    ensures failed { IfErr result
        (λ e. e ≡ error.Read → S.faults source.new ≡ min (S.faults source.old + 1) (2 ^ 64 - 1)) }
{
    let mut texts = Vec::new(alloc);
    let mut reader = Reader::new(alloc, TEXT_BYTES)?;
    let mut at = 0;
    for next in wanted {
        let number = next.place().stanza;
        reach(&mut reader, source, at, number)?;
        texts.push(text_reached(alloc, &reader, arch, next)?)?;
        at = number;
    }
    Ok(texts)
}
