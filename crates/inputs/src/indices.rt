//! The indices, of which there is one for each stanza of the sources.
ghost use Rattle.std.specs.Prelude.{◌≡◌, ◌⊎◌, Err, IfErr, IfOk, Ok, Some, length};
ghost use Rattle.candidates.specs.Inputs.{indices_of};
ghost use Rattle.inputs.specs.Before.{HasIndices, HasStatus, IsRefusalBefore};
ghost use Rattle.inputs.specs.Indices.{IsRefusedIndex, index_of, released, with_keys};
ghost use Rattle.inputs.specs.Indices as Spec;
ghost use Rattle.inputs.specs.ReadBy.{IsReadBy};
ghost use Rattle.inputs.specs.Reading.{out_of_memory};
ghost use Rattle.inputs.specs.Texts.{Shelved, sources_of, texts_of};

use crate::refusal::{Fault, Input, Refusal, refused_at};
use crate::settings::Settings;
use crate::shelf::Shelf;
use crate::sources::{read_sources, read_sources_text};
use crate::texts::open_index;
use index::{Index, IndexSource, KeptIndex, StreamError};
use rules::Release;
use std::alloc::{AllocError, Global};

// What is kept of the index of this number and source, behind so many packages of those before it.
fn read_index<S: Shelf>(
    alloc: Global,
    shelf: &mut S,
    arch: &[u8],
    number: usize,
    source: &IndexSource<'_>,
    before: usize,
) -> Result<KeptIndex, Refusal>
    ensures ok { (at : Shelved) → S.known_texts shelf.old ≡ Some at
        → IfOk result
        (λ kept. index_of arch.now at.index number before source.now
        ≡ Ok (with_keys source.now.release kept)) }
    ensures refused { (at : Shelved) → S.known_texts shelf.old ≡ Some at
        → IfErr result
        (λ refused. IsRefusedIndex number
        (index_of arch.now at.index number before source.now) refused) }
    ensures read { IsReadBy S.Shelf shelf.old result shelf.new }
{
    let mut text = open_index(alloc, shelf, number, source.file())?;
    match KeptIndex::read_from(alloc, &mut text, arch, number, before) {
        Ok(kept) => Ok(kept),
        Err(StreamError::Refused(refused)) => {
            Err(refused_at(Input::Index(number), Fault::Index(refused)))
        }
        Err(StreamError::Read) => {
            shelf.close(text);
            Err(refused_at(Input::Index(number), Fault::Read))
        }
        Err(StreamError::OutOfMemory) => Err(Refusal::from(AllocError)),
    }
}

// Reads the index of each of these sources.
fn read_each<S: Shelf>(
    alloc: Global,
    shelf: &mut S,
    arch: &[u8],
    sources: Vec<IndexSource<'_>>,
) -> Result<(Vec<KeptIndex>, Vec<Release>), Refusal>
    ensures ok { (at : Shelved) → S.known_texts shelf.old ≡ Some at → IfOk result (λ listed.
        Spec.read_indices arch.now at.index sources.entry.items
        ≡ Ok (released listed.1.items listed.0.items)) }
    ensures refused { (at : Shelved) → S.known_texts shelf.old ≡ Some at → IfErr result (λ refused.
        (refused ≡ out_of_memory)
        ⊎ (Spec.read_indices arch.now at.index sources.entry.items ≡ Err refused)) }
    ensures count { IfOk result (λ listed. length listed.0.items ≡ length listed.1.items) }
    ensures read { IsReadBy S.Shelf shelf.old result shelf.new }
{
    let mut kept = Vec::new(alloc);
    let mut releases = Vec::new(alloc);
    let mut before = 0usize;
    let mut number = 0;
    for source in sources {
        number += 1;
        let index = match read_index(alloc, shelf, arch, number, &source, before) {
            Ok(index) => index,
            Err(refused) => return Err(refused),
        };
        before = before.saturating_add(index.count());
        kept.push(index)?;
        releases.push(source.into_release())?;
    }
    Ok((kept, releases))
}

/// Reads the indices of these sources, or answers the first refusal: of more packages than are read too, which is that of the
/// index that has the first one too many. Each is opened at its turn. What is kept of each is answered, in the order of the
/// sources, and the release keys of each. Linear in the texts.
pub fn read_indices<S: Shelf>(
    alloc: Global,
    shelf: &mut S,
    settings: &Settings<'_>,
    sources: Vec<IndexSource<'_>>,
) -> Result<(Vec<KeptIndex>, Vec<Release>), Refusal>
    ensures ok { (at : Shelved) → S.known_texts shelf.old ≡ Some at
        → sources_of (texts_of settings.now at) ≡ Ok sources.entry.items
        → IfOk result
        (λ listed. HasIndices (texts_of settings.now at)
        (released listed.1.items listed.0.items)) }
    ensures refused { (at : Shelved) → S.known_texts shelf.old ≡ Some at
        → sources_of (texts_of settings.now at) ≡ Ok sources.entry.items
        → HasStatus (texts_of settings.now at)
        → IfErr result (λ refused. IsRefusalBefore (texts_of settings.now at) refused) }
    ensures count { IfOk result (λ listed. length listed.0.items ≡ length listed.1.items) }
    ensures read { IsReadBy S.Shelf shelf.old result shelf.new }
{
    match read_each(alloc, shelf, settings.arch, sources) {
        Ok(listed) => Ok(listed),
        Err(refused) => Err(refused),
    }
}

/// Reads the sources, and the indices that they name, each at its turn: what is kept of each, in the order of the sources, and
/// the release keys of each. Linear in the texts.
pub fn read_listed<S: Shelf>(
    alloc: Global,
    shelf: &mut S,
    settings: &Settings<'_>,
) -> Result<(Vec<KeptIndex>, Vec<Release>), Refusal>
    ensures ok { (at : Shelved) → S.known_texts shelf.old ≡ Some at
        → IfOk result
        (λ listed. HasIndices (texts_of settings.now at)
        (released listed.1.items listed.0.items)) }
    ensures refused { (at : Shelved) → S.known_texts shelf.old ≡ Some at
        → HasStatus (texts_of settings.now at)
        → IfErr result (λ refused. IsRefusalBefore (texts_of settings.now at) refused) }
    ensures count { IfOk result (λ listed. length listed.0.items ≡ length listed.1.items) }
    ensures read { IsReadBy S.Shelf shelf.old result shelf.new }
{
    let text = match read_sources_text(alloc, shelf) {
        Ok(text) => text,
        Err(refused) => return Err(refused),
    };
    let sources = match read_sources(alloc, text.as_slice()) {
        Ok(sources) => sources,
        Err(refused) => return Err(refused),
    };
    match read_indices(alloc, shelf, settings, sources) {
        Ok(listed) => Ok(listed),
        Err(refused) => Err(refused),
    }
}

/// The indices that were kept, each with its release keys. Memory alone can fail. Linear in the packages.
pub fn lend_indices<'a>(
    alloc: Global,
    kept: &'a [KeptIndex],
    releases: Vec<Release>,
) -> Result<Vec<Index<'a>>, AllocError>
    requires { length kept.now ≡ length releases.items }
    ensures { IfOk result (λ indices. indices_of indices.items ≡ released releases.items kept.now) }
{
    let mut indices = Vec::new(alloc);
    let mut number = 0;
    for release in releases {
        indices.push(Index::of(alloc, &kept[number], release)?)?;
        number += 1;
    }
    Ok(indices)
}
