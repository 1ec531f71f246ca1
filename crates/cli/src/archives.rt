//! The archives of what a plan unpacks, found in a second reading of the sources and of their indices.
ghost use Rattle.std.specs.Prelude.{◌≡◌, ◌≢◌, ℕ, Err, IfOk, List, OnOk, Some};
ghost use Rattle.cli.specs.Again.{IsReadAgain, stanzas_again, stanzas_from};
ghost use Rattle.inputs.specs.ReadAs.{files_of};
ghost use Rattle.inputs.specs.Texts.{Shelved, texts_of};
ghost use Rattle.json_answers.specs.Archives.{found_also, none_found, stanzas_of};
ghost use Rattle.stanza.specs.declared.error.ReaderError.TheVariants as error;

use cli_engine::Settings;
use index::{IndexSource, SourcesError, read_sources};
use inputs::{ReadError, Shelf, WholeText};
use json_answers::{Archives, read_archives};
use rules::Step;
use stanza::ReaderError;
use std::alloc::{AllocError, Global};

/// The archives of what the steps unpack, as far as the indices can be read again. Memory alone can fail.
pub(crate) fn archives_of<'s, S: Shelf>(
    alloc: Global,
    shelf: &mut S,
    settings: &Settings<'_>,
    steps: &'s [Step],
) -> Result<Archives<'s>, AllocError>
    ensures archives { (at : Shelved) → S.known_texts shelf.old ≡ Some at
        → IfOk result (λ archives. archives ≡ found_also settings.now.arch.now
        (stanzas_again (texts_of settings.now at)) (none_found steps.now)) }
    ensures held { S.holds shelf.old shelf.new }
{
    let mut archives = Archives::of_steps(alloc, steps)?;
    if archives.is_complete() {
        return Ok(archives);
    }
    find_archives(alloc, shelf, settings, &mut archives)?;
    Ok(archives)
}

// Finds archives in a second reading of the sources and of the indices that they name. Where the sources can't be read, none is found.
fn find_archives<S: Shelf>(
    alloc: Global,
    shelf: &mut S,
    settings: &Settings<'_>,
    archives: &mut Archives<'_>,
) -> Result<(), AllocError>
    ensures archives { (at : Shelved) → S.known_texts shelf.old ≡ Some at
        → OnOk result (archives.new ≡ found_also settings.now.arch.now
        (stanzas_again (texts_of settings.now at)) archives.old) }
    ensures held { S.holds shelf.old shelf.new }
{
    match shelf.read(alloc, WholeText::Sources) {
        Ok(text) => find_in_sources(alloc, shelf, settings, text.as_slice(), archives),
        Err(ReadError::Unreadable) => Ok(()),
        Err(ReadError::OutOfMemory) => Err(AllocError),
    }
}

// Finds archives in the indices that the text of the sources names. Where it is refused, none is found.
fn find_in_sources<S: Shelf>(
    alloc: Global,
    shelf: &mut S,
    settings: &Settings<'_>,
    text: &[u8],
    archives: &mut Archives<'_>,
) -> Result<(), AllocError>
    ensures archives { (at : Shelved) → S.known_texts shelf.old ≡ Some at
        → at.sources ≡ Some text.now
        → OnOk result (archives.new ≡ found_also settings.now.arch.now
        (stanzas_again (texts_of settings.now at)) archives.old) }
    ensures held { S.holds shelf.old shelf.new }
{
    match read_sources(alloc, text) {
        Ok(sources) => {
            find_in_indices(alloc, shelf, settings.arch, sources.as_slice(), archives)
        }
        Err(SourcesError::Refused(_)) => Ok(()),
        Err(SourcesError::OutOfMemory) => Err(AllocError),
    }
}

// Finds archives in the indices of these sources, in their order, until all are found or an index isn't.
fn find_in_indices<S: Shelf>(
    alloc: Global,
    shelf: &mut S,
    arch: &[u8],
    sources: &[IndexSource<'_>],
    archives: &mut Archives<'_>,
) -> Result<(), AllocError>
    ensures archives { (at : Shelved) → S.known_texts shelf.old ≡ Some at
        → OnOk result (archives.new
        ≡ found_also arch.now (stanzas_from at.index 1 (files_of sources.now)) archives.old) }
    ensures held { S.holds shelf.old shelf.new }
{
    let mut number = 0;
    for source in sources {
        number += 1;
        if archives.is_complete() {
            return Ok(());
        }
        if !find_in_index(alloc, shelf, arch, number, source.file(), archives)? {
            return Ok(());
        }
    }
    Ok(())
}

// Finds archives in the index of this number, which is this file, and answers whether it is found.
fn find_in_index<S: Shelf>(
    alloc: Global,
    shelf: &mut S,
    arch: &[u8],
    number: usize,
    file: &[u8],
    archives: &mut Archives<'_>,
) -> Result<bool, AllocError>
    ensures archives { (at : Shelved) → S.known_texts shelf.old ≡ Some at
        → IfOk result (λ there. IsReadAgain arch.now (at.index number file.now) there
        archives.old archives.new) }
    ensures same { S.known_texts shelf.new ≡ S.known_texts shelf.old }
    ensures held { S.holds shelf.old shelf.new }
{
    match shelf.open(alloc, number, file) {
        Ok(text) => {
            find_in_text(alloc, shelf, arch, text, archives)?;
            Ok(true)
        }
        Err(ReadError::Unreadable) => Ok(false),
        Err(ReadError::OutOfMemory) => Err(AllocError),
    }
}

// Finds archives in the text of an index, which is given back.
fn find_in_text<S: Shelf>(
    alloc: Global,
    shelf: &mut S,
    arch: &[u8],
    text: S::Text,
    archives: &mut Archives<'_>,
) -> Result<(), AllocError>
    ensures archives { (bytes : List ℕ) → S.Text.left text ≡ Some bytes
        → OnOk result (archives.new ≡ found_also arch.now (stanzas_of bytes) archives.old) }
    ensures same { S.known_texts shelf.new ≡ S.known_texts shelf.old }
    ensures held { S.holds shelf.old shelf.new }
{
    let mut text = text;
    let read = read_archives(alloc, &mut text, arch, archives);
    shelf.close(text);
    unless_memory(read)
}

// A refusal of the text of an index is none of the answer: what stands before it is found.
fn unless_memory(read: Result<(), ReaderError>) -> Result<(), AllocError>
    ensures { OnOk result (read ≢ Err error.OutOfMemory) }
{
    match read {
        Ok(()) => Ok(()),
        Err(ReaderError::OutOfMemory) => Err(AllocError),
        Err(ReaderError::Refused(_)) => Ok(()),
        Err(ReaderError::TooLarge) => Ok(()),
        Err(ReaderError::Read) => Ok(()),
    }
}
