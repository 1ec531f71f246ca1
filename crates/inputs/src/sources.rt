//! The sources, which name the indices.
ghost use Rattle.std.specs.Prelude.{◌≡◌, ◌≢◌, IfErr, IfOk, Ok, Some, map};
ghost use Rattle.inputs.specs.Before.{HasStatus, IsRefusalBefore};
ghost use Rattle.inputs.specs.Reading.{IsFaultOf};
ghost use Rattle.inputs.specs.ReadAs.{files_of};
ghost use Rattle.inputs.specs.ReadBy.{IsReadBy};
ghost use Rattle.inputs.specs.Texts.{Shelved, sources_in, sources_of, texts_of};
ghost use Rattle.inputs.specs.declared.refusal.Fault.TheVariants as fault;
ghost use Rattle.inputs.specs.declared.settings.Settings.{Settings as SettingsOf};

use crate::refusal::{Fault, Input, Refusal, refused_at};
use crate::shelf::{Shelf, WholeText};
use crate::texts::read_part;
use index::{IndexSource, SourcesError};
use std::alloc::{AllocError, Global};

// The indices that the sources name.
fn sources_in_text<'a>(alloc: Global, text: &'a [u8]) -> Result<Vec<IndexSource<'a>>, Fault>
    ensures ok { IfOk result (λ sources. sources_in text.now ≡ Ok sources.items) }
    ensures err { IfErr result (λ f. IsFaultOf (sources_in text.now) f) }
    ensures known { IfErr result (λ f. f ≢ fault.Read) }
{
    match index::read_sources(alloc, text) {
        Ok(sources) => Ok(sources),
        Err(SourcesError::Refused(refused)) => Err(Fault::Sources(refused)),
        Err(SourcesError::OutOfMemory) => Err(Fault::OutOfMemory),
    }
}

/// The text of the sources.
pub fn read_sources_text<S: Shelf>(alloc: Global, shelf: &mut S) -> Result<Vec<u8>, Refusal>
    ensures text { (at : Shelved) → S.known_texts shelf.old ≡ Some at
        → IfOk result (λ text. at.sources ≡ Some text.items) }
    ensures refused { (at : Shelved) (settings : SettingsOf) → S.known_texts shelf.old ≡ Some at
        → HasStatus (texts_of settings at)
        → IfErr result (λ refused. IsRefusalBefore (texts_of settings at) refused) }
    ensures read { IsReadBy S.Shelf shelf.old result shelf.new }
{
    match read_part(alloc, shelf, WholeText::Sources, Input::Sources) {
        Ok(text) => Ok(text),
        Err(refused) => Err(refused),
    }
}

/// The files of the indices, in their order. Memory alone can fail.
pub(crate) fn files_of<'a>(
    alloc: Global,
    sources: &[IndexSource<'a>],
) -> Result<Vec<&'a [u8]>, AllocError>
    ensures { IfOk result (λ files. map (λ file. file.now) files.items ≡ files_of sources.now) }
{
    let mut files = Vec::new(alloc);
    for source in sources {
        files.push(source.file())?;
    }
    Ok(files)
}

/// The indices that the text of the sources names, in their order, each with its release keys. Linear in the text.
pub fn read_sources<'a>(alloc: Global, text: &'a [u8]) -> Result<Vec<IndexSource<'a>>, Refusal>
    ensures ok { (at : Shelved) (settings : SettingsOf) → at.sources ≡ Some text.now
        → IfOk result (λ sources. sources_of (texts_of settings at) ≡ Ok sources.items) }
    ensures refused { (at : Shelved) (settings : SettingsOf) → at.sources ≡ Some text.now
        → HasStatus (texts_of settings at)
        → IfErr result (λ refused. IsRefusalBefore (texts_of settings at) refused) }
    ensures known { IfErr result (λ refused. refused.fault ≢ fault.Read) }
{
    match sources_in_text(alloc, text) {
        Ok(sources) => Ok(sources),
        Err(fault) => Err(refused_at(Input::Sources, fault)),
    }
}
