//! Sources texts: which indices there are, and the release keys of each (this project's own format).
ghost use Rattle.std.specs.Prelude.{◌≡◌, ◌<◌, Err, IfErr, IfOk, Ok, codes, length};
ghost use Rattle.std.specs.Option.{option_copied};
ghost use Rattle.rules.specs.declared.limits.TheConstants.{TEXT_BYTES};
ghost use Rattle.stanza.specs.declared.form.Form.TheVariants.{Commented};
ghost use Rattle.stanza.specs.Field.{value_named};
ghost use Rattle.stanza.specs.Stanza.{items_of};
ghost use Rattle.index.specs.Error.{IsSourcesFault};
ghost use Rattle.index.specs.Sources as Spec;
ghost use Rattle.index.specs.declared.error.SourcesError.TheVariants as error;
ghost use Rattle.index.specs.declared.error.SourcesFault.TheVariants as fault;

use crate::error::{SourcesError, SourcesFault};
use rules::{INDICES, Release, TEXT_BYTES, Text};
use stanza::{Stanza, StanzaError, Stanzas};
use std::alloc::{AllocError, Global};
use std::marker::Model;

/// An index as the sources text names it: the path of its text, and its release keys.
#[derive(Drop)]
pub struct IndexSource<'a> {
    file: &'a [u8],
    release: Release,
}

impl<'a> Model for IndexSource<'a> {
    ghost use Rattle.index.specs.Sources.{SourceText};

    ghost Value = { SourceText };

    ghost view = { λ s. record { file = s.file.now; release = s.release } };
}

impl<'a> IndexSource<'a> {
    /// The path, as the text spells it.
    pub fn file(&self) -> &'a [u8]
        ensures { result.now ≡ self.now.file }
    {
        self.file
    }

    /// The release keys.
    pub fn release(&self) -> &Release
        ensures { result.now ≡ self.now.release }
    {
        &self.release
    }

    /// The release keys, without the path.
    pub fn into_release(self) -> Release
        ensures { result ≡ self.entry.release }
    {
        self.release
    }
}

// The value of a field, which the stanza may lack.
fn key(alloc: Global, stanza: &Stanza<'_>, name: &[u8]) -> Result<Option<Text>, AllocError>
    ensures { IfOk result (λ key. key ≡ value_named name.now stanza.now.fields) }
{
    match stanza.get(name) {
        None => Ok(None),
        Some(value) => Ok(Some(Text::copied_from(alloc, value)?)),
    }
}

// The value of the field Host.
fn host(alloc: Global, stanza: &Stanza<'_>) -> Result<Text, AllocError>
    ensures { IfOk result
        (λ host. host ≡ Spec.text_or_empty (value_named (codes "Host") stanza.now.fields)) }
{
    match stanza.get(b"Host") {
        None => Text::copied_from(alloc, b""),
        Some(value) => Text::copied_from(alloc, value),
    }
}

// Whether the value of the field is exactly `yes`.
fn is_yes(stanza: &Stanza<'_>, name: &[u8]) -> bool
    ensures { result ≡ Spec.is_yes (value_named name.now stanza.now.fields) }
{
    match stanza.get(name) {
        None => false,
        Some(value) => value == b"yes".as_slice(),
    }
}

fn release_of(alloc: Global, stanza: &Stanza<'_>) -> Result<Release, AllocError>
    ensures { IfOk result (λ release. release ≡ Spec.release_of stanza.now.fields) }
{
    Ok(Release {
        archive: key(alloc, stanza, b"Archive")?,
        suite: key(alloc, stanza, b"Suite")?,
        codename: key(alloc, stanza, b"Codename")?,
        version: key(alloc, stanza, b"Version")?,
        component: key(alloc, stanza, b"Component")?,
        origin: key(alloc, stanza, b"Origin")?,
        label: key(alloc, stanza, b"Label")?,
        host: host(alloc, stanza)?,
        not_automatic: is_yes(stanza, b"NotAutomatic"),
        but_automatic_upgrades: is_yes(stanza, b"ButAutomaticUpgrades"),
    })
}

// The index of a stanza.
fn read_source<'a>(alloc: Global, stanza: &Stanza<'a>) -> Result<IndexSource<'a>, SourcesError>
    ensures ok { IfOk result (λ source. Spec.read_source stanza.now ≡ Ok source) }
    ensures err { IfErr result (λ e. IsSourcesFault e (Spec.read_source stanza.now)) }
{
    match stanza.get(b"File") {
        None => Err(SourcesFault::MissingFile(stanza.line()).into()),
        Some(file) => Ok(IndexSource {
            file,
            release: release_of(alloc, stanza)?,
        }),
    }
}

// The index of an item of the text.
fn read_source_item<'a>(
    alloc: Global,
    item: &Result<Stanza<'a>, StanzaError>,
) -> Result<IndexSource<'a>, SourcesError>
    ensures ok { IfOk result (λ source. Spec.read_source_item item.now ≡ Ok source) }
    ensures err { IfErr result (λ e. IsSourcesFault e (Spec.read_source_item item.now)) }
{
    match item {
        Ok(stanza) => read_source(alloc, stanza),
        Err(fault) => Err(SourcesFault::Stanza(*fault).into()),
    }
}

// The indices of a text that isn't too long.
fn sources_in<'a>(alloc: Global, text: &'a [u8]) -> Result<Vec<IndexSource<'a>>, SourcesError>
    ensures ok { IfOk result
        (λ sources. Spec.sources_in (items_of Commented text.now) 0 ≡ Ok sources.items) }
    ensures err { IfErr result
        (λ e. IsSourcesFault e (Spec.sources_in (items_of Commented text.now) 0)) }
{
    let mut sources = Vec::new(alloc);
    for item in Stanzas::with_comments(text) {
        let source = read_source_item(alloc, &item)?;
        if sources.len() == INDICES {
            return Err(SourcesFault::TooLarge.into());
        }
        sources.push(source)?;
    }
    Ok(sources)
}

/// The indices that a sources text names, in order. Each stanza is one: control text with comments, in which
/// the field File is required and fields that aren't release keys are ignored. The first refusal is answered:
/// of a text that is too long, or else of the first stanza that has one. Linear in the text.
pub fn read_sources<'a>(alloc: Global, text: &'a [u8]) -> Result<Vec<IndexSource<'a>>, SourcesError>
    ensures ok { IfOk result (λ sources. Spec.read_sources text.now ≡ Ok sources.items) }
    ensures err { IfErr result (λ e. IsSourcesFault e (Spec.read_sources text.now)) }
    ensures too_long { TEXT_BYTES < length text.now → result ≡ Err (error.Refused fault.TooLarge) }
{
    if text.len() > TEXT_BYTES {
        return Err(SourcesFault::TooLarge.into());
    }
    sources_in(alloc, text)
}
