// The records of the preferences, the target release and the indices that change no answer.
ghost use Rattle.std.specs.Prelude.{◌≡◌, ◌+◌, ◌^◌, ◌<◌, ◌++◌, IfOk, OnOk, Some, map};
ghost use Rattle.std.specs.List.{list_any};
ghost use Rattle.std.specs.Option.{option_copied};
ghost use Rattle.rules.specs.Priority.{is_target};
ghost use Rattle.input_notes.specs.Idle as Spec;

use crate::indices::push_indices;
use crate::pinned::{has_effect, is_known, is_of_target};
use crate::words::{push_names, push_word};
use index::Index;
use phrases::push_count;
use pins::Prefs;
use rules::{Name, PinnedNames, Preference};
use status_text::StatusRecord;
use std::alloc::{AllocError, Global};

fn texts_of<'n>(alloc: Global, names: &'n [Name]) -> Result<Vec<&'n [u8]>, AllocError>
    ensures { IfOk result (λ texts. map (λ text. text.now) texts.items ≡ names.now) }
{
    let mut texts = Vec::new(alloc);
    for name in names {
        texts.push(name.as_bytes())?;
    }
    Ok(texts)
}

// What there is not of the names of a record.
fn lack_words(known: bool) -> &'static [u8]
    ensures { result.now ≡ Spec.lack_words known }
{
    if known {
        b"there is no such version of "
    } else {
        b"there is no package "
    }
}

// Writes why a record for these names matches no version.
fn push_why_idle(
    alloc: Global,
    text: &mut Vec<u8>,
    names: &PinnedNames,
    known: bool,
) -> Result<(), AllocError>
    ensures { OnOk result (text.new.items ≡ text.old.items ++ Spec.why_idle names.now known) }
{
    match names {
        PinnedNames::Every => text.extend_from_slice(b"no index has what it pins.\n"),
        PinnedNames::Listed(names) => {
            let texts = texts_of(alloc, names.as_slice())?;
            text.extend_from_slice(lack_words(known))?;
            push_names(alloc, text, texts.as_slice())?;
            text.extend_from_slice(b".\n")
        }
    }
}

// Writes that the record of this number matches no version.
fn push_record_line(
    alloc: Global,
    text: &mut Vec<u8>,
    number: usize,
    names: &PinnedNames,
    known: bool,
) -> Result<(), AllocError>
    ensures { OnOk result
        (text.new.items ≡ text.old.items ++ Spec.record_line number names.now known) }
{
    text.extend_from_slice(b"Record ")?;
    push_count(text, number)?;
    text.extend_from_slice(b" of the preferences matches nothing: ")?;
    push_why_idle(alloc, text, names, known)
}

// Writes that the record at this place matches no version, where that is so.
fn push_record(
    alloc: Global,
    text: &mut Vec<u8>,
    records: &[&StatusRecord<'_>],
    indices: &[Index<'_>],
    place: usize,
    preference: &Preference,
) -> Result<(), AllocError>
    requires { place + 1 < 2 ^ 64 }
    ensures { OnOk result (text.new.items ≡ text.old.items
        ++ Spec.idle_record records.now indices.now place preference.now) }
{
    if has_effect(preference, records, indices) {
        return Ok(());
    }
    let known = is_known(&preference.names, records, indices);
    push_record_line(alloc, text, place + 1, &preference.names, known)
}

// Writes which records of the preferences match no version.
fn push_records(
    alloc: Global,
    text: &mut Vec<u8>,
    records: &[&StatusRecord<'_>],
    indices: &[Index<'_>],
    preferences: &[Preference],
) -> Result<(), AllocError>
    ensures { OnOk result (text.new.items ≡ text.old.items
        ++ Spec.idle_records records.now indices.now preferences.now) }
{
    for (place, preference) in preferences.iter().enumerate() {
        push_record(alloc, text, records, indices, place, preference)?;
    }
    Ok(())
}

// Whether an index is of the target release.
fn has_target(indices: &[Index<'_>], target: &[u8]) -> bool
    ensures { result
        ≡ list_any (λ read. is_target (Some target.now) read.index.release) indices.now }
{
    indices
        .iter()
        .any(|index| is_of_target(index.release(), target))
}

// Writes that no index is of the target release.
fn push_target_line(text: &mut Vec<u8>, target: &[u8]) -> Result<(), AllocError>
    ensures { OnOk result (text.new.items ≡ text.old.items ++ Spec.target_line target.now) }
{
    text.extend_from_slice(b"The target release ")?;
    push_word(text, target)?;
    text.extend_from_slice(b" is the archive, suite, codename or version of no index.\n")
}

// Writes that no index is of the target release, if there is one and that is so.
fn push_target(
    text: &mut Vec<u8>,
    indices: &[Index<'_>],
    target: Option<&[u8]>,
) -> Result<(), AllocError>
    ensures { OnOk result (text.new.items
        ≡ text.old.items ++ Spec.idle_target indices.now (option_copied target.entry)) }
{
    match target {
        None => Ok(()),
        Some(target) => {
            if has_target(indices, target) {
                return Ok(());
            }
            push_target_line(text, target)
        }
    }
}

/// A line for each record of the preferences that matches no version that stands or that an index has, one for a target release
/// that no index has, and one for each index that adds no version to those before it, in this order. Memory alone can fail. Each
/// record costs a walk over the status file and the indices for each of its names; the indices cost two look-ups in a table of
/// names for each of their stanzas.
pub fn idle_inputs(
    alloc: Global,
    records: &[&StatusRecord<'_>],
    indices: &[Index<'_>],
    prefs: &Prefs,
) -> Result<Vec<u8>, AllocError>
    ensures { IfOk result (λ text. text.items
        ≡ Spec.idle_words records.now indices.now prefs.now) }
{
    let mut text = Vec::new(alloc);
    push_records(alloc, &mut text, records, indices, prefs.records())?;
    push_target(&mut text, indices, prefs.target())?;
    push_indices(alloc, &mut text, indices)?;
    Ok(text)
}
