//! The texts of all steps of a plan.
ghost use Rattle.std.specs.Prelude.{◌≡◌, ◌<◌, IfErr, IfOk, OnOk, Some, length, map};
ghost use Rattle.std.specs.Option.{option_copied};
ghost use Rattle.inputs.specs.ReadBy.{IsReadBy};
ghost use Rattle.inputs.specs.Texts.{Shelved};
ghost use Rattle.universe_parts.specs.Parts.{numbered};
ghost use Rattle.unpack_texts.specs.Filled.{IsFilled};
ghost use Rattle.unpack_texts.specs.Opened.{Belongs, IsGroupRefusal};
ghost use Rattle.unpack_texts.specs.Texts.{AreTexts, IsTextsRefusal};
ghost use Rattle.unpack_texts.specs.Wanted.{AreOfIndex, AreWithin};

use crate::filling::{empty_places, fill};
use crate::group::{by_stanza, count_of_first, entries_of};
use crate::opening::fetch_from;
use crate::raw_stanza::RawStanza;
use crate::wanted::{Wanted, by_index, wanted_by};
use inputs::{Fault, Input, Refusal, Shelf, refused_at};
use rules::Step;
use std::alloc::Global;
use universe::Universe;

// The file of the index of this number, counted from 1.
fn file_of<'p, 'f>(files: &'p [&'f [u8]], number: usize) -> Option<&'p &'f [u8]>
    ensures { option_copied result ≡ numbered number files.now }
{
    let place = number.checked_sub(1)?;
    files.get(place)
}

// Fetches the texts of these stanzas, all of the index of this number, and puts each at the place of its step.
fn fetch_group<S: Shelf>(
    alloc: Global,
    shelf: &mut S,
    arch: &[u8],
    files: &[&[u8]],
    number: usize,
    group: &[Wanted<'_, '_>],
    texts: &mut Vec<Option<RawStanza>>,
) -> Result<(), Refusal>
    requires some { 0 < length group.now }
    requires of_index { AreOfIndex number group.now }
    requires within { AreWithin (length texts.old.items) group.now }
    ensures size { length texts.new.items ≡ length texts.old.items }
    ensures filled { (at : Shelved) → S.known_texts shelf.old ≡ Some at → OnOk result (IsFilled
        (Belongs arch.now at.index
        (map (λ file. file.now) files.now)) group.now texts.old.items texts.new.items) }
    ensures refused { (at : Shelved) → S.known_texts shelf.old ≡ Some at → IfErr result (λ refused.
        IsGroupRefusal arch.now at.index (map (λ file. file.now) files.now) group.now refused) }
    ensures read { IsReadBy S.Shelf shelf.old result shelf.new }
{
    let Some(file) = file_of(files, number) else {
        return Err(refused_at(Input::Index(number), Fault::Changed));
    };
    let ordered = by_stanza(alloc, group)?;
    let entries = entries_of(alloc, ordered.as_slice())?;
    let fetched = fetch_from(alloc, shelf, arch, number, file, entries.as_slice())?;
    fill(texts, ordered.as_slice(), fetched);
    Ok(())
}

// Fetches the texts of these stanzas, and puts each at the place of its step.
fn fetch_all<S: Shelf>(
    alloc: Global,
    shelf: &mut S,
    arch: &[u8],
    files: &[&[u8]],
    wanted: &[Wanted<'_, '_>],
    texts: &mut Vec<Option<RawStanza>>,
) -> Result<(), Refusal>
    requires within { AreWithin (length texts.old.items) wanted.now }
    ensures size { length texts.new.items ≡ length texts.old.items }
    ensures filled { (at : Shelved) → S.known_texts shelf.old ≡ Some at → OnOk result (IsFilled
        (Belongs arch.now at.index
        (map (λ file. file.now) files.now)) wanted.now texts.old.items texts.new.items) }
    ensures refused { (at : Shelved) → S.known_texts shelf.old ≡ Some at → IfErr result (λ refused.
        IsGroupRefusal arch.now at.index (map (λ file. file.now) files.now) wanted.now refused) }
    ensures read { IsReadBy S.Shelf shelf.old result shelf.new }
{
    let mut at = 0;
    while at < wanted.len() {
        let (_, rest) = wanted.split_at(at);
        let number = rest[0].index();
        let count = count_of_first(rest, number);
        let (group, _) = rest.split_at(count);
        fetch_group(alloc, shelf, arch, files, number, group, texts)?;
        at += count;
    }
    Ok(())
}

/// The texts that a journal records with the steps, in their order: of a step that unpacks a stanza the bytes of that stanza,
/// with a newline at the end where it lacks one, and of another nothing. Each index that has a wanted stanza is opened a second time, once, in the order of the indices, and
/// read up to the last of them; `files` are the files that the sources name, in their order. `E28 Changed` is refused at an
/// index that has not such a stanza any more, or where no source names it. Linear in the texts up to there, but for the order
/// of the stanzas, n log n, and a binary search among the pairs for each step.
pub fn fetch_texts<S: Shelf>(
    alloc: Global,
    shelf: &mut S,
    arch: &[u8],
    files: &[&[u8]],
    universe: &Universe<'_, '_>,
    steps: &[Step],
) -> Result<Vec<Option<RawStanza>>, Refusal>
    ensures texts { (at : Shelved) → S.known_texts shelf.old ≡ Some at → IfOk result (λ texts.
        AreTexts arch.now at.index
        (map (λ file. file.now) files.now) universe.now steps.now texts.items) }
    ensures refused { (at : Shelved) → S.known_texts shelf.old ≡ Some at → IfErr result (λ refused.
        IsTextsRefusal arch.now at.index
        (map (λ file. file.now) files.now) universe.now steps.now refused) }
    ensures count { IfOk result (λ texts. length texts.items ≡ length steps.now) }
    ensures read { IsReadBy S.Shelf shelf.old result shelf.new }
{
    let wanted = by_index(wanted_by(alloc, universe, steps)?)?;
    let mut texts = empty_places(alloc, steps.len())?;
    fetch_all(alloc, shelf, arch, files, wanted.as_slice(), &mut texts)?;
    Ok(texts)
}
