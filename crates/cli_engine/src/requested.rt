//! The request, read with sentences on inputs that change no answer, and on a name that no package has.
ghost use Rattle.std.specs.Prelude.{◌≡◌, IfErr, IfOk, Some, false};
ghost use Rattle.inputs.specs.Meaning.{DenotesAsked};
ghost use Rattle.inputs.specs.ReadAs.{AreReadAs, IsOver, start_of};
ghost use Rattle.inputs.specs.ReadBy.{IsReadBy};
ghost use Rattle.inputs.specs.Refused.{IsRefusal};
ghost use Rattle.inputs.specs.Texts.{Shelved, texts_of};

use crate::notes::Notes;
use index::Index;
use input_notes::{idle_inputs, providers_of};
use inputs::{Before, Fault, Input, Refusal, Requested, Shelf, WholeText, read_part, requested_in};
use std::alloc::{AllocError, Global};

/// The sentences on inputs that change no answer, each a line. Costs what `input_notes::idle_inputs` costs. Memory alone can fail.
pub fn idle_text(
    alloc: Global,
    before: &Before<'_, '_, '_, '_, '_, '_, '_, '_>,
) -> Result<Vec<u8>, AllocError> {
    let records = before.status_file.records(alloc)?;
    idle_inputs(alloc, records.as_slice(), before.indices, before.prefs)
}

// The same, as the notes have them where they are known before.
fn idle_in(
    alloc: Global,
    before: &Before<'_, '_, '_, '_, '_, '_, '_, '_>,
    notes: &Notes,
) -> Result<Vec<u8>, AllocError> {
    match &notes.idle {
        Some(text) => text.as_slice().to_vec(alloc),
        None => idle_text(alloc, before),
    }
}

/// Tells which of the inputs change no answer, where that is wanted. Where the notes don't have it, it costs what `input_notes::idle_inputs`
/// costs. Where memory is refused for it, it isn't told.
pub fn tell_idle_inputs(
    alloc: Global,
    before: &Before<'_, '_, '_, '_, '_, '_, '_, '_>,
    notes: &mut Notes,
)
    ensures unasked { notes.old.wanted ≡ false → notes.new ≡ notes.old }
{
    if !notes.wanted {
        return;
    }
    let text = idle_in(alloc, before, notes);
    notes.add_told(text);
}

// The line of this number of a text, counted from 1, or nothing where there are fewer.
fn line_at(text: &[u8], number: usize) -> &[u8] {
    match text
        .split(|byte| *byte == b'\n')
        .nth(number.saturating_sub(1))
    {
        Some(line) => line,
        None => &[],
    }
}

// What stands before the first byte of a restriction or a qualifier.
fn before_restriction(word: &[u8]) -> &[u8] {
    match word.split(|byte| *byte == b'(' || *byte == b':').next() {
        Some(name) => name,
        None => &[],
    }
}

// The name in a line of a request: its second word, without what restricts it.
fn name_in(line: &[u8]) -> &[u8] {
    match line
        .split(|byte| *byte == b' ' || *byte == b'\t')
        .filter(|word| !word.is_empty())
        .nth(1)
    {
        Some(word) => before_restriction(word),
        None => &[],
    }
}

// Tells who provides the name that no package has, where the request with this text is refused for one and that is wanted.
fn tell_providers(
    alloc: Global,
    indices: &[Index<'_>],
    text: &[u8],
    fault: &Fault,
    notes: &mut Notes,
)
    ensures unasked { notes.old.wanted ≡ false → notes.new ≡ notes.old }
{
    if !notes.wanted {
        return;
    }
    if let Fault::UnknownName(line) = fault {
        let text = providers_of(alloc, indices, name_in(line_at(text, *line)));
        notes.add_told(text);
    }
}

/// Tells, where the request with this text is refused and that is wanted, which of the inputs change no answer, and who provides the name
/// that no package has, where it is refused for one. Costs what `input_notes::idle_inputs` and `input_notes::providers_of` cost. Where
/// memory is refused for it, it isn't told.
pub fn tell_refused(
    alloc: Global,
    before: &Before<'_, '_, '_, '_, '_, '_, '_, '_>,
    text: &[u8],
    answer: &Result<Requested<'_, '_>, Refusal>,
    notes: &mut Notes,
)
    ensures unasked { notes.old.wanted ≡ false → notes.new ≡ notes.old }
{
    if let Err(refusal) = answer {
        tell_idle_inputs(alloc, before, notes);
        tell_providers(alloc, before.indices, text, &refusal.fault, notes);
    }
}

/// The universe that the request of a shelf is answered from, over what the texts before it are read as, and whether it asks for all
/// versions. Tells of a refused request what `tell_refused` tells.
pub(crate) fn read_asked<'i, 'a, S: Shelf>(
    alloc: Global,
    shelf: &mut S,
    before: &Before<'_, '_, '_, '_, '_, '_, 'i, 'a>,
    notes: &mut Notes,
) -> Result<Requested<'i, 'a>, Refusal>
    ensures asked { (at : Shelved) → S.known_texts shelf.old ≡ Some at
        → AreReadAs (texts_of before.now.settings.now at) before.now
        → IfOk result (λ requested.
        DenotesAsked (texts_of before.now.settings.now at) requested.universe
        (start_of before.now) requested.asks_all_versions) }
    ensures over { IfOk result (λ requested. IsOver before.now requested.universe) }
    ensures refused { (at : Shelved) → S.known_texts shelf.old ≡ Some at
        → AreReadAs (texts_of before.now.settings.now at) before.now
        → IfErr result (λ refused. IsRefusal (texts_of before.now.settings.now at) refused) }
    ensures read { IsReadBy S.Shelf shelf.old result shelf.new }
    ensures unasked { notes.old.wanted ≡ false → notes.new ≡ notes.old }
{
    let text = read_part(alloc, shelf, WholeText::Request, Input::Request)?;
    let answer = requested_in(alloc, before, None, text.as_slice());
    tell_refused(alloc, before, text.as_slice(), &answer, notes);
    answer
}
