//! What is asked of texts, and the one call that reads them for it.
ghost use Rattle.std.specs.Prelude.{◌≡◌, Err, Ok, Result, Some, length, map};
ghost use Rattle.std.specs.Option.{option_copied};
ghost use Rattle.inputs.specs.Before.{HasIndices, HasStart, IsRefusalBefore};
ghost use Rattle.inputs.specs.Indices.{released};
ghost use Rattle.inputs.specs.Inputs.{shelved};
ghost use Rattle.inputs.specs.ReadAs.{AreNamed, AreReadAs};
ghost use Rattle.inputs.specs.ReadBy.{IsReadBy};
ghost use Rattle.inputs.specs.Texts.{Found, Shelved, Texts, status_file_of, texts_of};
ghost use Rattle.inputs.specs.declared.refusal.Refusal.{Refusal};
ghost use Rattle.inputs.specs.declared.settings.Settings.{Settings as SettingsOf};
ghost use Rattle.status_text.specs.Slot.{slot_records};

use crate::before::Before;
use crate::indices::{lend_indices, read_indices};
use crate::inputs::{Inputs, MemoryShelf};
use crate::preferences::read_preferences;
use crate::refusal::Refusal;
use crate::settings::Settings;
use crate::shelf::Shelf;
use crate::sources::{files_of, read_sources, read_sources_text};
use crate::status_file::{read_status, read_status_file};
use index::KeptIndex;
use rules::Release;
use status_text::StatusFile;
use std::alloc::Global;

/// What is asked of texts: an answer, and what is changed beside it.
pub trait Question {
    /// What is answered.
    type Answer: Drop;

    /// What is changed beside the answer, as the notes on it or a disk.
    type Beside;

    // What is said by the texts, and by the one that is judged: the answer or the refusal, and what is beside it before and after.
    ghost says: { Self → Texts → Found → Self.Beside → Result Self.Answer Refusal → Self.Beside → Type 0 };

    // What is so of what is beside the answer, for these settings and by whatever texts.
    ghost keeps: { Self → SettingsOf → Self.Beside → Result Self.Answer Refusal → Self.Beside → Type 0 };

    /// Answers it over what the texts before the request are read as. What else it wants it reads from the shelf.
    fn answer<S: Shelf>(
        &self,
        alloc: Global,
        shelf: &mut S,
        before: &Before<'_, '_, '_, '_, '_, '_, '_, '_>,
        beside: &mut Self::Beside,
    ) -> Result<Self::Answer, Refusal>
        ensures said { (at : Shelved) → S.known_texts shelf.old ≡ Some at
            → AreReadAs (texts_of before.now.settings.now at) before.now
            → says self.now
            (texts_of before.now.settings.now at) at.judged beside.old result beside.new }
        ensures kept { keeps self.now before.now.settings.now beside.old result beside.new }
        ensures read { IsReadBy S.Shelf shelf.old result shelf.new };

    // The first refusal before the request is said, and then nothing else is done.
    ghost refuses: { (question : Self) (texts : Texts) (judged : Found) (beside : Self.Beside) (refused : Refusal)
        → IsRefusalBefore texts refused → says question texts judged beside (Err refused) beside };

    // Where nothing is done, what has to be kept is.
    ghost stays: { (question : Self) (settings : SettingsOf) (beside : Self.Beside) (refused : Refusal)
        → keeps question settings beside (Err refused) beside };
}

// Asks the question by the indices that were kept, behind this status file.
fn ask_by<'k, 'a: 'k, S: Shelf, Q: Question>(
    alloc: Global,
    shelf: &mut S,
    settings: &Settings<'_>,
    files: &[&[u8]],
    status_file: &StatusFile<'a>,
    kept: &'k [KeptIndex],
    releases: Vec<Release>,
    question: &Q,
    beside: &mut Q::Beside,
) -> Result<Q::Answer, Refusal>
    requires { length kept.now ≡ length releases.items }
    ensures said { (at : Shelved) → S.known_texts shelf.old ≡ Some at
        → HasStart (texts_of settings.now at) (slot_records status_file.now.slots)
        → status_file_of (texts_of settings.now at) ≡ Ok status_file.now.slots
        → AreNamed (texts_of settings.now at) (map (λ file. file.now) files.now)
        → HasIndices (texts_of settings.now at) (released releases.items kept.now)
        → Q.says question.now (texts_of settings.now at) at.judged beside.old result beside.new }
    ensures kept { Q.keeps question.now settings.now beside.old result beside.new }
    ensures read { IsReadBy S.Shelf shelf.old result shelf.new }
{
    let indices = lend_indices(alloc, kept, releases)?;
    let prefs = read_preferences(alloc, shelf, settings)?;
    let before = Before {
        settings,
        status_file,
        files,
        indices: indices.as_slice(),
        prefs: &prefs,
    };
    question.answer(alloc, shelf, &before, beside)
}

/// Asks the question of the texts of a shelf: what is said by them, or the first refusal in the order status, sources, indices,
/// preferences. Each text is read once and at its turn, and none behind a refusal. `E5 Read` is refused where a text can't be read, at
/// its place; where memory was wanting, that is answered instead. Of the indices no more is held than what is kept of them. Reading is
/// linear in the texts but for the order of the stanzas, n log n.
pub fn ask<S: Shelf, Q: Question>(
    alloc: Global,
    shelf: &mut S,
    settings: &Settings<'_>,
    question: &Q,
    beside: &mut Q::Beside,
) -> Result<Q::Answer, Refusal>
    ensures said { (at : Shelved) → S.known_texts shelf.old ≡ Some at
        → Q.says question.now (texts_of settings.now at) at.judged beside.old result beside.new }
    ensures kept { Q.keeps question.now settings.now beside.old result beside.new }
    ensures read { IsReadBy S.Shelf shelf.old result shelf.new }
{
    let status = read_status(alloc, shelf, settings)?;
    let status_file = read_status_file(alloc, &status)?;
    let text = read_sources_text(alloc, shelf)?;
    let sources = read_sources(alloc, text.as_slice())?;
    let files = files_of(alloc, sources.as_slice())?;
    let (kept, releases) = read_indices(alloc, shelf, settings, sources)?;
    ask_by(
        alloc,
        shelf,
        settings,
        files.as_slice(),
        &status_file,
        kept.as_slice(),
        releases,
        question,
        beside,
    )
}

/// Asks the question of the texts in memory, beside a text that is judged, if there is one.
pub fn ask_bytes<Q: Question>(
    alloc: Global,
    inputs: &Inputs<'_, '_>,
    judged: Option<&[u8]>,
    settings: &Settings<'_>,
    question: &Q,
    beside: &mut Q::Beside,
) -> Result<Q::Answer, Refusal>
    ensures said { Q.says question.now
        (texts_of settings.now (shelved inputs.now (option_copied judged.entry)))
        (option_copied judged.entry)
        beside.old result beside.new }
    ensures kept { Q.keeps question.now settings.now beside.old result beside.new }
{
    let mut shelf = MemoryShelf::new(*inputs, judged);
    ask(alloc, &mut shelf, settings, question, beside)
}
