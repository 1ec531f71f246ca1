//! The texts, each at its turn: a text that can't be read is refused at its place.
ghost use Rattle.std.specs.Prelude.{◌≡◌, IfErr, IfOk, List, Some, ℕ};
ghost use Rattle.std.specs.Option.{option_map};
ghost use Rattle.inputs.specs.ReadBy.{IsReadBy};
ghost use Rattle.inputs.specs.Reading.{AreUnread, IsUnread, unread_at};
ghost use Rattle.inputs.specs.Texts.{Shelved, part_of};
ghost use Rattle.inputs.specs.declared.refusal.Input.TheVariants as place;

use crate::refusal::{Fault, Input, Refusal};
use crate::shelf::{ReadError, Shelf, WholeText};
use std::alloc::{AllocError, Global};

// The refusal of the text at this place, which wasn't read.
fn unread(place: Input, error: ReadError) -> Refusal
    ensures { result ≡ unread_at place error }
{
    match error {
        ReadError::Unreadable => Refusal {
            place,
            fault: Fault::Read,
        },
        ReadError::OutOfMemory => Refusal::from(AllocError),
    }
}

/// The text of this part, which is refused at this place where it can't be read.
pub fn read_part<S: Shelf>(
    alloc: Global,
    shelf: &mut S,
    part: WholeText,
    place: Input,
) -> Result<Vec<u8>, Refusal>
    ensures text { (at : Shelved) → S.known_texts shelf.old ≡ Some at
        → IfOk result (λ text. part_of at part ≡ Some text.items) }
    ensures missing { (at : Shelved) → S.known_texts shelf.old ≡ Some at
        → IfErr result (λ refused. IsUnread place (part_of at part) refused) }
    ensures read { IsReadBy S.Shelf shelf.old result shelf.new }
{
    match shelf.read(alloc, part) {
        Ok(text) => Ok(text),
        Err(error) => Err(unread(place, error)),
    }
}

/// The preferences, or nothing where none are asked for.
pub(crate) fn read_preferences_text<S: Shelf>(
    alloc: Global,
    shelf: &mut S,
) -> Result<Option<Vec<u8>>, Refusal>
    ensures text { (at : Shelved) → S.known_texts shelf.old ≡ Some at
        → IfOk result (λ text. at.preferences ≡ option_map (λ text. Some text.items) text) }
    ensures missing { (at : Shelved) → S.known_texts shelf.old ≡ Some at
        → IfErr result (λ refused. AreUnread at.preferences refused) }
    ensures read { IsReadBy S.Shelf shelf.old result shelf.new }
{
    match shelf.read_preferences(alloc) {
        Ok(text) => Ok(text),
        Err(error) => Err(unread(Input::Preferences, error)),
    }
}

/// Opens the text of the index of this number, whose source names this file.
pub fn open_index<S: Shelf>(
    alloc: Global,
    shelf: &mut S,
    number: usize,
    file: &[u8],
) -> Result<S::Text, Refusal>
    ensures text { (at : Shelved) → S.known_texts shelf.old ≡ Some at → IfOk result (λ text.
        (bytes : List ℕ) × (at.index number file.now ≡ Some bytes)
        × (S.Text.left text ≡ Some bytes)) }
    ensures missing { (at : Shelved) → S.known_texts shelf.old ≡ Some at
        → IfErr result
        (λ refused. IsUnread (place.Index number) (at.index number file.now) refused) }
    ensures fresh { IfOk result (λ text. S.Text.faults text ≡ 0) }
    ensures read { IsReadBy S.Shelf shelf.old result shelf.new }
{
    match shelf.open(alloc, number, file) {
        Ok(text) => Ok(text),
        Err(error) => Err(unread(Input::Index(number), error)),
    }
}
