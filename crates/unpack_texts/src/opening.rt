//! The second opening of an index.
ghost use Rattle.std.specs.Prelude.{◌≡◌, IfErr, IfOk, List, Some, length, map, ℕ};
ghost use Rattle.std.specs.List.{AllZip};
ghost use Rattle.std.specs.List.Sorted.{IsNonDecreasingBy};
ghost use Rattle.inputs.specs.ReadBy.{IsReadBy};
ghost use Rattle.inputs.specs.Texts.{Shelved};
ghost use Rattle.unpack_texts.specs.Fetched.{items_in};
ghost use Rattle.unpack_texts.specs.Opened.{IsOpenedFault};
ghost use Rattle.unpack_texts.specs.Texts.{IsEnded};

use crate::ending::all_ended;
use crate::error::FetchError;
use crate::fetching::fetch;
use index::IndexEntry;
use inputs::{Fault, Input, Refusal, Shelf, open_index, refused_at};
use std::alloc::{AllocError, Global};

/// The texts of the stanzas of these packages, each with a newline at its end, in a second opening of the index of this number, whose source names this file.
pub(crate) fn fetch_from<S: Shelf>(
    alloc: Global,
    shelf: &mut S,
    arch: &[u8],
    number: usize,
    file: &[u8],
    wanted: &[&IndexEntry<'_>],
) -> Result<Vec<Vec<u8>>, Refusal>
    requires { IsNonDecreasingBy (λ entry. entry.now.place.stanza) wanted.now }
    ensures each { IfOk result (λ texts. length texts.items ≡ length wanted.now) }
    ensures fetched { (at : Shelved) → S.known_texts shelf.old ≡ Some at → IfOk result (λ texts.
        (bytes : List ℕ) × (at.index number file.now ≡ Some bytes)
        × AllZip (IsEnded arch.now (items_in bytes)) (map (λ entry. entry.now) wanted.now)
        (map (λ text. text.items) texts.items)) }
    ensures refused { (at : Shelved) → S.known_texts shelf.old ≡ Some at → IfErr result (λ refused.
        IsOpenedFault arch.now number (at.index number file.now)
        (map (λ entry. entry.now) wanted.now) refused) }
    ensures read { IsReadBy S.Shelf shelf.old result shelf.new }
{
    let mut text = open_index(alloc, shelf, number, file)?;
    match fetch(alloc, &mut text, arch, wanted) {
        Ok(texts) => Ok(all_ended(alloc, texts)?),
        Err(FetchError::Changed) => Err(refused_at(Input::Index(number), Fault::Changed)),
        Err(FetchError::Read) => {
            shelf.close(text);
            Err(refused_at(Input::Index(number), Fault::Read))
        }
        Err(FetchError::OutOfMemory) => Err(Refusal::from(AllocError)),
    }
}
