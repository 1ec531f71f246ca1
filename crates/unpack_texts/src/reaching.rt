//! Going on to a stanza of an index.
ghost use Rattle.std.specs.Prelude.{◌≡◌, ◌≢◌, ◌≤◌, ◌+◌, ◌-◌, ◌^◌, ℕ, List, None, Some, IfErr, OnOk, min, true};
ghost use Rattle.stanza.specs.Stanza.{StanzaText};
ghost use Rattle.unpack_texts.specs.Fetched.{HasRead, IsStanzaAt, Items};
ghost use Rattle.unpack_texts.specs.declared.error.FetchError.TheVariants as error;

use crate::error::FetchError;
use stanza::{Reader, Source};

/// Goes on from the stanza of one number to that of another.
pub(crate) fn reach<S: Source>(
    reader: &mut Reader,
    source: &mut S,
    at: usize,
    number: usize,
) -> Result<(), FetchError>
    requires order { at ≤ number }
    requires sound { reader.old.failed ≡ None }
    ensures sound { OnOk result (reader.new.failed ≡ None) }
    ensures reached { (items : Items) (left : List ℕ) → S.left source.old ≡ Some left
        → HasRead items at reader.old left
        → OnOk result
        ((more : List ℕ) × (S.left source.new ≡ Some more)
        × HasRead items number reader.new more) }
    ensures changed { (items : Items) (left : List ℕ) → S.left source.old ≡ Some left
        → HasRead items at reader.old left
        → IfErr result
        (λ e. e ≡ error.Changed → (stanza : StanzaText) → ¬ IsStanzaAt items number stanza) }
    ensures known { (left : List ℕ) → S.left source.old ≡ Some left
        → IfErr result (λ e. e ≢ error.Read) }
    ensures sure { S.is_sure source.old ≡ true → (S.is_sure source.new ≡ true)
        × IfErr result (λ e. e ≢ error.Read) }
    ensures count { OnOk result (S.faults source.new ≡ S.faults source.old) }
    ensures failed { IfErr result
        (λ e. e ≡ error.Read → S.faults source.new ≡ min (S.faults source.old + 1) (2 ^ 64 - 1)) }
{
    let mut reached = at;
    while reached < number {
        if !reader.advance(source)? {
            return Err(FetchError::Changed);
        }
        reached += 1;
    }
    Ok(())
}
