//! The stanzas of a text that comes piece by piece.
ghost use Rattle.std.specs.Prelude.{◌≡◌, ◌≢◌, ◌<◌, ◌≤◌, ◌⊎◌, ◌+◌, ◌-◌, ◌^◌, ◌∷◌, [], ℕ, Bool, false, true, List, length, min, IfErr, IfOk, IfSome, OnOk, Err, None, Ok, Option, Some};
ghost use Rattle.std.specs.Option.{is_some};
ghost use Rattle.stanza.specs.Held.{Finds, IsHeld, IsPlaced, filled_of, read_of, total_of};
ghost use Rattle.stanza.specs.Reading.{GoesOn, Reading, begins, to_read};
ghost use Rattle.stanza.specs.declared.error.ReaderError.TheVariants as read_error;
ghost use Rattle.stanza.specs.declared.form.Form.TheVariants.{Commented, Plain};

use crate::error::ReaderError;
use crate::form::Form;
use crate::held::{Cut, Held, StanzaPlace};
use crate::source::Source;
use crate::starts::{FieldStart, ReadStanza, part};
use std::alloc::{AllocError, Global};
use std::marker::Model;

/// Reads the stanzas of a text one after another from a source, and holds one at a time, with what was read behind it.
#[derive(Drop)]
pub struct Reader {
    form: Form,
    held: Held,
    starts: Vec<FieldStart>,
    at: Option<StanzaPlace>,
    failed: Option<ReaderError>,
}

impl Model for Reader {
    ghost use Rattle.std.specs.Prelude.{◌≡◌, ◌+◌, None, IfSome};
    ghost use Rattle.std.specs.Option.{option_map};
    ghost use Rattle.stanza.specs.Held.{IsHeld, IsPlaced, filled_of, pending_of, stanza_at};
    ghost use Rattle.stanza.specs.Reading.{Reading};

    ghost Value = { Reading };

    ghost view = { λ r. record {
      form = r.form;
      number = r.held.before + 1;
      pending = pending_of r.held;
      room = r.held.room;
      stanza = option_map (stanza_at r.form (filled_of r.held)) r.at;
      failed = r.failed;
    } };

    ghost invariant = { λ r. (r.failed ≡ None → IsHeld r.held)
        × IfSome r.at (λ place. IsPlaced r.form (filled_of r.held) place r.starts.items) };
}

// Cuts the next stanza out of what is held, and reads more until it is whole.
fn read_on<S: Source>(
    form: Form,
    held: &mut Held,
    source: &mut S,
    starts: &mut Vec<FieldStart>,
) -> Result<Option<StanzaPlace>, ReaderError>
    requires held { IsHeld held.old }
    ensures held { OnOk result (IsHeld held.new) }
    ensures placed { IfOk result
        (λ reached. IfSome reached
        (λ place. IsPlaced form (filled_of held.new) place starts.new.items)) }
    ensures less { IfOk result
        (λ reached. IfSome reached (λ _. total_of held.new < total_of held.old)) }
    ensures known { (left : List ℕ) → S.left source.old ≡ Some left → IfOk result (λ reached.
        (more : List ℕ) × (S.left source.new ≡ Some more)
        × Finds form held.old held.new left more reached) }
    ensures refused { (left : List ℕ) → S.left source.old ≡ Some left
        → IfErr result (λ e. (e ≡ read_error.OutOfMemory)
        ⊎ (read_of form held.old left ≡ Err e ∷ [])) }
    ensures gives { (left : List ℕ) → S.left source.old ≡ Some left
        → IfErr result (λ e. e ≢ read_error.Read) }
    ensures sure { S.is_sure source.old ≡ true → (S.is_sure source.new ≡ true)
        × IfErr result (λ e. e ≢ read_error.Read) }
    ensures count { OnOk result (S.faults source.new ≡ S.faults source.old) }
    ensures failed { IfErr result
        (λ e. e ≡ read_error.Read → S.faults source.new
        ≡ min (S.faults source.old + 1) (2 ^ 64 - 1)) }
{
    let mut is_over = false;
    loop {
        match held.cut(form, is_over, starts)? {
            Cut::Stanza(place) => return Ok(Some(place)),
            Cut::Nothing => return Ok(None),
            Cut::More => is_over = held.fill(source)?,
        }
    }
}

impl Reader {
    /// A reader of the plain form: packages, status and their like. It reads no more than so many bytes.
    pub fn new(alloc: Global, most: usize) -> Result<Reader, AllocError>
        ensures { IfOk result (λ reader. reader ≡ begins Plain most) }
    {
        Reader::of_form(alloc, Form::Plain, most)
    }

    /// A reader of the form in which a line that begins with `#` is a comment and `Explanation` may be repeated.
    pub fn with_comments(alloc: Global, most: usize) -> Result<Reader, AllocError>
        ensures { IfOk result (λ reader. reader ≡ begins Commented most) }
    {
        Reader::of_form(alloc, Form::Commented, most)
    }

    fn of_form(alloc: Global, form: Form, most: usize) -> Result<Reader, AllocError>
        ensures { IfOk result (λ reader. reader ≡ begins form most) }
    {
        Ok(Reader {
            form,
            held: Held::new(alloc, most),
            starts: Vec::new(alloc),
            at: None,
            failed: None,
        })
    }

    /// Goes on to the next stanza, and answers whether there is one. After an error it answers that error from then on, and
    /// reads no more. About linear in the text, however many fields a stanza has.
    pub fn advance<S: Source>(&mut self, source: &mut S) -> Result<bool, ReaderError>
        ensures form { self.new.form ≡ self.old.form }
        ensures some { IfOk result (λ reached. reached ≡ is_some self.new.stanza) }
        ensures less { IfOk result
            (λ reached. reached ≡ true → length self.new.pending + self.new.room
            < length self.old.pending + self.old.room) }
        ensures known { (left : List ℕ) → S.left source.old ≡ Some left → IfOk result (λ _.
            (more : List ℕ) × (S.left source.new ≡ Some more)
            × GoesOn self.old self.new left more) }
        ensures refused { (left : List ℕ) → S.left source.old ≡ Some left → self.old.failed ≡ None
            → IfErr result (λ e. (e ≡ read_error.OutOfMemory)
            ⊎ (to_read self.old left ≡ Err e ∷ [])) }
        ensures kept { IfErr result (λ e. self.new.failed ≡ Some e) }
        ensures goes_on { OnOk result (self.new.failed ≡ None) }
        ensures again { (e : _) → self.old.failed ≡ Some e → (result ≡ Err e)
            × (source.new ≡ source.old) }
        ensures gives { (left : List ℕ) → S.left source.old ≡ Some left → self.old.failed ≡ None
            → IfErr result (λ e. e ≢ read_error.Read) }
        ensures sure { S.is_sure source.old ≡ true → (S.is_sure source.new ≡ true)
            × (self.old.failed ≡ None → IfErr result (λ e. e ≢ read_error.Read)) }
        ensures count { OnOk result (S.faults source.new ≡ S.faults source.old) }
        ensures failed { self.old.failed ≡ None
            → IfErr result
            (λ e. e ≡ read_error.Read → S.faults source.new
            ≡ min (S.faults source.old + 1) (2 ^ 64 - 1)) }
    {
        if let Some(failed) = self.failed {
            return Err(failed);
        }
        self.at = None;
        match read_on(self.form, &mut self.held, source, &mut self.starts) {
            Ok(reached) => {
                self.at = reached;
                Ok(reached.is_some())
            }
            Err(failed) => {
                self.failed = Some(failed);
                Err(failed)
            }
        }
    }

    /// The stanza that was reached.
    pub fn stanza(&self) -> Option<ReadStanza<'_>>
        ensures { result ≡ self.now.stanza }
    {
        let place = self.at?;
        let raw = part(self.held.filled_bytes(), place.from, place.len);
        Some(ReadStanza::new(self.form, place.line, raw, &self.starts))
    }
}
