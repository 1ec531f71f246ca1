//! One stanza: its bytes, its fields, and the value of a field by its name.
ghost use Rattle.std.specs.Prelude.{◌≡◌, ◌<◌, ◌+◌, ◌^◌, ◌∷◌, ℕ, Bool, List, length};
ghost use Rattle.std.specs.Option.{option_copied};
ghost use Rattle.stanza.specs.Line.{lines_of};
ghost use Rattle.stanza.specs.Field.{fields_of, value_named};
ghost use Rattle.stanza.specs.Stanza.{StanzaText, stanza_of};

use crate::entries::Fields;
use crate::form::Form;
use crate::names::same_name;
use std::marker::Model;

/// A stanza of a text that was read without a fault up to its end. It borrows the text.
#[derive(Drop)]
pub struct Stanza<'a> {
    raw: &'a [u8],
    before: usize,
    form: Form,
}

impl<'a> Model for Stanza<'a> {
    ghost Value = { StanzaText };

    ghost view = { λ s. stanza_of s.form (s.before + 1) (lines_of s.raw.now) };

    ghost invariant = { λ s. (0 < length s.raw.now) × (s.before + length s.raw.now < 2 ^ 64) };
}

impl<'a> Stanza<'a> {
    /// The stanza of these lines, which stand after `before` others.
    #[inline]
    pub(crate) fn new(form: Form, before: usize, raw: &'a [u8]) -> Stanza<'a>
        requires some { 0 < length raw.now }
        requires fits { before + length raw.now < 2 ^ 64 }
        ensures { result ≡ stanza_of form (before + 1) (lines_of raw.now) }
    {
        Stanza { raw, before, form }
    }

    /// The same stanza once more.
    #[inline]
    pub fn again(&self) -> Stanza<'a>
        ensures { result ≡ self.now }
    {
        Stanza::new(self.form, self.before, self.raw)
    }

    /// The value of the first field of this name, whatever the case of its letters. It walks over the
    /// stanza's lines: where many fields are wanted, one walk over `fields` is cheaper.
    pub fn get(&self, name: &[u8]) -> Option<&'a [u8]>
        ensures { option_copied result ≡ value_named name.now self.now.fields }
    {
        for field in self.fields() {
            if same_name(field.name(), name) {
                return Some(field.value());
            }
        }
        None
    }

    /// The fields, in the order of the text.
    #[inline]
    pub fn fields(&self) -> Fields<'a>
        ensures { result ≡ self.now.fields }
    {
        Fields::new(self.form, self.before, self.raw)
    }

    /// The number of the line of its first field.
    #[inline]
    pub fn line(&self) -> usize
        ensures { result ≡ self.now.line }
    {
        self.before + 1
    }

    /// Its bytes, from its first field's line to the end of its last field: the last newline, where
    /// there, and comments between fields are among them.
    #[inline]
    pub fn raw(&self) -> &'a [u8]
        ensures { result.now ≡ self.now.raw }
    {
        self.raw
    }
}
