//! A stanza whose lines were cut when it was read: where its fields begin is known.
ghost use Rattle.std.specs.Prelude.{◌≡◌, ◌<◌, ◌≤◌, ◌+◌, ◌^◌, ◌∷◌, ℕ, Bool, List, length, take, drop, map};
ghost use Rattle.std.specs.Iterator.{YieldsFirst, item_count};
ghost use Rattle.std.specs.Option.{option_copied};
ghost use Rattle.stanza.specs.Line.{lines_of};
ghost use Rattle.stanza.specs.Field.{FieldText, fields_of, value_named};
ghost use Rattle.stanza.specs.Stanza.{StanzaText, stanza_of};
ghost use Rattle.stanza.specs.Starts.{AreWithin, IsOneField, IsWithin, bytes_between, field_at, first_at, first_field, starts_of};
ghost use Rattle.stanza.specs.declared.form.Form.TheVariants.{Plain};

use crate::entries::{Field, continuations};
use crate::form::Form;
use crate::lines::cut_line;
use crate::names::same_name;
use crate::values::value_behind;
use std::marker::Model;

/// Where a field begins in its stanza's bytes, how long its name is, and the number of its line.
#[derive(Clone, Copy, Drop)]
pub struct FieldStart {
    pub at: usize,
    pub name_len: usize,
    pub line: usize,
}

/// So many bytes behind an offset, or as many as there are.
pub fn part(bytes: &[u8], at: usize, len: usize) -> &[u8]
    ensures { result.now ≡ take len (drop at bytes.now) }
{
    let (_, rest) = bytes.split_at(at.min(bytes.len()));
    rest.split_at(len.min(rest.len())).0
}

/// A field of a stanza that was read: its name, and its lines.
#[derive(Drop)]
pub struct FieldAt<'a> {
    name: &'a [u8],
    lines: &'a [u8],
    number: usize,
}

impl<'a> Model for FieldAt<'a> {
    ghost Value = { FieldText };

    ghost view = { λ f. first_field f.number (lines_of f.lines.now) };

    ghost invariant = { λ f. IsOneField f.lines.now × (f.name.now ≡ (first_field f.number (lines_of f.lines.now)).name) };
}

impl<'a> FieldAt<'a> {
    /// The name, as it is spelled.
    #[inline]
    pub fn name(&self) -> &'a [u8]
        ensures { result.now ≡ self.now.name }
    {
        self.name
    }

    /// The number of the line on which it begins.
    #[inline]
    pub fn line(&self) -> usize
        ensures { result ≡ self.now.line }
    {
        self.number
    }

    /// The value, without the spaces and tabs at its ends. Its inner newlines are kept. It is cut out of the lines at each call.
    pub fn value(&self) -> &'a [u8]
        ensures { result.now ≡ self.now.value }
    {
        value_behind(self.name.len(), self.lines)
    }

    /// The field with its value cut out.
    pub fn field(&self) -> Field<'a>
        ensures { result ≡ self.now }
    {
        Field::new(self.name, self.value(), self.number)
    }
}

// The lines of the field that these bytes begin with.
fn field_front(text: &[u8]) -> &[u8]
    requires { 0 < length text.now }
    ensures alone { IsOneField result.now }
    ensures field { (n : ℕ) → first_field n (lines_of result.now)
        ≡ first_field n (lines_of text.now) }
{
    let (line, after) = cut_line(text);
    let (len, _) = continuations(after);
    text.split_at(line.len() + len).0
}

// The lines of the field that these bytes begin with: in the plain form no other bytes are among them.
fn own_lines(form: Form, text: &[u8]) -> &[u8]
    requires some { 0 < length text.now }
    requires alone { form ≡ Plain → IsOneField text.now }
    ensures alone { IsOneField result.now }
    ensures field { (n : ℕ) → first_field n (lines_of result.now)
        ≡ first_field n (lines_of text.now) }
{
    match form {
        Form::Plain => text,
        Form::Commented => field_front(text),
    }
}

/// The fields of a stanza that was read, from the first on.
#[derive(Drop)]
pub struct ReadFields<'a> {
    form: Form,
    raw: &'a [u8],
    starts: &'a [FieldStart],
}

impl<'a> Model for ReadFields<'a> {
    ghost Value = { List FieldText };

    ghost view = { λ f. map (field_at f.raw.now) f.starts.now };

    ghost invariant = { λ f. AreWithin f.form f.raw.now f.starts.now };
}

impl<'a> Iterator for ReadFields<'a> {
    type Item = FieldAt<'a>;

    ghost next_gives = { YieldsFirst (λ fields. fields) };

    ghost remaining = { item_count (λ fields. fields) };

    #[inline]
    fn next(&mut self) -> Option<FieldAt<'a>> {
        let (start, later) = self.starts.split_first()?;
        let field = field_of(self.form, self.raw, start, later);
        self.starts = later;
        Some(field)
    }
}

// Where the first of these fields begins, or where so many bytes end.
fn first_at(most: usize, starts: &[FieldStart]) -> usize
    ensures { result ≡ first_at most starts.now }
{
    match starts {
        [start, ..] => start.at,
        [] => most,
    }
}

// The bytes from a start to the first of the later ones.
fn bytes_between<'a>(raw: &'a [u8], start: &FieldStart, later: &[FieldStart]) -> &'a [u8]
    requires begin { start.now.at < first_at (length raw.now) later.now }
    requires end { first_at (length raw.now) later.now ≤ length raw.now }
    ensures { result.now ≡ bytes_between raw.now start.now later.now }
{
    let end = first_at(raw.len(), later);
    raw.split_at(end).0.split_at(start.at).1
}

// The field that begins there, before the first of the later ones.
fn field_of<'a>(form: Form, raw: &'a [u8], start: &FieldStart, later: &[FieldStart]) -> FieldAt<'a>
    requires { IsWithin form raw.now start.now later.now }
    ensures { result ≡ field_at raw.now start.now }
{
    let text = bytes_between(raw, start, later);
    FieldAt {
        name: text.split_at(start.name_len).0,
        lines: own_lines(form, text),
        number: start.line,
    }
}

/// A stanza that was read, whose fields are known. It borrows what has read it.
#[derive(Drop)]
pub struct ReadStanza<'a> {
    form: Form,
    line: usize,
    raw: &'a [u8],
    starts: &'a [FieldStart],
}

impl<'a> Model for ReadStanza<'a> {
    ghost Value = { StanzaText };

    ghost view = { λ s. stanza_of s.form s.line (lines_of s.raw.now) };

    ghost invariant = { λ s. (0 < length s.raw.now) × (s.starts.now ≡ starts_of s.form 0 s.line (lines_of s.raw.now)) };
}

impl<'a> ReadStanza<'a> {
    // The stanza of these bytes, whose first line has this number, with where its fields begin.
    #[inline]
    pub(crate) fn new(
        form: Form,
        line: usize,
        raw: &'a [u8],
        starts: &'a [FieldStart],
    ) -> ReadStanza<'a>
        requires some { 0 < length raw.now }
        requires starts { starts.now ≡ starts_of form 0 line (lines_of raw.now) }
        ensures { result ≡ stanza_of form line (lines_of raw.now) }
    {
        ReadStanza {
            form,
            line,
            raw,
            starts,
        }
    }

    /// The value of the first field of this name, whatever the case of its letters. It goes over the fields.
    pub fn get(&self, name: &[u8]) -> Option<&'a [u8]>
        ensures { option_copied result ≡ value_named name.now self.now.fields }
    {
        for field in self.fields() {
            if same_name(field.name(), name) {
                return Some(field.value());
            }
        }
        None
    }

    /// The fields, in the order of the text.
    #[inline]
    pub fn fields(&self) -> ReadFields<'a>
        ensures { result ≡ self.now.fields }
    {
        ReadFields {
            form: self.form,
            raw: self.raw,
            starts: self.starts,
        }
    }

    /// The number of the line of its first field.
    #[inline]
    pub fn line(&self) -> usize
        ensures { result ≡ self.now.line }
    {
        self.line
    }

    /// Its bytes, from its first field's line to the end of its last field: the last newline, where
    /// there, and comments between fields are among them.
    #[inline]
    pub fn raw(&self) -> &'a [u8]
        ensures { result.now ≡ self.now.raw }
    {
        self.raw
    }
}
