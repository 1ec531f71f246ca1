//! The fields of a stanza, one after another.
ghost use Rattle.std.specs.Prelude.{◌≡◌, ◌<◌, ◌≤◌, ◌+◌, ◌^◌, ◌∷◌, ◌++◌, [], ℕ, Bool, true, List, length, take, drop, MatchOption};
ghost use Rattle.std.specs.Iterator.{YieldsFirst, item_count};
ghost use Rattle.stanza.specs.Line.{lines_of, begins_field};
ghost use Rattle.stanza.specs.Field.{FieldText, fields_of, continued};
ghost use Rattle.stanza.specs.Cut.{SkipsLines, CutsContinuations};

use crate::form::Form;
use crate::lines::{begins_field, cut_line, is_continuation};
use crate::values::{name_of, value_of};
use std::marker::Model;

/// One field. Its name and value are bytes of the text.
#[derive(Drop)]
pub struct Field<'a> {
    name: &'a [u8],
    value: &'a [u8],
    line: usize,
}

impl<'a> Model for Field<'a> {
    ghost Value = { FieldText };

    ghost view = { λ f. record { name = f.name.now; value = f.value.now; line = f.line } };
}

impl<'a> Field<'a> {
    // The field of this name and value, which begins on this line.
    #[inline]
    pub(crate) fn new(name: &'a [u8], value: &'a [u8], line: usize) -> Field<'a>
        ensures { result ≡ record { name = name.now; value = value.now; line = line } }
    {
        Field { name, value, line }
    }

    /// The name, as it is spelled.
    #[inline]
    pub fn name(&self) -> &'a [u8]
        ensures { result.now ≡ self.now.name }
    {
        self.name
    }

    /// The value, without the spaces and tabs at its ends. Its inner newlines are kept.
    #[inline]
    pub fn value(&self) -> &'a [u8]
        ensures { result.now ≡ self.now.value }
    {
        self.value
    }

    /// The number of the line on which it begins.
    #[inline]
    pub fn line(&self) -> usize
        ensures { result ≡ self.now.line }
    {
        self.line
    }

    /// The same field once more.
    pub fn again(&self) -> Field<'a>
        ensures { result ≡ self.now }
    {
        Field {
            name: self.name,
            value: self.value,
            line: self.line,
        }
    }
}

/// The fields of a stanza, from the first on.
#[derive(Drop)]
pub struct Fields<'a> {
    rest: &'a [u8],
    before: usize,
    form: Form,
}

impl<'a> Model for Fields<'a> {
    ghost Value = { List FieldText };

    ghost view = { λ s. fields_of s.form (s.before + 1) (lines_of s.rest.now) };

    ghost invariant = { λ s. s.before + length s.rest.now < 2 ^ 64 };
}

impl<'a> Fields<'a> {
    /// The fields of these lines, which stand after `before` others.
    #[inline]
    pub(crate) fn new(form: Form, before: usize, lines: &'a [u8]) -> Fields<'a>
        requires { before + length lines.now < 2 ^ 64 }
        ensures { result ≡ fields_of form (before + 1) (lines_of lines.now) }
    {
        Fields {
            rest: lines,
            before,
            form,
        }
    }
}

impl<'a> Iterator for Fields<'a> {
    type Item = Field<'a>;

    ghost next_gives = { YieldsFirst (λ fields. fields) };

    ghost remaining = { item_count (λ fields. fields) };

    #[inline]
    fn next(&mut self) -> Option<Field<'a>> {
        let (field, rest, before) = take_field(self.form, self.before, self.rest);
        self.rest = rest;
        self.before = before;
        field
    }
}

/// The first field of the lines, which stand after `before` others, and what follows it.
#[inline]
fn take_field<'a>(form: Form, before: usize, text: &'a [u8]) -> (Option<Field<'a>>, &'a [u8], usize)
    requires { before + length text.now < 2 ^ 64 }
    ensures taken { MatchOption result.0
        ((fields_of form (before + 1) (lines_of text.now) ≡ []) × (result.1.now ≡ []))
        (λ field. fields_of form (before + 1) (lines_of text.now)
        ≡ field ∷ fields_of form (result.2 + 1) (lines_of result.1.now)) }
    ensures within { result.2 + length result.1.now < 2 ^ 64 }
{
    let (text, skipped) = skip_to_field(form, text);
    let before = before + skipped;
    if text.is_empty() {
        return (None, text, before);
    }
    let (line, after) = cut_line(text);
    let (len, lines) = continuations(after);
    let (lines_text, rest) = text.split_at(line.len() + len);
    let field = Field {
        name: name_of(line),
        value: value_of(line, lines_text),
        line: before + 1,
    };
    (Some(field), rest, before + 1 + lines)
}

/// The text from the first line on that begins a field, and how many lines stand before it.
fn skip_to_field(form: Form, text: &[u8]) -> (&[u8], usize)
    ensures skipped { SkipsLines form text.now result.0.now result.1 }
    ensures field { begins_field form result.0.now ≡ true }
{
    let mut rest = text;
    let mut skipped = 0;
    while !begins_field(form, rest) {
        let (_, after) = cut_line(rest);
        rest = after;
        skipped += 1;
    }
    (rest, skipped)
}

/// How many bytes at the front go on with the field before them, and how many lines.
pub(crate) fn continuations(text: &[u8]) -> (usize, usize)
    ensures { CutsContinuations text.now result.0 result.1 }
{
    let mut rest = text;
    let mut len = 0;
    let mut lines = 0;
    while is_continuation(rest) {
        let (line, after) = cut_line(rest);
        rest = after;
        len += line.len();
        lines += 1;
    }
    (len, lines)
}
