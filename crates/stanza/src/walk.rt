//! The stanzas of a text, one after another.
ghost use Rattle.std.specs.Prelude.{◌≡◌, ◌<◌, ◌≤◌, ◌+◌, ◌^◌, ◌∷◌, ◌||◌, [], ℕ, Bool, true, false, List, length, Result, Option, MatchOption};
ghost use Rattle.std.specs.Iterator.{YieldsFirst, item_count};
ghost use Rattle.stanza.specs.Line.{lines_of, is_comment, is_separator};
ghost use Rattle.stanza.specs.Front.{BeginsStanza, SkipsGap};
ghost use Rattle.stanza.specs.Stanza.{StanzaText, items_of_lines, items_of};
ghost use Rattle.stanza.specs.declared.form.Form.TheVariants.{Commented, Plain};

use crate::error::StanzaError;
use crate::form::Form;
use crate::front::first_stanza;
use crate::lines::{cut_line, is_comment, is_separator};
use crate::view::Stanza;
use std::marker::Model;

/// The stanzas of a text, and its first fault, after which nothing comes.
#[derive(Drop)]
pub struct Stanzas<'a> {
    rest: &'a [u8],
    before: usize,
    form: Form,
}

impl<'a> Model for Stanzas<'a> {
    ghost use Rattle.std.specs.Prelude.{List, Result, ◌+◌, ◌<◌, ◌^◌, length};
    ghost use Rattle.stanza.specs.declared.error.StanzaError.{StanzaError};
    ghost use Rattle.stanza.specs.Line.{lines_of};
    ghost use Rattle.stanza.specs.Stanza.{StanzaText, items_of_lines};

    ghost Value = { List (Result StanzaText StanzaError) };

    ghost view = { λ s. items_of_lines s.form (s.before + 1) (lines_of s.rest.now) };

    ghost invariant = { λ s. s.before + length s.rest.now < 2 ^ 64 };
}

impl<'a> Stanzas<'a> {
    /// The plain form: packages, status and their like.
    #[tactic(auto, unfolding(crate::specs::Stanza::items_of))]
    pub fn new(text: &'a [u8]) -> Stanzas<'a>
        ensures items { result ≡ items_of Plain text.now }
        ensures count { length result ≤ length text.now }
    {
        Stanzas {
            rest: text,
            before: 0,
            form: Form::Plain,
        }
    }

    /// The form in which a line that begins with `#` is a comment and `Explanation` may be repeated.
    #[tactic(auto, unfolding(crate::specs::Stanza::items_of))]
    pub fn with_comments(text: &'a [u8]) -> Stanzas<'a>
        ensures items { result ≡ items_of Commented text.now }
        ensures count { length result ≤ length text.now }
    {
        Stanzas {
            rest: text,
            before: 0,
            form: Form::Commented,
        }
    }
}

impl<'a> Iterator for Stanzas<'a> {
    type Item = Result<Stanza<'a>, StanzaError>;

    ghost next_gives = { YieldsFirst (λ items. items) };

    ghost remaining = { item_count (λ items. items) };

    fn next(&mut self) -> Option<Result<Stanza<'a>, StanzaError>> {
        let (item, rest, before) = take_stanza(self.form, self.before, self.rest);
        self.rest = rest;
        self.before = before;
        item
    }
}

/// The first item of the text, whose lines stand after `before` others, and what follows it.
fn take_stanza<'a>(
    form: Form,
    before: usize,
    text: &'a [u8],
) -> (Option<Result<Stanza<'a>, StanzaError>>, &'a [u8], usize)
    requires { before + length text.now < 2 ^ 64 }
    ensures taken { MatchOption result.0
        ((items_of_lines form (before + 1) (lines_of text.now) ≡ [])
        × (items_of_lines form (result.2 + 1) (lines_of result.1.now) ≡ []))
        (λ item. items_of_lines form (before + 1) (lines_of text.now)
        ≡ item ∷ items_of_lines form (result.2 + 1) (lines_of result.1.now)) }
    ensures within { result.2 + length result.1.now < 2 ^ 64 }
{
    let (text, skipped) = skip_gap(form, text);
    let before = before + skipped;
    if text.is_empty() {
        return (None, text, before);
    }
    match first_stanza(form, before, text) {
        Ok(front) => (
            Some(Ok(Stanza::new(form, before, front.raw))),
            front.rest,
            before + front.lines,
        ),
        // Nothing is left to come after a fault.
        Err(fault) => (Some(Err(fault)), text.split_at(text.len()).1, before),
    }
}

/// The text from the first line on that is neither a separator nor a comment, and how many lines stand
/// before it.
fn skip_gap(form: Form, text: &[u8]) -> (&[u8], usize)
    ensures gap { SkipsGap form text.now result.0.now result.1 }
    ensures begins { 0 < length result.0.now → BeginsStanza form result.0.now }
{
    let mut rest = text;
    let mut skipped = 0;
    while !rest.is_empty() {
        let (line, after) = cut_line(rest);
        if !is_gap(form, line) {
            return (rest, skipped);
        }
        rest = after;
        skipped += 1;
    }
    (rest, skipped)
}

/// Whether the line stands between stanzas.
fn is_gap(form: Form, line: &[u8]) -> bool
    ensures { result ≡ (is_comment form line.now || is_separator line.now) }
{
    is_comment(form, line) || is_separator(line)
}
