//! The first stanza of a text of which more may come: its lines are tested in turn, up to a separator.
ghost use Rattle.std.specs.Prelude.{◌≡◌, ◌<◌, ◌≤◌, ◌⊎◌, ◌+◌, ◌-◌, ◌^◌, ◌∷◌, ◌++◌, ◌||◌, [], ℕ, Bool, true, false, List, length, take, drop, map, IfErr, IfOk, OnOk, MatchOption, MatchResult, None, Some};
ghost use Rattle.stanza.specs.Line.{lines_of, begins_field, is_comment, is_separator};
ghost use Rattle.stanza.specs.Field.{names_of, name_of};
ghost use Rattle.stanza.specs.Fault.{is_open, is_repeated, fault_of};
ghost use Rattle.stanza.specs.Known.{AreKnown};
ghost use Rattle.stanza.specs.Starts.{starts_of};
ghost use Rattle.stanza.specs.Streamed.{BeginsAhead, EndsLine, FindsAhead, IsFaulty, SkipsAhead, has_newline};
ghost use Rattle.stanza.specs.declared.error.ReaderError.TheVariants as read_error;

use crate::error::{ReaderError, StanzaError};
use crate::form::Form;
use crate::front::{end_after, may_repeat, name_on};
use crate::known::Known;
use crate::lines::{NEWLINE, is_comment, is_separator};
use crate::starts::FieldStart;
use memchr::memchr;
use std::alloc::AllocError;

/// Where the bytes of a stanza end, and how many bytes, of how many lines, are read with it: comments behind its last field are
/// read, and are no part of it.
#[derive(Clone, Copy, Drop)]
pub struct Ahead {
    pub end: usize,
    pub len: usize,
    pub lines: usize,
}

/// How long the first line of a text is, where it is whole: a text that isn't over may go on with a line that has no newline.
pub fn whole_line(text: &[u8], is_over: bool) -> Option<usize>
    requires { 0 < length text.now }
    ensures { MatchOption result
        ((is_over ≡ false) × (has_newline text.now ≡ false))
        (λ len. EndsLine is_over text.now len) }
{
    match memchr(NEWLINE, text) {
        Some(at) => Some(at + 1),
        None => { if is_over { Some(text.len()) } else { None } }
    }
}

// Whether the line stands between stanzas.
fn is_gap(form: Form, line: &[u8]) -> bool
    ensures { result ≡ (is_comment form line.now || is_separator line.now) }
{
    is_comment(form, line) || is_separator(line)
}

/// How many bytes, of how many lines, stand before the first stanza.
pub fn gap_ahead(form: Form, text: &[u8], is_over: bool) -> (usize, usize)
    ensures skipped { (n : ℕ) → SkipsAhead is_over form n text.now result.0 result.1 }
    ensures begins { BeginsAhead is_over form (drop result.0 text.now) }
{
    let mut offset = 0;
    let mut lines = 0;
    while offset < text.len() {
        let (_, rest) = text.split_at(offset);
        let Some(len) = whole_line(rest, is_over) else {
            return (offset, lines);
        };
        if !is_gap(form, rest.split_at(len).0) {
            return (offset, lines);
        }
        offset += len;
        lines += 1;
    }
    (offset, lines)
}

// Whether a field before has the name, which may stand but once.
fn is_known(
    form: Form,
    done: &[u8],
    starts: &[FieldStart],
    known: &mut Known,
    name: &[u8],
) -> Result<bool, AllocError>
    requires known { AreKnown known.old (names_of form (lines_of done.now)) }
    requires starts { (n : ℕ) × (starts.now ≡ starts_of form 0 n (lines_of done.now)) }
    ensures repeated { IfOk result (λ is. is ≡ is_repeated form (lines_of done.now) name.now) }
    ensures known { OnOk result (AreKnown known.new (names_of form (lines_of done.now))) }
{
    if may_repeat(form, name) {
        return Ok(false);
    }
    known.has(done, starts, name)
}

// Tests the line, which stands after `done` in its stanza, and notes the field that it begins.
fn take_line(
    form: Form,
    done: &[u8],
    opened: bool,
    number: usize,
    line: &[u8],
    known: &mut Known,
    starts: &mut Vec<FieldStart>,
) -> Result<(), ReaderError>
    requires follows { opened ≡ is_open form (lines_of done.now) }
    requires known { AreKnown known.old (names_of form (lines_of done.now)) }
    requires starts { (n : ℕ) × (starts.old.items ≡ starts_of form 0 n (lines_of done.now))
        × (number ≡ n + length (lines_of done.now)) }
    ensures clean { IfOk result (λ _. fault_of form (lines_of done.now) number line.now ≡ None) }
    ensures known { IfOk result
        (λ _. AreKnown known.new (names_of form (lines_of done.now ++ line.now ∷ []))) }
    ensures starts { IfOk result (λ _. (n : ℕ) → number ≡ n + length (lines_of done.now)
        → starts.new.items ≡ starts_of form 0 n (lines_of done.now ++ line.now ∷ [])) }
    ensures fault { IfErr result (λ e. (e ≡ read_error.OutOfMemory)
        ⊎ ((fault : _) × (e ≡ read_error.Refused fault)
        × (fault_of form (lines_of done.now) number line.now ≡ Some fault))) }
{
    let Some(name) = name_on(form, opened, number, line)? else {
        return Ok(());
    };
    if is_known(form, done, starts.as_slice(), known, name)? {
        return Err(ReaderError::Refused(StanzaError::DuplicateField(number)));
    }
    known.add(name);
    starts.push(FieldStart {
        at: done.len(),
        name_len: name.len(),
        line: number,
    })?;
    Ok(())
}

/// The stanza at the front of a text that isn't empty, whose first line stands after `before` others, and where its fields begin:
/// nothing where more of the text has to be read. About linear in the stanza.
pub fn stanza_ahead(
    form: Form,
    before: usize,
    text: &[u8],
    is_over: bool,
    starts: &mut Vec<FieldStart>,
) -> Result<Option<Ahead>, ReaderError>
    requires some { 0 < length text.now }
    requires begins { BeginsAhead is_over form text.now }
    requires fits { before + length text.now < 2 ^ 64 }
    ensures ahead { IfOk result
        (λ ahead. FindsAhead is_over form (before + 1) text.now starts.new.items ahead) }
    ensures fault { IfErr result (λ e. (e ≡ read_error.OutOfMemory)
        ⊎ ((fault : _) × (e ≡ read_error.Refused fault)
        × IsFaulty is_over form (before + 1) text.now fault)) }
{
    starts.clear();
    let mut known = Known::new(*starts.allocator());
    let mut offset = 0;
    let mut lines = 0;
    let mut end = 0;
    let mut opened = false;
    while offset < text.len() {
        let (done, rest) = text.split_at(offset);
        let Some(len) = whole_line(rest, is_over) else {
            return Ok(None);
        };
        let (line, _) = rest.split_at(len);
        if is_separator(line) {
            return Ok(Some(Ahead {
                end,
                len: offset,
                lines,
            }));
        }
        take_line(
            form,
            done,
            opened,
            before + lines + 1,
            line,
            &mut known,
            starts,
        )?;
        offset += len;
        lines += 1;
        opened = !is_comment(form, line);
        end = end_after(opened, end, offset);
    }
    if is_over {
        Ok(Some(Ahead {
            end,
            len: offset,
            lines,
        }))
    } else {
        Ok(None)
    }
}
