//! The first stanza of a text: its lines are tested in turn, up to a separator.
ghost use Rattle.std.specs.Prelude.{◌≡◌, ◌<◌, ◌≤◌, ◌+◌, ◌^◌, ◌∷◌, ◌++◌, [], ℕ, Bool, false, List, length, MatchOption, MatchResult, None, Some, if◌then◌else◌};
ghost use Rattle.stanza.specs.Line.{lines_of, begins_field, is_comment};
ghost use Rattle.std.specs.List.{list_any};
ghost use Rattle.stanza.specs.Field.{names_of, fields_of, same_name};
ghost use Rattle.stanza.specs.Fault.{FindsName, is_open, may_repeat, is_repeated, fault_of};
ghost use Rattle.stanza.specs.Seen.{AreSeen};
ghost use Rattle.stanza.specs.Front.{BeginsStanza, IsFront, HasFault};

use crate::entries::Fields;
use crate::error::StanzaError;
use crate::form::{Form, has_comments};
use crate::lines::{cut_line, is_comment, is_continuation, is_separator};
use crate::names::{name_before_colon, same_name};
use crate::seen::NameSlots;

/// A stanza's bytes, what follows its lines, and how many these are: comments after its last field
/// count, and are no part of its bytes.
#[derive(Drop)]
pub struct Front<'a> {
    pub raw: &'a [u8],
    pub rest: &'a [u8],
    pub lines: usize,
}

/// The stanza at the front of a text, whose first line stands after `before` others and belongs to it.
pub fn first_stanza<'a>(form: Form, before: usize, text: &'a [u8]) -> Result<Front<'a>, StanzaError>
    requires begins { BeginsStanza form text.now }
    requires fits { before + length text.now < 2 ^ 64 }
    ensures { MatchResult result
        (λ front. IsFront form (before + 1) text.now front.raw.now front.rest.now front.lines)
        (λ fault. HasFault form (before + 1) text.now fault) }
{
    let mut seen = NameSlots::new();
    let mut offset = 0;
    let mut lines = 0;
    let mut end = 0;
    let mut opened = false;
    while offset < text.len() {
        let (done, rest) = text.split_at(offset);
        let (line, _) = cut_line(rest);
        if is_separator(line) {
            let (raw, _) = text.split_at(end);
            return Ok(Front { raw, rest, lines });
        }
        test_line(form, done, opened, before + lines + 1, line, &mut seen)?;
        offset += line.len();
        lines += 1;
        opened = !is_comment(form, line);
        end = end_after(opened, end, offset);
    }
    let (raw, _) = text.split_at(end);
    let (_, rest) = text.split_at(offset);
    Ok(Front { raw, rest, lines })
}

/// Where the fields read so far end.
pub(crate) fn end_after(opened: bool, end: usize, offset: usize) -> usize
    ensures { result ≡ (if opened then offset else end) }
{
    if opened { offset } else { end }
}

/// The name on the line, which stands behind an open field or not, where it begins a field.
pub(crate) fn name_on<'a>(
    form: Form,
    opened: bool,
    number: usize,
    line: &'a [u8],
) -> Result<Option<&'a [u8]>, StanzaError>
    ensures { MatchResult result
        (λ name. FindsName form opened number line.now name)
        (λ fault. (before : List (List ℕ)) → opened ≡ is_open form before
        → fault_of form before number line.now ≡ Some fault) }
{
    if is_comment(form, line) {
        return Ok(None);
    }
    if is_continuation(line) {
        return if opened {
            Ok(None)
        } else {
            Err(StanzaError::BadLine(number))
        };
    }
    Ok(Some(name_before_colon(number, line)?))
}

/// Tests the line, which stands after `done` in its stanza, and takes the slot of a new name.
fn test_line(
    form: Form,
    done: &[u8],
    opened: bool,
    number: usize,
    line: &[u8],
    seen: &mut NameSlots,
) -> Result<(), StanzaError>
    requires follows { opened ≡ is_open form (lines_of done.now) }
    requires seen { AreSeen seen.old.slots (names_of form (lines_of done.now)) }
    ensures { MatchResult result
        (λ _. (fault_of form (lines_of done.now) number line.now ≡ None)
        × AreSeen seen.new.slots (names_of form (lines_of done.now ++ line.now ∷ [])))
        (λ fault. fault_of form (lines_of done.now) number line.now ≡ Some fault) }
{
    let Some(name) = name_on(form, opened, number, line)? else {
        return Ok(());
    };
    if is_known(form, done, seen, name) {
        return Err(StanzaError::DuplicateField(number));
    }
    seen.add(name);
    Ok(())
}

/// Whether a field before has the name, which may stand but once: where its slot is free, none has.
fn is_known(form: Form, done: &[u8], seen: &NameSlots, name: &[u8]) -> bool
    requires { AreSeen seen.now.slots (names_of form (lines_of done.now)) }
    ensures { result ≡ is_repeated form (lines_of done.now) name.now }
{
    if seen.has_slot_of(name) {
        is_repeated(form, done, name)
    } else {
        false
    }
}

/// Whether a field before has the name, which may stand but once. It walks over the stanza so far.
fn is_repeated(form: Form, done: &[u8], name: &[u8]) -> bool
    ensures { result ≡ is_repeated form (lines_of done.now) name.now }
{
    !may_repeat(form, name) && has_field(form, done, name)
}

fn has_field(form: Form, done: &[u8], name: &[u8]) -> bool
    ensures { result
        ≡ list_any (λ field. same_name field.name name.now) (fields_of form 1 (lines_of done.now)) }
{
    for field in Fields::new(form, 0, done) {
        if same_name(field.name(), name) {
            return true;
        }
    }
    false
}

/// Whether a stanza may have several fields of the name.
pub(crate) fn may_repeat(form: Form, name: &[u8]) -> bool
    ensures { result ≡ may_repeat form name.now }
{
    has_comments(form) && same_name(name, b"Explanation")
}
