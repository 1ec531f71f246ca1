//! A field's name and value, from the bytes of its lines.
ghost use Rattle.std.specs.Prelude.{◌≡◌, ◌≤◌, ◌-◌, ◌++◌, ℕ, List, length, drop, position};
ghost use Rattle.std.specs.List.{prefix_len, suffix_len};
ghost use Rattle.stanza.specs.Line.{is_white};
ghost use Rattle.stanza.specs.Field.{is_colon, without_newline, trim_front, trim_end, name_of, value_of};
ghost use Rattle.stanza.specs.Starts.{behind_colon, trim};

use crate::lines::is_white;
use crate::names::COLON;

/// Where the line's first colon stands.
pub fn colon_of(line: &[u8]) -> Option<usize>
    ensures { result ≡ position is_colon line.now }
{
    line.iter().position(|b| *b == COLON)
}

/// What stands before the line's first colon, or the whole line.
pub fn name_of(line: &[u8]) -> &[u8]
    ensures { result.now ≡ name_of line.now }
{
    match colon_of(line) {
        Some(at) => line.split_at(at).0,
        None => line,
    }
}

/// The value of a field, whose line and continuations these are.
pub fn value_of<'a>(line: &[u8], text: &'a [u8]) -> &'a [u8]
    requires { length line.now ≤ length text.now }
    ensures { (more : List ℕ) → text.now ≡ line.now ++ more → result.now ≡ value_of line.now more }
{
    let start = match colon_of(line) {
        Some(at) => at + 1,
        None => line.len(),
    };
    let (_, value) = text.split_at(start);
    trim(value)
}

/// What stands behind a name so long, its colon and white space, where these are the lines of its field.
pub fn value_behind(name_len: usize, lines: &[u8]) -> &[u8]
    requires { name_len ≤ length lines.now }
    ensures { result.now ≡ trim (behind_colon (drop name_len lines.now)) }
{
    trim(behind_colon(lines.split_at(name_len).1))
}

// What stands behind the colon at the front, if one stands there.
fn behind_colon(text: &[u8]) -> &[u8]
    ensures { result.now ≡ behind_colon text.now }
{
    match text {
        [b, rest @ ..] if *b == COLON => rest,
        _ => text,
    }
}

// The value without its newline and without white space at its ends.
fn trim(value: &[u8]) -> &[u8]
    ensures { result.now ≡ trim value.now }
{
    trim_end(trim_front(without_newline(value)))
}

#[tactic(auto, using(crate::proofs::FieldLemmas::newline_lemmas))]
fn without_newline(text: &[u8]) -> &[u8]
    ensures { result.now ≡ without_newline text.now }
{
    match text {
        [front @ .., b'\n'] => front,
        _ => text,
    }
}

fn trim_front(text: &[u8]) -> &[u8]
    ensures { result.now ≡ trim_front text.now }
{
    text.split_at(white_front(text)).1
}

fn trim_end(text: &[u8]) -> &[u8]
    ensures { result.now ≡ trim_end text.now }
{
    text.split_at(white_end(text)).0
}

/// How many spaces and tabs stand at the front.
fn white_front(text: &[u8]) -> usize
    ensures front { result ≡ prefix_len is_white text.now }
    ensures within { result ≤ length text.now }
{
    for (offset, b) in text.iter().enumerate() {
        if !is_white(*b) {
            return offset;
        }
    }
    text.len()
}

/// Where the spaces and tabs at the end begin.
fn white_end(text: &[u8]) -> usize
    ensures end { result ≡ length text.now - suffix_len is_white text.now }
    ensures within { result ≤ length text.now }
{
    let mut end = text.len();
    while end > 0 {
        if !is_white(text[end - 1]) {
            return end;
        }
        end -= 1;
    }
    end
}
