//! The lines of a text, and which kind each is. A line keeps its newline.
ghost use Rattle.std.specs.Prelude.{◌≡◌, ◌<◌, ◌≤◌, ◌+◌, ◌^◌, ℕ, List, length};
ghost use Rattle.stanza.specs.Line.{is_white, is_separator, is_comment, is_continuation, begins_field};
ghost use Rattle.stanza.specs.Cut.{CutsLine};

use crate::form::{Form, has_comments};
use memchr::memchr;

pub const NEWLINE: u8 = b'\n';

pub const SPACE: u8 = b' ';

pub const TAB: u8 = b'\t';

pub const HASH: u8 = b'#';

/// The first line of a text that is not empty, and what follows it.
pub fn cut_line(text: &[u8]) -> (&[u8], &[u8])
    requires { 0 < length text.now }
    ensures { CutsLine text.now result.0.now result.1.now }
{
    let end = match memchr(NEWLINE, text) {
        Some(at) => at + 1,
        None => text.len(),
    };
    text.split_at(end)
}

/// Whether the byte is a space or a tab.
pub fn is_white(b: u8) -> bool
    ensures { result ≡ is_white b }
{
    b == SPACE || b == TAB
}

/// Whether the line parts stanzas.
pub fn is_separator(line: &[u8]) -> bool
    ensures { result ≡ is_separator line.now }
{
    line.iter().all(|b| is_white(*b) || *b == NEWLINE)
}

/// Whether the line is a comment.
pub fn is_comment(form: Form, line: &[u8]) -> bool
    ensures { result ≡ is_comment form line.now }
{
    match line {
        [b, ..] => has_comments(form) && *b == HASH,
        [] => false,
    }
}

/// Whether the line, or the text that begins with it, goes on with the field before it.
pub fn is_continuation(line: &[u8]) -> bool
    ensures { result ≡ is_continuation line.now }
{
    match line {
        [b, ..] => is_white(*b),
        [] => false,
    }
}

/// Whether the line begins a field.
pub fn begins_field(form: Form, line: &[u8]) -> bool
    ensures { result ≡ begins_field form line.now }
{
    !is_comment(form, line) && !is_continuation(line)
}
