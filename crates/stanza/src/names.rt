//! Names of fields: which bytes they have, when two are one, and a cheap hash of them.
ghost use Rattle.std.specs.Prelude.{◌≡◌, ◌<◌, ◌≤◌, ℕ, true, length, MatchResult, Some};
ghost use Rattle.std.specs.List.{list_all, list_any, prefix_len};
ghost use Rattle.stanza.specs.Field.{is_colon, is_name_byte, is_name, name_of, same_name};
ghost use Rattle.stanza.specs.Name.{begins_colon, name_fault};

use crate::error::StanzaError;
use crate::lines::HASH;

pub const COLON: u8 = b':';

pub const HYPHEN: u8 = b'-';

// 1 at each byte that a name may have
#[rattlefmt::skip]
static NAME_BYTES: [u8; 256] = [
    0, 0, 0, 0, 0, 0, 0, 0, 0, 0, 0, 0, 0, 0, 0, 0,
    0, 0, 0, 0, 0, 0, 0, 0, 0, 0, 0, 0, 0, 0, 0, 0,
    0, 1, 1, 1, 1, 1, 1, 1, 1, 1, 1, 1, 1, 1, 1, 1,
    1, 1, 1, 1, 1, 1, 1, 1, 1, 1, 0, 1, 1, 1, 1, 1,
    1, 1, 1, 1, 1, 1, 1, 1, 1, 1, 1, 1, 1, 1, 1, 1,
    1, 1, 1, 1, 1, 1, 1, 1, 1, 1, 1, 1, 1, 1, 1, 1,
    1, 1, 1, 1, 1, 1, 1, 1, 1, 1, 1, 1, 1, 1, 1, 1,
    1, 1, 1, 1, 1, 1, 1, 1, 1, 1, 1, 1, 1, 1, 1, 0,
    0, 0, 0, 0, 0, 0, 0, 0, 0, 0, 0, 0, 0, 0, 0, 0,
    0, 0, 0, 0, 0, 0, 0, 0, 0, 0, 0, 0, 0, 0, 0, 0,
    0, 0, 0, 0, 0, 0, 0, 0, 0, 0, 0, 0, 0, 0, 0, 0,
    0, 0, 0, 0, 0, 0, 0, 0, 0, 0, 0, 0, 0, 0, 0, 0,
    0, 0, 0, 0, 0, 0, 0, 0, 0, 0, 0, 0, 0, 0, 0, 0,
    0, 0, 0, 0, 0, 0, 0, 0, 0, 0, 0, 0, 0, 0, 0, 0,
    0, 0, 0, 0, 0, 0, 0, 0, 0, 0, 0, 0, 0, 0, 0, 0,
    0, 0, 0, 0, 0, 0, 0, 0, 0, 0, 0, 0, 0, 0, 0, 0,
];

// Whether a name may have the byte.
#[inline(always)]
fn is_name_byte(b: u8) -> bool
    ensures { result ≡ is_name_byte b }
{
    NAME_BYTES[usize::from(b)] == 1
}

// How many bytes at the front of the line a name may have.
fn name_end(line: &[u8]) -> usize
    ensures end { result ≡ prefix_len is_name_byte line.now }
    ensures within { result ≤ length line.now }
{
    for (offset, b) in line.iter().enumerate() {
        if !is_name_byte(*b) {
            return offset;
        }
    }
    line.len()
}

// Whether a name, which has the bytes of one, begins as one.
fn begins_name(name: &[u8]) -> bool
    requires { list_all is_name_byte name.now ≡ true }
    ensures { result ≡ is_name name.now }
{
    match name {
        [first, ..] => !(*first == HASH || *first == HYPHEN),
        [] => false,
    }
}

fn begins_colon(text: &[u8]) -> bool
    ensures { result ≡ begins_colon text.now }
{
    match text {
        [b, ..] => *b == COLON,
        [] => false,
    }
}

fn has_colon(text: &[u8]) -> bool
    ensures { result ≡ list_any is_colon text.now }
{
    text.iter().any(|b| *b == COLON)
}

/// The name before the first colon of a line, which has this number. One walk over the name.
pub fn name_before_colon(number: usize, line: &[u8]) -> Result<&[u8], StanzaError>
    ensures { MatchResult result
        (λ name. (list_any is_colon line.now ≡ true) × (name.now ≡ name_of line.now)
        × (is_name name.now ≡ true))
        (λ fault. name_fault number line.now ≡ Some fault) }
{
    let (name, rest) = line.split_at(name_end(line));
    if begins_colon(rest) {
        if begins_name(name) {
            Ok(name)
        } else {
            Err(StanzaError::BadFieldName(number))
        }
    } else if has_colon(rest) {
        Err(StanzaError::BadFieldName(number))
    } else {
        Err(StanzaError::BadLine(number))
    }
}

/// Whether two names are one but for the case of ASCII letters.
pub fn same_name(a: &[u8], b: &[u8]) -> bool
    ensures { result ≡ same_name a.now b.now }
{
    a.eq_ignore_ascii_case(b)
}
