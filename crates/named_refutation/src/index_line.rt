// The line of an index: a sum and a path.

ghost use Rattle.std.specs.Prelude.{◌≡◌, IfOk, drop, take};
ghost use Rattle.std.specs.List.{list_all};
ghost use Rattle.std.specs.Str.{bytes_eq};
ghost use Rattle.named_refutation.specs.Index.{index_by, index_front, index_of, is_sum, is_sum_digit};

use crate::named::IndexLine;
use rules::Text;
use std::alloc::{AllocError, Global};

/// The number of digits of a sum.
pub const SUM: usize = 64;

fn is_sum_digit(byte: u8) -> bool
    ensures { result ≡ is_sum_digit byte }
{
    byte.is_ascii_digit() || (b'a' <= byte && byte <= b'f')
}

fn has_sum_digits(text: &[u8]) -> bool
    ensures { result ≡ list_all is_sum_digit text.now }
{
    text.iter().all(|byte| is_sum_digit(*byte))
}

fn is_sum(text: &[u8]) -> bool
    ensures { result ≡ is_sum text.now }
{
    text.len() == SUM && has_sum_digits(text)
}

fn is_index_front(text: &[u8]) -> bool
    ensures { result ≡ bytes_eq text.now index_front }
{
    text == b"index ".as_slice()
}

// The first bytes of the text, so many or all, and what follows them.
fn cut_at(place: usize, text: &[u8]) -> (&[u8], &[u8])
    ensures front { result.0.now ≡ take place text.now }
    ensures back { result.1.now ≡ drop place text.now }
{
    text.split_at(place.min(text.len()))
}

// The index of this sum and of what stands behind it, if they are a sum, and a space and a path.
fn index_by(alloc: Global, sum: &[u8], behind: &[u8]) -> Result<Option<IndexLine>, AllocError>
    ensures { IfOk result (λ index. index ≡ index_by sum.now behind.now) }
{
    let [b' ', path @ ..] = behind else {
        return Ok(None);
    };
    if path.is_empty() || !is_sum(sum) {
        return Ok(None);
    }
    Ok(Some(IndexLine {
        sum: Text::copied_from(alloc, sum)?,
        path: Text::copied_from(alloc, path)?,
    }))
}

/// The index in the text of a line without its newline, if it has one. Linear in the text.
#[tactic(auto, unfolding(crate::specs::Index::index_of))]
pub(crate) fn index_of(alloc: Global, text: &[u8]) -> Result<Option<IndexLine>, AllocError>
    ensures { IfOk result (λ index. index ≡ index_of text.now) }
{
    let (front, rest) = cut_at(6, text);
    if !is_index_front(front) {
        return Ok(None);
    }
    let (sum, behind) = cut_at(SUM, rest);
    index_by(alloc, sum, behind)
}
