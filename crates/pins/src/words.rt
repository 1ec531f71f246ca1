// The words of a field's value, and white space.

ghost use Rattle.std.specs.Prelude.{◌≡◌, ◌-◌, ◌≤◌, IfOk, length, map};
ghost use Rattle.std.specs.List.{list_any, prefix_len, slice_split, suffix_len};
ghost use Rattle.std.specs.Option.{option_copied};
ghost use Rattle.std.specs.Str.{bytes_eq};
ghost use Rattle.stanza.specs.Field.{trim_end, trim_front};
ghost use Rattle.stanza.specs.Line as Line;
ghost use Rattle.pins.specs.Words as Spec;
ghost use Rattle.pins.specs.Words.{after_word, before_last, is_newline, is_word_byte, trim, word_of, words_of};

use std::alloc::{AllocError, Global};

fn is_white(byte: u8) -> bool
    ensures { result ≡ Line.is_white byte }
{
    byte == b' ' || byte == b'\t'
}

fn is_gap(byte: u8) -> bool
    ensures { result ≡ Spec.is_gap byte }
{
    is_white(byte) || byte == b'\n'
}

/// Whether the texts are equal, byte for byte.
pub fn same_text(text: &[u8], other: &[u8]) -> bool
    ensures { result ≡ bytes_eq text.now other.now }
{
    text == other
}

/// Whether a newline stands in the text.
pub fn has_newline(text: &[u8]) -> bool
    ensures { result ≡ list_any is_newline text.now }
{
    text.iter().any(|byte| *byte == b'\n')
}

fn white_front(text: &[u8]) -> usize
    ensures value { result ≡ prefix_len Line.is_white text.now }
    ensures within { result ≤ length text.now }
{
    text.iter().take_while(|byte| is_white(**byte)).count()
}

fn white_end(text: &[u8]) -> usize
    ensures value { result ≡ suffix_len Line.is_white text.now }
    ensures within { result ≤ length text.now }
{
    text.iter()
        .rev()
        .take_while(|byte| is_white(**byte))
        .count()
}

fn word_len(text: &[u8]) -> usize
    ensures value { result ≡ prefix_len is_word_byte text.now }
    ensures within { result ≤ length text.now }
{
    text.iter().take_while(|byte| !is_white(**byte)).count()
}

fn trim_front(text: &[u8]) -> &[u8]
    ensures { result.now ≡ trim_front text.now }
{
    text.split_at(white_front(text)).1
}

fn trim_end(text: &[u8]) -> &[u8]
    ensures { result.now ≡ trim_end text.now }
{
    text.split_at(text.len() - white_end(text)).0
}

/// The text without the spaces and tabs at its ends.
pub fn trim(text: &[u8]) -> &[u8]
    ensures { result.now ≡ trim text.now }
{
    trim_end(trim_front(text))
}

/// The word at the front, and what follows it and the white space behind it.
pub fn split_word(text: &[u8]) -> (&[u8], &[u8])
    ensures word { result.0.now ≡ word_of text.now }
    ensures rest { result.1.now ≡ after_word text.now }
{
    let (word, rest) = text.split_at(word_len(text));
    (word, trim_front(rest))
}

fn parts_of<'a>(alloc: Global, text: &'a [u8]) -> Result<Vec<&'a [u8]>, AllocError>
    ensures { IfOk result
        (λ parts. map (λ part. part.now) parts.items ≡ slice_split Spec.is_gap text.now) }
{
    text.split(|byte| is_gap(*byte)).collect(alloc)
}

/// The words of a value, which white space parts.
pub fn words_of<'a>(alloc: Global, text: &'a [u8]) -> Result<Vec<&'a [u8]>, AllocError>
    ensures { IfOk result (λ words. map (λ word. word.now) words.items ≡ words_of text.now) }
{
    let mut words = parts_of(alloc, text)?;
    words.retain(|word| !word.is_empty());
    Ok(words)
}

/// What stands before the byte at the end, if the text ends with it.
pub fn before_last(byte: u8, text: &[u8]) -> Option<&[u8]>
    ensures { option_copied result ≡ before_last byte text.now }
{
    text.strip_suffix(&[byte])
}
