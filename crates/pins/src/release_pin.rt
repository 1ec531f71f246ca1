// The items of a release pin.

ghost use Rattle.std.specs.Prelude.{◌≡◌, IfOk, MatchOption, map};
ghost use Rattle.std.specs.List.{after_first, before_first, position, slice_split};
ghost use Rattle.pins.specs.Pin as Spec;
ghost use Rattle.pins.specs.Pin.{is_comma, is_equals, item_of, item_with, items_in, key_of};

use crate::words::{same_text, trim};
use rules::{Items, ReleaseItem, ReleaseKey, Text};
use std::alloc::{AllocError, Global};

fn key_of(text: &[u8]) -> Option<ReleaseKey>
    ensures { result ≡ key_of text.now }
{
    if same_text(text, b"a") {
        Some(ReleaseKey::Archive)
    } else if same_text(text, b"n") {
        Some(ReleaseKey::Codename)
    } else if same_text(text, b"v") {
        Some(ReleaseKey::Version)
    } else if same_text(text, b"c") {
        Some(ReleaseKey::Component)
    } else if same_text(text, b"o") {
        Some(ReleaseKey::Origin)
    } else if same_text(text, b"l") {
        Some(ReleaseKey::Label)
    } else {
        None
    }
}

fn first_equals(text: &[u8]) -> Option<usize>
    ensures { result ≡ position is_equals text.now }
{
    text.iter().position(|byte| *byte == b'=')
}

fn split_item(text: &[u8]) -> (&[u8], &[u8])
    ensures key { result.0.now ≡ before_first is_equals text.now }
    ensures value { result.1.now ≡ after_first is_equals text.now }
{
    match first_equals(text) {
        None => (text, &text[text.len()..]),
        Some(at) => (text.split_at(at).0, text.split_at(at + 1).1),
    }
}

fn item_with(
    alloc: Global,
    value: &[u8],
    key: ReleaseKey,
) -> Result<Option<ReleaseItem>, AllocError>
    ensures { IfOk result (λ item. item ≡ item_with value.now key) }
{
    if value.is_empty() {
        return Ok(None);
    }
    let value = Text::copied_from(alloc, value)?;
    Ok(Some(ReleaseItem { key, value }))
}

fn item_of(alloc: Global, text: &[u8]) -> Result<Option<ReleaseItem>, AllocError>
    ensures { IfOk result (λ item. item ≡ item_of text.now) }
{
    let (key, value) = split_item(text);
    match key_of(key) {
        None => Ok(None),
        Some(key) => item_with(alloc, value, key),
    }
}

fn parts_of<'a>(alloc: Global, text: &'a [u8]) -> Result<Vec<&'a [u8]>, AllocError>
    ensures { IfOk result
        (λ parts. map (λ part. part.now) parts.items ≡ slice_split is_comma text.now) }
{
    text.split(|byte| *byte == b',').collect(alloc)
}

fn items_in(alloc: Global, parts: &[&[u8]]) -> Result<Option<Items<ReleaseItem>>, AllocError>
    ensures { IfOk result (λ items. items ≡ items_in (map (λ part. part.now) parts.now)) }
{
    let mut items = Vec::new(alloc);
    for part in parts {
        match item_of(alloc, trim(*part))? {
            None => return Ok(None),
            Some(item) => items.push(item)?,
        }
    }
    Ok(Some(Items::new(items)))
}

/// The items of a release pin, if commas part the text into such. Linear in the text.
pub fn items_of(alloc: Global, text: &[u8]) -> Result<Option<Items<ReleaseItem>>, AllocError>
    ensures { IfOk result (λ items. items ≡ items_in (slice_split is_comma text.now)) }
{
    let parts = parts_of(alloc, text)?;
    items_in(alloc, parts.as_slice())
}
