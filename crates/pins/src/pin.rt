// The versions that a record speaks of.

ghost use Rattle.std.specs.Prelude.{◌≡◌, IfOk, IfSome, None};
ghost use Rattle.std.specs.Option.{option_copied};
ghost use Rattle.rules.specs.VersionFault.{first_fault};
ghost use Rattle.pins.specs.Pin as Spec;
ghost use Rattle.pins.specs.Pin.{bare_host, host_of, pin_by, pin_of, release_pin, version_pin};

use crate::release_pin::items_of;
use crate::words::{before_last, has_newline, same_text, split_word};
use debversion::Version;
use rules::{Pin, Text, VersionText};
use std::alloc::{AllocError, Global};

fn version_in(text: &[u8]) -> Option<&[u8]>
    ensures version { option_copied result ≡ Spec.version_in text.now }
    ensures valid { IfSome result (λ version. first_fault version.now ≡ None) }
{
    match Version::parse(text) {
        Ok(_) => Some(text),
        Err(_) => None,
    }
}

fn version_pin(alloc: Global, text: &[u8]) -> Result<Option<Pin>, AllocError>
    ensures { IfOk result (λ pin. pin ≡ version_pin text.now) }
{
    if let Some(beginning) = before_last(b'*', text) {
        let beginning = Text::copied_from(alloc, beginning)?;
        return Ok(Some(Pin::VersionBeginning(beginning)));
    }
    match version_in(text) {
        None => Ok(None),
        Some(version) => Ok(Some(Pin::Version(VersionText::copied_from(alloc, version)?))),
    }
}

fn release_pin(alloc: Global, text: &[u8]) -> Result<Option<Pin>, AllocError>
    ensures { IfOk result (λ pin. pin ≡ release_pin text.now) }
{
    match items_of(alloc, text)? {
        None => Ok(None),
        Some(items) => Ok(Some(Pin::Release(items))),
    }
}

fn bare_host(text: &[u8]) -> Option<&[u8]>
    ensures { option_copied result ≡ bare_host text.now }
{
    match before_last(b'"', text) {
        None => Some(text),
        Some(_) => None,
    }
}

fn host_of(text: &[u8]) -> Option<&[u8]>
    ensures { option_copied result ≡ host_of text.now }
{
    match text {
        [] => None,
        [b'"', rest @ ..] => before_last(b'"', rest),
        _ => bare_host(text),
    }
}

fn origin_pin(alloc: Global, text: &[u8]) -> Result<Option<Pin>, AllocError>
    ensures { IfOk result (λ pin. pin ≡ Spec.origin_pin text.now) }
{
    match host_of(text) {
        None => Ok(None),
        Some(host) => Ok(Some(Pin::Origin(Text::copied_from(alloc, host)?))),
    }
}

fn pin_by(alloc: Global, word: &[u8], text: &[u8]) -> Result<Option<Pin>, AllocError>
    ensures { IfOk result (λ pin. pin ≡ pin_by word.now text.now) }
{
    if same_text(word, b"version") {
        version_pin(alloc, text)
    } else if same_text(word, b"release") {
        release_pin(alloc, text)
    } else if same_text(word, b"origin") {
        origin_pin(alloc, text)
    } else {
        Ok(None)
    }
}

/// The pin that the value of a field Pin writes, if it does. Linear in the value.
pub fn pin_of(alloc: Global, value: &[u8]) -> Result<Option<Pin>, AllocError>
    ensures { IfOk result (λ pin. pin ≡ pin_of value.now) }
{
    if has_newline(value) {
        return Ok(None);
    }
    let (word, text) = split_word(value);
    pin_by(alloc, word, text)
}
