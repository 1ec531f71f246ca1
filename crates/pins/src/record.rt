// A record of a preferences file.

ghost use Rattle.std.specs.Prelude.{◌≡◌, IfErr, IfOk, Ok};
ghost use Rattle.stanza.specs.Field.{same_name};
ghost use Rattle.pins.specs.Error.{IsPrefsFault};
ghost use Rattle.pins.specs.Names.{names_of};
ghost use Rattle.pins.specs.Number.{number_of};
ghost use Rattle.pins.specs.Pin.{pin_of};
ghost use Rattle.pins.specs.Record as Spec;
ghost use Rattle.pins.specs.Record.{or_bad, read_fields, read_stanza};

use crate::error::{PrefsError, PrefsFault, PrefsField};
use crate::names::names_of;
use crate::number::number_of;
use crate::pin::pin_of;
use rules::{Pin, PinnedNames, Preference};
use stanza::{Field, Stanza, StanzaError};
use std::alloc::Global;

fn is_called(name: &[u8], field: &Field<'_>) -> bool
    ensures { result ≡ same_name field.now.name name.now }
{
    field.name().eq_ignore_ascii_case(name)
}

fn field_named<'a>(name: &[u8], stanza: &Stanza<'a>) -> Option<Field<'a>>
    ensures { result ≡ Spec.field_named name.now stanza.now.fields }
{
    for field in stanza.fields() {
        if is_called(name, &field) {
            return Some(field);
        }
    }
    None
}

fn read_names(alloc: Global, field: &Field<'_>) -> Result<PinnedNames, PrefsError>
    ensures ok { IfOk result
        (λ names. or_bad field.now.line (names_of field.now.value) ≡ Ok names) }
    ensures err { IfErr result
        (λ e. IsPrefsFault e (or_bad field.now.line (names_of field.now.value))) }
{
    match names_of(alloc, field.value())? {
        None => Err(PrefsFault::BadPin(field.line()).into()),
        Some(names) => Ok(names),
    }
}

fn read_pin(alloc: Global, field: &Field<'_>) -> Result<Pin, PrefsError>
    ensures ok { IfOk result (λ pin. or_bad field.now.line (pin_of field.now.value) ≡ Ok pin) }
    ensures err { IfErr result
        (λ e. IsPrefsFault e (or_bad field.now.line (pin_of field.now.value))) }
{
    match pin_of(alloc, field.value())? {
        None => Err(PrefsFault::BadPin(field.line()).into()),
        Some(pin) => Ok(pin),
    }
}

fn read_priority(field: &Field<'_>) -> Result<i32, PrefsError>
    ensures ok { IfOk result
        (λ priority. or_bad field.now.line (number_of field.now.value) ≡ Ok priority) }
    ensures err { IfErr result
        (λ e. IsPrefsFault e (or_bad field.now.line (number_of field.now.value))) }
{
    match number_of(field.value()) {
        None => Err(PrefsFault::BadPin(field.line()).into()),
        Some(priority) => Ok(priority),
    }
}

fn read_fields(
    alloc: Global,
    names: &Field<'_>,
    pin: &Field<'_>,
    priority: &Field<'_>,
) -> Result<Preference, PrefsError>
    ensures ok { IfOk result
        (λ preference. read_fields names.now pin.now priority.now ≡ Ok preference) }
    ensures err { IfErr result (λ e. IsPrefsFault e (read_fields names.now pin.now priority.now)) }
{
    Ok(Preference {
        names: read_names(alloc, names)?,
        pin: read_pin(alloc, pin)?,
        priority: read_priority(priority)?,
    })
}

fn read_stanza(alloc: Global, stanza: &Stanza<'_>) -> Result<Preference, PrefsError>
    ensures ok { IfOk result (λ preference. read_stanza stanza.now ≡ Ok preference) }
    ensures err { IfErr result (λ e. IsPrefsFault e (read_stanza stanza.now)) }
{
    let line = stanza.line();
    let Some(names) = field_named(b"Package", stanza) else {
        return Err(PrefsFault::MissingField(line, PrefsField::Package).into());
    };
    let Some(pin) = field_named(b"Pin", stanza) else {
        return Err(PrefsFault::MissingField(line, PrefsField::Pin).into());
    };
    let Some(priority) = field_named(b"Pin-Priority", stanza) else {
        return Err(PrefsFault::MissingField(line, PrefsField::PinPriority).into());
    };
    read_fields(alloc, &names, &pin, &priority)
}

/// The record of an item of the text, or its first refusal. Linear in the stanza.
pub fn read_item(
    alloc: Global,
    item: &Result<Stanza<'_>, StanzaError>,
) -> Result<Preference, PrefsError>
    ensures ok { IfOk result (λ preference. Spec.read_item item.now ≡ Ok preference) }
    ensures err { IfErr result (λ e. IsPrefsFault e (Spec.read_item item.now)) }
{
    match item {
        Ok(stanza) => read_stanza(alloc, stanza),
        Err(fault) => Err(PrefsFault::Stanza(*fault).into()),
    }
}
