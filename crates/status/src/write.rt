//! Writing the fields of a stanza that an action touches onto the end of a text.
ghost use Rattle.std.specs.Prelude.{◌≡◌, ◌++◌, OnOk, codes};
ghost use Rattle.std.specs.List.{filter};
ghost use Rattle.relation.specs.PackageStanza.{field_of};
ghost use Rattle.rules.specs.Stanza.{config_fields, fields_called, status_field, unpacked_fields, with_config_version};
ghost use Rattle.status.specs.Written.{fields_in, fields_of, rest_of, written_fields};
ghost use Rattle.status_text.specs.Spelling.{field_text, fields_text};

use crate::fields::{LeftOut, is_called, is_written_on};
use crate::words::{flag_word, state_word, want_word};
use debversion::Version;
use stanza::{Field, Stanza};
use status_text::{Mark, StatusRecord, write_field};
use std::alloc::AllocError;

// The fields of this name.
fn push_called(out: &mut Vec<u8>, name: &[u8], stanza: &Stanza<'_>) -> Result<(), AllocError>
    ensures { OnOk result
        (out.new.items ≡ out.old.items
        ++ fields_text (fields_called name.now (fields_of stanza.now))) }
{
    for field in stanza.fields() {
        if is_called(name, &field) {
            write_field(out, field.name(), field.value())?;
        }
    }
    Ok(())
}

// The field Status that says this.
fn push_status(out: &mut Vec<u8>, mark: Mark) -> Result<(), AllocError>
    ensures { OnOk result
        (out.new.items ≡ out.old.items
        ++ field_text (status_field mark.want mark.flag mark.state)) }
{
    out.extend_from_slice(b"Status: ")?;
    out.extend_from_slice(want_word(mark.want))?;
    out.extend_from_slice(b" ")?;
    out.extend_from_slice(flag_word(mark.flag))?;
    out.extend_from_slice(b" ")?;
    out.extend_from_slice(state_word(mark.state))?;
    out.extend_from_slice(b"\n")
}

// The field Config-Version, behind the field Version, where there is a config version.
fn push_config(
    out: &mut Vec<u8>,
    is_version: bool,
    config_version: &Option<Version<'_>>,
) -> Result<(), AllocError>
    ensures { OnOk result
        (out.new.items ≡ out.old.items
        ++ fields_text (filter (λ _. is_version) (config_fields config_version.now))) }
{
    match config_version {
        None => Ok(()),
        Some(version) => {
            if is_version {
                write_field(out, b"Config-Version", version.text())
            } else {
                Ok(())
            }
        }
    }
}

// A field, and Config-Version behind it where it is Version.
fn push_with(
    out: &mut Vec<u8>,
    field: &Field<'_>,
    config_version: &Option<Version<'_>>,
) -> Result<(), AllocError>
    ensures { OnOk result
        (out.new.items ≡ out.old.items
        ++ fields_text (with_config_version config_version.now (field_of field.now))) }
{
    write_field(out, field.name(), field.value())?;
    push_config(out, is_called(b"Version", field), config_version)
}

// The fields that are written on.
fn push_rest(
    out: &mut Vec<u8>,
    stanza: &Stanza<'_>,
    left_out: LeftOut,
    config_version: &Option<Version<'_>>,
) -> Result<(), AllocError>
    ensures { OnOk result
        (out.new.items ≡ out.old.items
        ++ fields_text (rest_of left_out config_version.now (fields_of stanza.now))) }
{
    for field in stanza.fields() {
        if is_written_on(left_out, &field) {
            push_with(out, &field, config_version)?;
        }
    }
    Ok(())
}

/// The fields of a touched stanza.
pub fn push_fields(
    out: &mut Vec<u8>,
    stanza: &Stanza<'_>,
    left_out: LeftOut,
    mark: Mark,
    config_version: &Option<Version<'_>>,
) -> Result<(), AllocError>
    ensures { OnOk result (out.new.items ≡ out.old.items
        ++ fields_text
        (written_fields left_out
        (status_field mark.want mark.flag mark.state) config_version.now
        (fields_of stanza.now))) }
{
    push_called(out, b"Package", stanza)?;
    push_status(out, mark)?;
    push_rest(out, stanza, left_out, config_version)
}

// The fields Conffiles of the stanza of a record, if there is one.
fn push_conffiles(out: &mut Vec<u8>, old: &Option<StatusRecord<'_>>) -> Result<(), AllocError>
    ensures { OnOk result
        (out.new.items ≡ out.old.items
        ++ fields_text (fields_called (codes "Conffiles") (fields_in old.now))) }
{
    match old {
        Some(entry) => push_called(out, b"Conffiles", entry.stanza()),
        None => Ok(()),
    }
}

/// The fields of a stanza of an index that was unpacked, and those called Conffiles of the record before behind them.
pub fn push_unpacked(
    out: &mut Vec<u8>,
    stanza: &Stanza<'_>,
    old: &Option<StatusRecord<'_>>,
    mark: Mark,
    config_version: &Option<Version<'_>>,
) -> Result<(), AllocError>
    ensures { OnOk result (out.new.items ≡ out.old.items
        ++ fields_text
        (unpacked_fields (status_field mark.want mark.flag mark.state) config_version.now
        (fields_of stanza.now) (fields_in old.now))) }
{
    push_fields(out, stanza, LeftOut::OfIndex, mark, config_version)?;
    push_conffiles(out, old)
}
