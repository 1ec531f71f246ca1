//! Fields by their names.
ghost use Rattle.std.specs.Prelude.{◌≡◌, ◌∷◌, [], codes};
ghost use Rattle.relation.specs.PackageStanza.{field_of};
ghost use Rattle.rules.specs.Stanza as Spec;
ghost use Rattle.rules.specs.Stanza.{index_only, is_called_one_of, trigger_fields};
ghost use Rattle.status.specs.Written as Written;
ghost use Rattle.status.specs.Written.{names_left_out, written_anew};

use stanza::Field;

/// Which fields of a stanza are left out, beside those that are written at a new place or with a new value.
#[derive(Clone, Copy)]
pub enum LeftOut {
    /// None.
    Nothing,
    /// Those that say which triggers are left to be processed.
    OfTriggers,
    /// Those that an index has and a status file doesn't.
    OfIndex,
}

/// Whether the field has this name.
pub fn is_called(name: &[u8], field: &Field<'_>) -> bool
    ensures { result ≡ Spec.is_called name.now (field_of field.now) }
{
    field.name().eq_ignore_ascii_case(name)
}

// Whether an index has the field and a status file doesn't.
fn is_of_index_only(field: &Field<'_>) -> bool
    ensures { result ≡ is_called_one_of index_only (field_of field.now) }
{
    is_called(b"Filename", field)
        || is_called(b"Size", field)
        || is_called(b"MD5sum", field)
        || is_called(b"SHA1", field)
        || is_called(b"SHA256", field)
        || is_called(b"SHA512", field)
        || is_called(b"Description-md5", field)
        || is_called(b"Conffiles", field)
}

// Whether the field says which triggers are left to be processed.
fn is_of_triggers(field: &Field<'_>) -> bool
    ensures { result ≡ is_called_one_of trigger_fields (field_of field.now) }
{
    is_called(b"Triggers-Pending", field) || is_called(b"Triggers-Awaited", field)
}

fn is_left_out(left_out: LeftOut, field: &Field<'_>) -> bool
    ensures { result ≡ is_called_one_of (names_left_out left_out) (field_of field.now) }
{
    match left_out {
        LeftOut::Nothing => false,
        LeftOut::OfTriggers => is_of_triggers(field),
        LeftOut::OfIndex => is_of_index_only(field),
    }
}

// Whether the field is written at a new place or with a new value.
fn is_written_anew(field: &Field<'_>) -> bool
    ensures { result ≡ is_called_one_of written_anew (field_of field.now) }
{
    is_called(b"Package", field)
        || is_called(b"Status", field)
        || is_called(b"Config-Version", field)
}

/// Whether the field of a stanza, of an index or of the status file, is written on as it stands.
pub fn is_written_on(left_out: LeftOut, field: &Field<'_>) -> bool
    ensures { result ≡ Written.is_written_on left_out (field_of field.now) }
{
    !is_left_out(left_out, field) && !is_written_anew(field)
}
