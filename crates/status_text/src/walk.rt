//! What is read of a stanza, found in one walk over its lines.
ghost use Rattle.std.specs.Prelude.{◌≡◌, []};
ghost use Rattle.relation.specs.PkgFields.{first_named};
ghost use Rattle.stanza.specs.Field.{same_name};
ghost use Rattle.status_text.specs.Walk.{record_fields_in, record_fields_of, with_field};

use relation::{PkgFields, marks_essential};
use stanza::{Field, Stanza};

/// The fields that a record is read from, the first of each name, and whether the package is marked essential.
#[derive(Drop)]
pub struct RecordFields<'a> {
    /// Those of the package.
    pub pkg: PkgFields<'a>,
    /// Status.
    pub status: Option<Field<'a>>,
    /// Architecture.
    pub architecture: Option<Field<'a>>,
    /// Config-Version.
    pub config_version: Option<Field<'a>>,
    /// Whether a field marks the package essential.
    pub is_essential: bool,
}

fn same_name(name: &[u8], other: &[u8]) -> bool
    ensures { result ≡ same_name name.now other.now }
{
    name.eq_ignore_ascii_case(other)
}

// Takes the field, where it has the name and none was found before.
fn note<'a>(name: &[u8], place: &mut Option<Field<'a>>, field: &Field<'a>)
    ensures { place.new ≡ first_named name.now place.old field.now }
{
    if place.is_none() && same_name(field.name(), name) {
        *place = Some(field.again());
    }
}

impl<'a> RecordFields<'a> {
    fn new(line: usize) -> RecordFields<'a>
        ensures { result ≡ record_fields_in line [] }
    {
        RecordFields {
            pkg: PkgFields::new(line),
            status: None,
            architecture: None,
            config_version: None,
            is_essential: false,
        }
    }

    fn add(&mut self, field: &Field<'a>)
        ensures { self.new ≡ with_field self.old field.now }
    {
        self.pkg.add(field);
        note(b"Status", &mut self.status, field);
        note(b"Architecture", &mut self.architecture, field);
        note(b"Config-Version", &mut self.config_version, field);
        self.is_essential = self.is_essential || marks_essential(field);
    }

    /// What is found in the stanza.
    pub fn in_stanza(stanza: &Stanza<'a>) -> RecordFields<'a>
        ensures { result ≡ record_fields_of stanza.now }
    {
        let mut record_fields = RecordFields::new(stanza.line());
        for field in stanza.fields() {
            record_fields.add(&field);
        }
        record_fields
    }
}
