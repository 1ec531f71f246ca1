//! What is read of a stanza, found in one walk over its lines.
ghost use Rattle.std.specs.Prelude.{◌≡◌, ◌||◌, [], Err, MatchResult, Ok, Some};
ghost use Rattle.std.specs.Option.{option_copied, option_or};
ghost use Rattle.relation.specs.Kind.{IsOfKind};
ghost use Rattle.relation.specs.PackageStanza.{field_of};
ghost use Rattle.relation.specs.PkgText.{pkg_fault};
ghost use Rattle.relation.specs.PkgValues.{values_of};
ghost use Rattle.rules.specs.Stanza.{marks_essential, says_essential};
ghost use Rattle.index.specs.Streamed.{read_values, unless_refused};
ghost use Rattle.index.specs.Walk.{index_fields_in, index_fields_of, with_field};

use crate::error::IndexFault;
use relation::{
    Acceptor, Kind, PkgFields, PkgValues, counts_for, kind_of, marks_essential, says_essential,
};
use stanza::{Field, FieldAt, ReadStanza, Stanza};
use std::marker::Model;

// The fields of the package, the value of Architecture, whether the package is marked essential, and whether it is so by the
// field Essential itself.
#[derive(Drop)]
pub struct IndexFields<'a> {
    pub(crate) pkg: PkgFields<'a>,
    pub(crate) architecture: Option<&'a [u8]>,
    pub(crate) is_essential: bool,
    pub(crate) says_essential: bool,
}

impl<'a> Model for IndexFields<'a> {
    ghost use Rattle.std.specs.Option.{option_copied};
    ghost use Rattle.index.specs.Walk.{IndexFields as IndexFieldsValue};

    ghost Value = { IndexFieldsValue };

    ghost view = { λ f. record {
      pkg = f.pkg;
      architecture = option_copied f.architecture;
      is_essential = f.is_essential;
      says_essential = f.says_essential;
    } };
}

// The value of Architecture: the one found before, or that of the field.
fn architecture_with<'a>(before: Option<&'a [u8]>, field: &Field<'a>) -> Option<&'a [u8]>
    ensures { option_copied result ≡ option_or (option_copied before.entry) (Some field.now.value) }
{
    match before {
        Some(_) => before,
        None => Some(field.value()),
    }
}

// Whether the package was marked essential before, or the field marks it.
fn is_marked(before: bool, field: &Field<'_>) -> bool
    ensures { result ≡ (before || marks_essential (field_of field.now)) }
{
    before || marks_essential(field)
}

// Whether the package was said to be essential before, or the field says so.
fn is_said(before: bool, field: &Field<'_>) -> bool
    ensures { result ≡ (before || says_essential (field_of field.now)) }
{
    before || says_essential(field)
}

// The values of the fields, or their first refusal.
fn counted_values<'a>(
    fields: &PkgFields<'a>,
    acceptor: &Acceptor,
) -> Result<Option<PkgValues<'a>>, IndexFault>
    ensures { MatchResult result
        (λ values. unless_refused (pkg_fault fields.now) (values_of fields.now) ≡ Ok values)
        (λ fault. unless_refused (pkg_fault fields.now) (values_of fields.now) ≡ Err fault) }
{
    match fields.values_by(acceptor) {
        Ok(values) => Ok(Some(values)),
        Err(fault) => Err(IndexFault::Pkg(fault)),
    }
}

impl<'a> IndexFields<'a> {
    fn new(line: usize) -> IndexFields<'a>
        ensures { result ≡ index_fields_in line [] }
    {
        IndexFields {
            pkg: PkgFields::new(line),
            architecture: None,
            is_essential: false,
            says_essential: false,
        }
    }

    // Takes one more field of the stanza, which is of this kind.
    fn add_of_kind(&mut self, kind: Kind, field: &Field<'a>)
        requires { IsOfKind kind field.now.name }
        ensures { self.new ≡ with_field self.old field.now }
    {
        match kind {
            Kind::Architecture => self.architecture = architecture_with(self.architecture, field),
            Kind::Essential => {
                self.is_essential = is_marked(self.is_essential, field);
                self.says_essential = is_said(self.says_essential, field);
            }
            Kind::Protected => self.is_essential = is_marked(self.is_essential, field),
            _ => self.pkg.add_of_kind(kind, field),
        }
    }

    // Takes one more field of the stanza.
    fn add(&mut self, field: &Field<'a>)
        ensures { self.new ≡ with_field self.old field.now }
    {
        if let Some(kind) = kind_of(field.name()) {
            self.add_of_kind(kind, field);
        }
    }

    // The same of a field whose value isn't cut out: it is where something is read from it.
    fn add_read(&mut self, field: &FieldAt<'a>)
        ensures { self.new ≡ with_field self.old field.now }
    {
        if let Some(kind) = kind_of(field.name()) {
            self.add_of_kind(kind, &field.field());
        }
    }

    // What is found in the stanza.
    pub(crate) fn in_stanza(stanza: &Stanza<'a>) -> IndexFields<'a>
        ensures { result ≡ index_fields_of stanza.now }
    {
        let mut index_fields = IndexFields::new(stanza.line());
        for field in stanza.fields() {
            index_fields.add(&field);
        }
        index_fields
    }

    // The same of a stanza that was read from a source.
    pub(crate) fn in_read(stanza: &ReadStanza<'a>) -> IndexFields<'a>
        ensures { result ≡ index_fields_of stanza.now }
    {
        let mut index_fields = IndexFields::new(stanza.line());
        for field in stanza.fields() {
            index_fields.add_read(&field);
        }
        index_fields
    }

    // The values of the package, where the stanza, which begins on this line, counts for the architecture.
    pub(crate) fn values(
        &self,
        arch: &[u8],
        line: usize,
        acceptor: &Acceptor,
    ) -> Result<Option<PkgValues<'a>>, IndexFault>
        ensures { MatchResult result
            (λ values. read_values arch.now line self.now ≡ Ok values)
            (λ fault. read_values arch.now line self.now ≡ Err fault) }
    {
        if let Err(fault) = self.pkg.name() {
            return Err(IndexFault::Pkg(fault));
        }
        match self.architecture {
            None => Err(IndexFault::MissingArchitecture(line)),
            Some(value) => {
                if counts_for(arch, value) {
                    counted_values(&self.pkg, acceptor)
                } else {
                    Ok(None)
                }
            }
        }
    }
}
