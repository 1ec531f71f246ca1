//! The fields of a package, found in one walk over its stanza.
ghost use Rattle.std.specs.Prelude.{◌≡◌, [], Some};
ghost use Rattle.std.specs.Option.{option_or};
ghost use Rattle.relation.specs.Kind.{IsOfKind};
ghost use Rattle.relation.specs.PkgFields.{fields_in, fields_of, with_field};

use crate::kind::{Kind, kind_of};
use stanza::{Field, Stanza};

/// The fields that a package is read from, the first of each name, and the line on which their stanza begins.
/// A reader takes them once, and tests them in its own order.
#[derive(Drop)]
pub struct PkgFields<'a> {
    pub(crate) line: usize,
    pub(crate) name: Option<Field<'a>>,
    pub(crate) version: Option<Field<'a>>,
    pub(crate) pre_depends: Option<Field<'a>>,
    pub(crate) depends: Option<Field<'a>>,
    pub(crate) conflicts: Option<Field<'a>>,
    pub(crate) breaks: Option<Field<'a>>,
    pub(crate) provides: Option<Field<'a>>,
}

// Takes the field, where none was found before.
fn keep_first<'a>(place: &mut Option<Field<'a>>, field: &Field<'a>)
    ensures { place.new ≡ option_or place.old (Some field.now) }
{
    if place.is_none() {
        *place = Some(field.again());
    }
}

impl<'a> PkgFields<'a> {
    /// No field yet, of a stanza that begins on this line.
    pub fn new(line: usize) -> PkgFields<'a>
        ensures { result ≡ fields_in line [] }
    {
        PkgFields {
            line,
            name: None,
            version: None,
            pre_depends: None,
            depends: None,
            conflicts: None,
            breaks: None,
            provides: None,
        }
    }

    /// Takes one more field of the stanza, which is of this kind, where a package is read from it and it is the first of its
    /// name.
    pub fn add_of_kind(&mut self, kind: Kind, field: &Field<'a>)
        requires { IsOfKind kind field.now.name }
        ensures { self.new ≡ with_field self.old field.now }
    {
        match kind {
            Kind::Package => keep_first(&mut self.name, field),
            Kind::Version => keep_first(&mut self.version, field),
            Kind::PreDepends => keep_first(&mut self.pre_depends, field),
            Kind::Depends => keep_first(&mut self.depends, field),
            Kind::Conflicts => keep_first(&mut self.conflicts, field),
            Kind::Breaks => keep_first(&mut self.breaks, field),
            Kind::Provides => keep_first(&mut self.provides, field),
            Kind::Architecture | Kind::Essential | Kind::Protected => {}
        }
    }

    /// Takes one more field of the stanza, where a package is read from it and it is the first of its name.
    pub fn add(&mut self, field: &Field<'a>)
        ensures { self.new ≡ with_field self.old field.now }
    {
        if let Some(kind) = kind_of(field.name()) {
            self.add_of_kind(kind, field);
        }
    }

    /// The fields of a package in its stanza. One walk over the stanza's lines.
    pub fn in_stanza(stanza: &Stanza<'a>) -> PkgFields<'a>
        ensures { result ≡ fields_of stanza.now }
    {
        let mut pkg_fields = PkgFields::new(stanza.line());
        for field in stanza.fields() {
            pkg_fields.add(&field);
        }
        pkg_fields
    }
}
