//! The fields of a package in its stanza: their tests, and the package that they spell.
ghost use Rattle.std.specs.Prelude.{◌≡◌, IfErr, IfOk, IsTrue, MatchOption, MatchResult, None, Ok, Some, codes};
ghost use Rattle.std.specs.Option.{option_copied, option_map};
ghost use Rattle.rules.specs.Name.{is_name};
ghost use Rattle.stanza.specs.Field.{same_name};
ghost use Rattle.relation.specs.PkgText as Spec;
ghost use Rattle.relation.specs.PkgText.{IsPkgFault, read_fields, read_pkg, read_relations, relations_fault, value_in};
ghost use Rattle.relation_text.specs.Refusal.{fault_of};
ghost use Rattle.relation_text.specs.Spelling.{atoms_between, clauses_of, provided_items_of};
ghost use Rattle.relation_text.specs.declared.cut.Separator.TheVariants.{Comma};
ghost use Rattle.relation_text.specs.declared.shape.RelationForm.TheVariants.{Atoms, Clauses, Provides};

use crate::atom::{Atom, Clause};
use crate::error::{PkgError, PkgFault, RequiredField};
use crate::fields::PkgFields;
use crate::parse::{atoms_between, clauses_of, provided_items_of};
use crate::pkg::{Pkg, Relations};
use crate::provided::Provided;
use debversion::Version;
use relation_text::{Acceptor, RelationFault, RelationForm, Separator, check, name_len};
use rules::is_name;
use stanza::{Field, Stanza};
use std::alloc::{AllocError, Global};

// How many bytes of the text go on as a name does.
fn name_front(text: &[u8]) -> usize
    ensures { result ≡ Spec.name_front text.now }
{
    match text {
        [first, rest @ ..] if first.is_ascii_alphanumeric() => 1 + name_len(rest),
        _ => 0,
    }
}

fn name_fault(field: &Field<'_>) -> Option<PkgFault>
    ensures { result ≡ Spec.name_fault field.now }
{
    if is_name(field.value()) {
        None
    } else {
        Some(PkgFault::BadName(field.line(), name_front(field.value())))
    }
}

// The name in the field Package of a stanza that begins on this line.
fn name_in<'a>(line: usize, field: &Option<Field<'a>>) -> Result<&'a [u8], PkgFault>
    ensures { MatchResult result
        (λ name. (Spec.name_fault_in line field.now ≡ None) × (name.now ≡ value_in field.now))
        (λ fault. Spec.name_fault_in line field.now ≡ Some fault) }
{
    match field {
        None => Err(PkgFault::MissingField(line, RequiredField::Package)),
        Some(field) => match name_fault(field) {
            None => Ok(field.value()),
            Some(fault) => Err(fault),
        },
    }
}

// The version in the field Version of a stanza that begins on this line.
fn version_in<'a>(line: usize, field: &Option<Field<'a>>) -> Result<Version<'a>, PkgFault>
    ensures { MatchResult result
        (λ version. (Spec.version_fault_in line field.now ≡ None) × (version ≡ value_in field.now))
        (λ fault. Spec.version_fault_in line field.now ≡ Some fault) }
{
    match field {
        None => Err(PkgFault::MissingField(line, RequiredField::Version)),
        Some(field) => match Version::parse(field.value()) {
            Ok(version) => Ok(version),
            Err(kind) => Err(PkgFault::BadVersion(field.line(), kind)),
        },
    }
}

fn on_line(line: usize, fault: RelationFault) -> PkgFault
    ensures { result ≡ Spec.on_line line fault }
{
    match fault {
        RelationFault::BadRelation(offset) => PkgFault::BadRelation(line, offset),
        RelationFault::BadName(offset) => PkgFault::BadName(line, offset),
        RelationFault::TooLarge => PkgFault::TooLarge,
    }
}

// Tests a value, by the tables where there are some.
fn check_value(
    tables: Option<&Acceptor>,
    form: RelationForm,
    value: &[u8],
) -> Result<(), RelationFault>
    ensures { MatchResult result (λ _. fault_of form value.now ≡ None)
        (λ fault. fault_of form value.now ≡ Some fault) }
{
    match tables {
        None => check(form, value),
        Some(acceptor) => acceptor.check_by(form, value),
    }
}

fn check_field(
    tables: Option<&Acceptor>,
    form: RelationForm,
    field: &Option<Field<'_>>,
) -> Result<(), PkgFault>
    ensures { MatchResult result (λ _. Spec.relation_fault_in form field.now ≡ None)
        (λ fault. Spec.relation_fault_in form field.now ≡ Some fault) }
{
    match field {
        None => Ok(()),
        Some(field) => match check_value(tables, form, field.value()) {
            Ok(()) => Ok(()),
            Err(fault) => Err(on_line(field.line(), fault)),
        },
    }
}

impl<'a> PkgFields<'a> {
    /// The name of the package, which Package has to give (Policy 5.6.1).
    pub fn name(&self) -> Result<&'a [u8], PkgFault>
        ensures read { MatchResult result
            (λ name. (Spec.pkg_name_fault self.now ≡ None) × (name.now ≡ value_in self.now.name))
            (λ fault. Spec.pkg_name_fault self.now ≡ Some fault) }
        ensures name { IfOk result (λ name. IsTrue (is_name name.now)) }
    {
        name_in(self.line, &self.name)
    }

    /// The version of the package, which Version has to give (Policy 5.6.12).
    pub fn version(&self) -> Result<Version<'a>, PkgFault>
        ensures { MatchResult result
            (λ version. (Spec.pkg_version_fault self.now ≡ None)
            × (version ≡ value_in self.now.version))
            (λ fault. Spec.pkg_version_fault self.now ≡ Some fault) }
    {
        version_in(self.line, &self.version)
    }

    // Tests the relation fields in the order Pre-Depends, Depends, Conflicts, Breaks, Provides.
    #[tactic(auto, unfolding(crate::specs::PkgText::relations_fault))]
    pub(crate) fn check_relations_by(&self, tables: Option<&Acceptor>) -> Result<(), PkgFault>
        ensures { MatchResult result (λ _. relations_fault self.now ≡ None)
            (λ fault. relations_fault self.now ≡ Some fault) }
    {
        check_field(tables, RelationForm::Clauses, &self.pre_depends)?;
        check_field(tables, RelationForm::Clauses, &self.depends)?;
        check_field(tables, RelationForm::Atoms, &self.conflicts)?;
        check_field(tables, RelationForm::Atoms, &self.breaks)?;
        check_field(tables, RelationForm::Provides, &self.provides)
    }

    /// Tests the relation fields in the order Pre-Depends, Depends, Conflicts, Breaks, Provides, and takes no
    /// memory. Linear in their values.
    pub fn check_relations(&self) -> Result<(), PkgFault>
        ensures { MatchResult result (λ _. relations_fault self.now ≡ None)
            (λ fault. relations_fault self.now ≡ Some fault) }
    {
        self.check_relations_by(None)
    }
}

impl<'a> Pkg<'a> {
    /// The package of a stanza, for the configured architecture `arch`. The first refusal is that of Package,
    /// then of Version, then of the relation fields; Architecture isn't looked at. The package borrows the
    /// stanza's text. Linear in the stanza.
    pub fn from_stanza(alloc: Global, stanza: &Stanza<'a>, arch: &[u8]) -> Result<Pkg<'a>, PkgError>
        ensures ok { IfOk result (λ pkg. read_pkg arch.now stanza.now ≡ Ok pkg) }
        ensures err { IfErr result (λ e. IsPkgFault e (read_pkg arch.now stanza.now)) }
    {
        Pkg::from_fields(alloc, &PkgFields::in_stanza(stanza), arch)
    }

    /// The package that these fields spell, or their first refusal, as `from_stanza` has it.
    pub fn from_fields(
        alloc: Global,
        fields: &PkgFields<'a>,
        arch: &[u8],
    ) -> Result<Pkg<'a>, PkgError>
        ensures ok { IfOk result (λ pkg. read_fields arch.now fields.now ≡ Ok pkg) }
        ensures err { IfErr result (λ e. IsPkgFault e (read_fields arch.now fields.now)) }
    {
        let values = fields.values()?;
        Ok(values.pkg(alloc, arch)?)
    }
}
