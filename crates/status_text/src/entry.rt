//! One stanza of the status file: its slot, or its first refusal.
ghost use Rattle.std.specs.Prelude.{◌≡◌, [], IfErr, IfOk, IsTrue, MatchResult, None, Ok, Some, true};
ghost use Rattle.std.specs.Option.{option_and_then};
ghost use Rattle.relation.specs.PkgFields.{fields_of};
ghost use Rattle.relation.specs.PkgText.{pkg_fault, pkg_name_fault, pkg_of, pkg_version_fault, version_fault};
ghost use Rattle.relation.specs.PkgValues.{values_of};
ghost use Rattle.rules.specs.Name.{is_name};
ghost use Rattle.rules.specs.State.{is_present_state};
ghost use Rattle.status_text.specs.Error.{IsStatusFault};
ghost use Rattle.status_text.specs.Mark.{counts, name_in};
ghost use Rattle.status_text.specs.Record as Spec;
ghost use Rattle.status_text.specs.Record.{config_version_field, text_in, version_field};
ghost use Rattle.status_text.specs.Slot.{names_with};
ghost use Rattle.status_text.specs.Walk.{record_fields_of};
ghost use Rattle.status_text.specs.declared.slot.Slot.TheVariants as slot;

use crate::error::{StatusError, StatusFault};
use crate::mark::{counts_by, mark_in};
use crate::name::PackageName;
use crate::package::TestedPkg;
use crate::record::StatusRecord;
use crate::seen::SeenNames;
use crate::slot::Slot;
use crate::walk::RecordFields;
use crate::words::Mark;
use debversion::Version;
use relation::{Acceptor, PkgFault, PkgFields, PkgValues};
use rules::State;
use stanza::{Field, Stanza};

// The version that the field spells, if there is one.
fn version_in<'a>(field: &Option<Field<'a>>) -> Result<Option<Version<'a>>, PkgFault>
    ensures { MatchResult result
        (λ version. (option_and_then version_fault field.now ≡ None)
        × (version ≡ text_in field.now))
        (λ refused. option_and_then version_fault field.now ≡ Some refused) }
{
    match field {
        None => Ok(None),
        Some(field) => match Version::parse(field.value()) {
            Ok(version) => Ok(Some(version)),
            Err(kind) => Err(PkgFault::BadVersion(field.line(), kind)),
        },
    }
}

// The version of a package in this state, whose fields are these.
fn version_at<'a>(
    stanza: &Stanza<'a>,
    fields: &PkgFields<'a>,
    state: State,
) -> Result<Option<Version<'a>>, PkgFault>
    requires { fields.now ≡ fields_of stanza.now }
    ensures { MatchResult result
        (λ version. (Spec.version_fault_at state stanza.now ≡ None)
        × (version ≡ text_in (version_field stanza.now)))
        (λ refused. Spec.version_fault_at state stanza.now ≡ Some refused) }
{
    match fields.version() {
        Ok(version) => Ok(Some(version)),
        Err(PkgFault::MissingField(_, _)) if !state.is_present() => Ok(None),
        Err(refused) => Err(refused),
    }
}

fn version_again<'a>(version: &Option<Version<'a>>) -> Option<Version<'a>>
    ensures { result ≡ version.now }
{
    match version {
        Some(version) => Some(version.again()),
        None => None,
    }
}

// The version that was configured last, of a package in this state with this version and this field Config-Version.
fn config_version_at<'a>(
    field: &Option<Field<'a>>,
    state: State,
    version: &Option<Version<'a>>,
) -> Result<Option<Version<'a>>, PkgFault>
    ensures { MatchResult result
        (λ configured. (option_and_then version_fault field.now ≡ None)
        × (configured ≡ Spec.config_version_at state version.now (text_in field.now)))
        (λ refused. option_and_then version_fault field.now ≡ Some refused) }
{
    let configured = version_in(field)?;
    match state {
        State::NotInstalled => Ok(None),
        State::TriggersAwaited | State::TriggersPending | State::Installed => {
            Ok(version_again(version))
        }
        State::ConfigFiles | State::HalfInstalled | State::Unpacked | State::HalfConfigured => {
            Ok(configured)
        }
    }
}

// The values of these fields, whose relation fields are tested by the tables where there are some.
fn values_of<'a>(
    fields: &PkgFields<'a>,
    tables: Option<&Acceptor>,
) -> Result<PkgValues<'a>, PkgFault>
    ensures { MatchResult result
        (λ values. (pkg_fault fields.now ≡ None) × (values ≡ values_of fields.now))
        (λ fault. pkg_fault fields.now ≡ Some fault) }
{
    match tables {
        None => fields.values(),
        Some(acceptor) => fields.values_by(acceptor),
    }
}

// The package of these fields in this state, whose relation fields are tested; none where it isn't present.
fn package_at<'a>(
    fields: &PkgFields<'a>,
    state: State,
    arch: &'a [u8],
    tables: Option<&Acceptor>,
) -> Result<Option<TestedPkg<'a>>, PkgFault>
    requires named { pkg_name_fault fields.now ≡ None }
    requires versioned { is_present_state state ≡ true → pkg_version_fault fields.now ≡ None }
    ensures { MatchResult result
        (λ tested. (Spec.relations_fault_at state fields.now ≡ None)
        × (is_present_state state ≡ true → tested ≡ Some (pkg_of arch.now fields.now)))
        (λ refused. Spec.relations_fault_at state fields.now ≡ Some refused) }
{
    if state.is_present() {
        let values = values_of(fields, tables)?;
        Ok(Some(TestedPkg::new(values, arch)))
    } else {
        Ok(None)
    }
}

// What a stanza says of its package in this state behind the name: its version, its config version, and the package.
fn rest_at<'a>(
    stanza: &Stanza<'a>,
    record_fields: &RecordFields<'a>,
    state: State,
    arch: &'a [u8],
    tables: Option<&Acceptor>,
) -> Result<
    (
        Option<Version<'a>>,
        Option<Version<'a>>,
        Option<TestedPkg<'a>>,
    ),
    PkgFault,
>
    requires record_fields { record_fields.now ≡ record_fields_of stanza.now }
    requires named { pkg_name_fault (fields_of stanza.now) ≡ None }
    ensures { MatchResult result
        (λ rest. (Spec.later_fault state stanza.now ≡ None)
        × (rest.0 ≡ text_in (version_field stanza.now))
        × (rest.1 ≡ Spec.config_version_at state rest.0 (text_in (config_version_field stanza.now)))
        × (is_present_state state ≡ true → rest.2 ≡ Some (pkg_of arch.now (fields_of stanza.now))))
        (λ refused. Spec.later_fault state stanza.now ≡ Some refused) }
{
    let version = version_at(stanza, &record_fields.pkg, state)?;
    let configured = config_version_at(&record_fields.config_version, state, &version)?;
    let tested = package_at(&record_fields.pkg, state, arch, tables)?;
    Ok((version, configured, tested))
}

// The record of a stanza that counts, of which Status says this.
fn entry_of<'a>(
    stanza: &Stanza<'a>,
    record_fields: &RecordFields<'a>,
    name: &'a [u8],
    mark: Mark,
    arch: &'a [u8],
    tables: Option<&Acceptor>,
) -> Result<StatusRecord<'a>, PkgFault>
    requires record_fields { record_fields.now ≡ record_fields_of stanza.now }
    requires name { name.now ≡ name_in stanza.now }
    requires named { pkg_name_fault (fields_of stanza.now) ≡ None }
    requires valid { IsTrue (is_name name.now) }
    ensures { MatchResult result
        (λ entry. (Spec.later_fault mark.state stanza.now ≡ None)
        × (entry ≡ Spec.entry_of arch.now stanza.now mark))
        (λ refused. Spec.later_fault mark.state stanza.now ≡ Some refused) }
{
    let (version, configured, tested) = rest_at(stanza, record_fields, mark.state, arch, tables)?;
    Ok(StatusRecord::new(
        arch,
        stanza.again(),
        name,
        mark,
        version,
        configured,
        tested,
        record_fields.is_essential,
    ))
}

// The record of a stanza that counts, whose name is noted.
fn read_new<'a>(
    seen: &mut SeenNames<'a>,
    stanza: &Stanza<'a>,
    record_fields: &RecordFields<'a>,
    name: &'a [u8],
    mark: Mark,
    arch: &'a [u8],
    tables: Option<&Acceptor>,
) -> Result<StatusRecord<'a>, StatusError<'a>>
    requires record_fields { record_fields.now ≡ record_fields_of stanza.now }
    requires name { name.now ≡ name_in stanza.now }
    requires named { pkg_name_fault (fields_of stanza.now) ≡ None }
    requires valid { IsTrue (is_name name.now) }
    ensures ok { IfOk result
        (λ entry. (Spec.read_new arch.now seen.old stanza.now mark ≡ Ok (slot.Recorded entry))
        × (seen.new ≡ names_with seen.old (slot.Recorded entry))) }
    ensures err { IfErr result
        (λ e. IsStatusFault e (Spec.read_new arch.now seen.old stanza.now mark)) }
{
    if !seen.insert(name)? {
        return Err(StatusFault::DuplicatePackage(PackageName::new(name)).into());
    }
    let entry = entry_of(stanza, record_fields, name, mark, arch, tables)?;
    Ok(entry)
}

// Whether the stanza of the package of this name, which is in this state, has a record.
fn counts<'a>(
    arch: &[u8],
    name: &'a [u8],
    stanza: &Stanza<'a>,
    record_fields: &RecordFields<'a>,
    state: State,
) -> Result<bool, StatusFault<'a>>
    requires record_fields { record_fields.now ≡ record_fields_of stanza.now }
    requires name { name.now ≡ name_in stanza.now }
    ensures { result ≡ counts arch.now stanza.now state }
{
    counts_by(arch, name, stanza, &record_fields.architecture, state)
}

/// The slot of a stanza behind others, whose names are noted. Its own name is noted too, if it has a record.
pub fn read_slot<'a>(
    seen: &mut SeenNames<'a>,
    stanza: &Stanza<'a>,
    arch: &'a [u8],
    acceptor: &Acceptor,
) -> Result<Slot<'a, StatusRecord<'a>>, StatusError<'a>>
    ensures ok { IfOk result
        (λ slot. (Spec.read_slot arch.now seen.old stanza.now ≡ Ok slot)
        × (seen.new ≡ names_with seen.old slot)) }
    ensures err { IfErr result
        (λ e. IsStatusFault e (Spec.read_slot arch.now seen.old stanza.now)) }
{
    let record_fields = RecordFields::in_stanza(stanza);
    let name = record_fields.pkg.name()?;
    let mark = mark_in(stanza, &record_fields.status)?;
    if !counts(arch, name, stanza, &record_fields, mark.state)? {
        return Ok(Slot::Foreign(stanza.again()));
    }
    let entry = read_new(
        seen,
        stanza,
        &record_fields,
        name,
        mark,
        arch,
        Some(acceptor),
    )?;
    Ok(Slot::Recorded(entry))
}

/// The slot of a stanza that stands alone, or its first refusal.
pub fn slot_alone<'a>(
    stanza: &Stanza<'a>,
    arch: &'a [u8],
) -> Result<Slot<'a, StatusRecord<'a>>, StatusFault<'a>>
    ensures { result ≡ Spec.read_slot arch.now [] stanza.now }
{
    let record_fields = RecordFields::in_stanza(stanza);
    let name = record_fields.pkg.name()?;
    let mark = mark_in(stanza, &record_fields.status)?;
    if !counts(arch, name, stanza, &record_fields, mark.state)? {
        return Ok(Slot::Foreign(stanza.again()));
    }
    let entry = entry_of(stanza, &record_fields, name, mark, arch, None)?;
    Ok(Slot::Recorded(entry))
}
