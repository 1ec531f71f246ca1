// What is said of a text that is refused.
ghost use Rattle.std.specs.Prelude.{◌≡◌, IfOk};
ghost use Rattle.refusal_lines.specs.Texts as Spec;

use crate::words::{bare, numbered_twice, with_number, with_number_and_value, with_value};
use index::{IndexFault, SourcesFault};
use inputs::{Fault, Input, StatusRefusal};
use pins::PrefsFault;
use plantext::PlanFault;
use refutation_text::RefutationFault;
use relation::PkgFault;
use rules::BadVersion;
use stanza::StanzaError;
use std::alloc::{AllocError, Global};
use universe_request::RequestFault;

// Why a text is no version.
fn version_kind(kind: BadVersion) -> &'static str
    ensures { result.now ≡ Spec.version_kind kind }
{
    match kind {
        BadVersion::Empty => "Empty",
        BadVersion::BadEpoch => "BadEpoch",
        BadVersion::EpochTooLarge => "EpochTooLarge",
        BadVersion::EmptyUpstream => "EmptyUpstream",
        BadVersion::EmptyRevision => "EmptyRevision",
        BadVersion::BadByte => "BadByte",
    }
}

// Control text.
fn stanza_words(alloc: Global, refused: StanzaError) -> Result<Vec<u8>, AllocError>
    ensures { IfOk result (λ words. words.items ≡ Spec.stanza_words refused) }
{
    match refused {
        StanzaError::BadLine(line) => with_number(alloc, "E2 BadLine", line),
        StanzaError::BadFieldName(line) => with_number(alloc, "E3 BadFieldName", line),
        StanzaError::DuplicateField(line) => with_number(alloc, "E4 DuplicateField", line),
    }
}

// The fields of a package.
fn package_words(alloc: Global, refused: PkgFault) -> Result<Vec<u8>, AllocError>
    ensures { IfOk result (λ words. words.items ≡ Spec.package_words refused) }
{
    match refused {
        PkgFault::MissingField(line, field) => {
            Ok(format!(in alloc; "E9 MissingField {line} {field}")?.into_bytes())
        }
        PkgFault::BadVersion(line, kind) => {
            with_number_and_value(alloc, "E6 BadVersion", line, version_kind(kind))
        }
        PkgFault::BadRelation(line, offset) => {
            numbered_twice(alloc, "E7 BadRelation", line, offset)
        }
        PkgFault::BadName(line, offset) => numbered_twice(alloc, "E8 BadName", line, offset),
        PkgFault::TooLarge => bare(alloc, "E10 TooLarge"),
    }
}

// The status file.
fn status_words(alloc: Global, refused: &StatusRefusal) -> Result<Vec<u8>, AllocError>
    ensures { IfOk result (λ words. words.items ≡ Spec.status_words refused.now) }
{
    match refused {
        StatusRefusal::Stanza(refused) => stanza_words(alloc, *refused),
        StatusRefusal::Pkg(refused) => package_words(alloc, *refused),
        StatusRefusal::MissingField(line, field) => {
            Ok(format!(in alloc; "E9 MissingField {line} {field}")?.into_bytes())
        }
        StatusRefusal::BadStatus(line) => with_number(alloc, "E12 BadStatus", *line),
        StatusRefusal::DuplicatePackage(name) => {
            with_value(alloc, "E13 DuplicatePackage", name.as_bytes())
        }
        StatusRefusal::ForeignArchitecture(name) => {
            with_value(alloc, "E14 ForeignArchitecture", name.as_bytes())
        }
        StatusRefusal::TooLarge => bare(alloc, "E10 TooLarge"),
    }
}

// The sources.
fn sources_words(alloc: Global, refused: SourcesFault) -> Result<Vec<u8>, AllocError>
    ensures { IfOk result (λ words. words.items ≡ Spec.sources_words refused) }
{
    match refused {
        SourcesFault::Stanza(refused) => stanza_words(alloc, refused),
        SourcesFault::MissingFile(line) => with_number_and_value(
            alloc,
            "E9 MissingField",
            line,
            "File",
        ),
        SourcesFault::TooLarge => bare(alloc, "E10 TooLarge"),
    }
}

// An index.
fn index_words(alloc: Global, refused: IndexFault) -> Result<Vec<u8>, AllocError>
    ensures { IfOk result (λ words. words.items ≡ Spec.index_words refused) }
{
    match refused {
        IndexFault::Stanza(refused) => stanza_words(alloc, refused),
        IndexFault::Pkg(refused) => package_words(alloc, refused),
        IndexFault::MissingArchitecture(line) => {
            with_number_and_value(alloc, "E9 MissingField", line, "Architecture")
        }
        IndexFault::TooLarge => bare(alloc, "E10 TooLarge"),
    }
}

// The preferences.
fn preferences_words(alloc: Global, refused: PrefsFault) -> Result<Vec<u8>, AllocError>
    ensures { IfOk result (λ words. words.items ≡ Spec.preferences_words refused) }
{
    match refused {
        PrefsFault::Stanza(refused) => stanza_words(alloc, refused),
        PrefsFault::MissingField(line, field) => {
            Ok(format!(in alloc; "E9 MissingField {line} {field}")?.into_bytes())
        }
        PrefsFault::BadPin(line) => with_number(alloc, "E11 BadPin", line),
        PrefsFault::TooLarge => bare(alloc, "E10 TooLarge"),
    }
}

// The request.
fn request_words(alloc: Global, refused: RequestFault) -> Result<Vec<u8>, AllocError>
    ensures { IfOk result (λ words. words.items ≡ Spec.request_words refused) }
{
    match refused {
        RequestFault::BadRequest(line) => with_number(alloc, "E16 BadRequest", line),
        RequestFault::TooLarge => bare(alloc, "E10 TooLarge"),
    }
}

// The plan.
fn plan_words(alloc: Global, refused: PlanFault) -> Result<Vec<u8>, AllocError>
    ensures { IfOk result (λ words. words.items ≡ Spec.plan_words refused) }
{
    match refused {
        PlanFault::BadPlan(line) => with_number(alloc, "E18 BadPlan", line),
        PlanFault::TooLarge => bare(alloc, "E10 TooLarge"),
    }
}

// The refutation.
fn refutation_words(alloc: Global, refused: RefutationFault) -> Result<Vec<u8>, AllocError>
    ensures { IfOk result (λ words. words.items ≡ Spec.refutation_words refused) }
{
    match refused {
        RefutationFault::BadRefutation(line) => with_number(alloc, "E19 BadRefutation", line),
        RefutationFault::TooLarge => bare(alloc, "E10 TooLarge"),
    }
}

/// What is wrong with a text.
pub(crate) fn fault_words(alloc: Global, fault: &Fault) -> Result<Vec<u8>, AllocError>
    ensures { IfOk result (λ words. words.items ≡ Spec.fault_words fault.now) }
{
    match fault {
        Fault::Version(kind) => with_value(alloc, "E6 BadVersion", version_kind(*kind).as_bytes()),
        Fault::Status(refused) => status_words(alloc, refused),
        Fault::Sources(refused) => sources_words(alloc, *refused),
        Fault::Index(refused) => index_words(alloc, *refused),
        Fault::Preferences(refused) => preferences_words(alloc, *refused),
        Fault::Request(refused) => request_words(alloc, *refused),
        Fault::UnknownName(line) => with_number(alloc, "E17 UnknownName", *line),
        Fault::Plan(refused) => plan_words(alloc, *refused),
        Fault::Refutation(refused) => refutation_words(alloc, *refused),
        Fault::TooLarge => bare(alloc, "E10 TooLarge"),
        Fault::Changed => bare(alloc, "E28 Changed"),
        Fault::Read => bare(alloc, "E5 Read"),
        Fault::OutOfMemory => bare(alloc, "E1 OutOfMemory"),
    }
}

/// Which text it is.
pub(crate) fn place_words(alloc: Global, place: Input) -> Result<Vec<u8>, AllocError>
    ensures { IfOk result (λ words. words.items ≡ Spec.place_words place) }
{
    match place {
        Input::Version(number) => with_number(alloc, "version", number),
        Input::Status => bare(alloc, "status"),
        Input::Sources => bare(alloc, "sources"),
        Input::Index(number) => with_number(alloc, "index", number),
        Input::Preferences => bare(alloc, "preferences"),
        Input::Request => bare(alloc, "request"),
        Input::Plan => bare(alloc, "plan"),
        Input::Refutation => bare(alloc, "refutation"),
        Input::Memory => bare(alloc, "memory"),
    }
}
