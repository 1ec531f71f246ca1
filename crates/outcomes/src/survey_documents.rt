//! What is printed of packages that are asked about, as JSON texts: one for each line.
ghost use Rattle.std.specs.Prelude.{◌≡◌, ◌++◌, IfOk, OnOk, map};
ghost use Rattle.std.specs.List.{flat_map};
ghost use Rattle.command_line.specs.declared.call.Format.TheVariants as format;
ghost use Rattle.json_answers.specs.Document.{object_with};
ghost use Rattle.json_answers.specs.TextLines.{told_data};
ghost use Rattle.outcomes.specs.Survey as Spec;
ghost use Rattle.outcomes.specs.Survey.{AreJsonLines};
ghost use Rattle.serde_json.specs.Data.{no_members};
ghost use Rattle.serde_json.specs.View.{members_view, view};

use crate::exit::Exit;
use crate::survey::{
    count_broken, count_undecided, counts_line, exit_of_survey, push_installability, subject_of,
};
use installable::{Installability, PackageAnswer, Refuted, Surveyed};
use json_answers::{
    Members, line_of, push_value, put_text, put_undecided, text_object, text_value, told_value,
};
use serde_json::{Value, json};
use std::alloc::{AllocError, Global};

// The reasons of a request that can't be met, if they are told.
fn reasons_value(alloc: Global, refuted: &Refuted, tells: bool) -> Result<Value, AllocError>
    ensures { IfOk result (λ value. view value ≡ told_data (Spec.reasons_if tells refuted.now)) }
{
    if tells {
        told_value(alloc, &refuted.reasons)
    } else {
        Ok(Value::Null)
    }
}

// Puts the request, its refutation and the reasons, if they are told.
fn put_refuted(
    alloc: Global,
    members: &mut Members,
    refuted: &Refuted,
    tells: bool,
) -> Result<(), AllocError>
    ensures { OnOk result (members_view members.new.map.entries
        ≡ Spec.with_refuted tells refuted.now (members_view members.old.map.entries)) }
{
    let request = text_value(alloc, refuted.request.as_slice())?;
    let refutation = text_value(alloc, refuted.refutation.as_slice())?;
    let reasons = reasons_value(alloc, refuted, tells)?;
    put_text(alloc, members, "answer", "broken")?;
    members.put(alloc, "request", request)?;
    members.put(alloc, "refutation", refutation)?;
    members.put(alloc, "reasons", reasons)
}

// Puts what is answered to a request.
fn put_installability(
    alloc: Global,
    members: &mut Members,
    installability: &Installability,
    tells: bool,
) -> Result<(), AllocError>
    ensures { OnOk result (members_view members.new.map.entries
        ≡ Spec.with_installability tells installability.now
        (members_view members.old.map.entries)) }
{
    match installability {
        Installability::Installable => Ok(()),
        Installability::Broken(refuted) => put_refuted(alloc, members, refuted, tells),
        Installability::Limit(_) => put_undecided(alloc, members, "limit"),
        Installability::Unchecked => put_undecided(alloc, members, "unchecked"),
    }
}

// The members of what stands beside each package: it has neither a name nor a version.
fn members_of_base(alloc: Global) -> Result<Members, AllocError>
    ensures { IfOk result
        (λ members. members_view members.map.entries ≡ Spec.without_package no_members) }
{
    let mut members = Members::new(alloc);
    members.put(alloc, "name", Value::Null)?;
    members.put(alloc, "version", Value::Null)?;
    Ok(members)
}

// The members with the name and the version of a package.
fn members_of_package(alloc: Global, answer: &PackageAnswer) -> Result<Members, AllocError>
    ensures { IfOk result
        (λ members. members_view members.map.entries ≡ Spec.with_package answer.now no_members) }
{
    let name = text_value(alloc, answer.name.as_bytes())?;
    let version = text_value(alloc, answer.version.as_bytes())?;
    let mut members = Members::new(alloc);
    members.put(alloc, "name", name)?;
    members.put(alloc, "version", version)?;
    Ok(members)
}

// The object of the line of a request of this subject, beside these members.
fn object_of(
    alloc: Global,
    subject: &[u8],
    members: Members,
    installability: &Installability,
    tells: bool,
) -> Result<Value, AllocError>
    ensures { IfOk result (λ value.
        view value ≡ Spec.object_of tells subject.now
        (members_view members.map.entries) installability.now) }
{
    let mut all = members;
    put_installability(alloc, &mut all, installability, tells)?;
    let mut line = Vec::new(alloc);
    push_installability(&mut line, subject, installability)?;
    text_object(alloc, all, line.as_slice())
}

// Puts the object of the line of a request of this subject behind the others, if it has a line.
fn push_answer(
    alloc: Global,
    objects: &mut Vec<Value>,
    subject: &[u8],
    members: Members,
    installability: &Installability,
    tells: bool,
) -> Result<(), AllocError>
    ensures { OnOk result (map view objects.new.items ≡ map view objects.old.items
        ++ Spec.objects_by tells subject.now
        (members_view members.map.entries) installability.now) }
{
    if is_met(installability) {
        return Ok(());
    }
    let object = object_of(alloc, subject, members, installability, tells)?;
    push_value(objects, object)
}

// Whether the request has an acceptable selection.
fn is_met(installability: &Installability) -> bool
    ensures { result ≡ Spec.is_met installability.now }
{
    matches!(installability, Installability::Installable)
}

// Puts the object of a package behind the others, if it has a line.
fn push_package(
    alloc: Global,
    objects: &mut Vec<Value>,
    answer: &PackageAnswer,
    tells: bool,
) -> Result<(), AllocError>
    ensures { OnOk result
        (map view objects.new.items ≡ map view objects.old.items
        ++ Spec.package_objects tells answer.now) }
{
    let subject = subject_of(alloc, answer)?;
    let members = members_of_package(alloc, answer)?;
    push_answer(
        alloc,
        objects,
        subject.as_slice(),
        members,
        &answer.installability,
        tells,
    )
}

// Puts the objects of packages behind the others.
fn push_packages(
    alloc: Global,
    objects: &mut Vec<Value>,
    answers: &[PackageAnswer],
    tells: bool,
) -> Result<(), AllocError>
    ensures { OnOk result
        (map view objects.new.items ≡ map view objects.old.items
        ++ flat_map (Spec.package_objects tells) answers.now) }
{
    for answer in answers {
        push_package(alloc, objects, answer, tells)?;
    }
    Ok(())
}

// The objects of the lines of what is answered: of what stands beside each package, and of the packages.
fn answer_objects(alloc: Global, surveyed: &Surveyed, tells: bool) -> Result<Vec<Value>, AllocError>
    ensures { IfOk result
        (λ objects. map view objects.items ≡ Spec.answer_objects tells surveyed.now) }
{
    let mut objects = Vec::new(alloc);
    let members = members_of_base(alloc)?;
    push_answer(alloc, &mut objects, b"base", members, &surveyed.base, tells)?;
    push_packages(alloc, &mut objects, surveyed.packages.as_slice(), tells)?;
    Ok(objects)
}

// How all requests are answered, in a word.
fn answer_word(exit: Exit) -> &'static str
    ensures { result.now ≡ Spec.answer_word exit }
{
    match exit {
        Exit::Success => "yes",
        Exit::Undecided => "undecided",
        _ => "no",
    }
}

// The object of how many packages are asked about, broken and undecided, and of how many files couldn't be written, if some couldn't.
fn counts_value(
    alloc: Global,
    unwritten: usize,
    answers: &[PackageAnswer],
) -> Result<Value, AllocError>
    ensures { IfOk result (λ value. view value ≡ Spec.survey_counts_data unwritten answers.now) }
{
    let checked = answers.len();
    let broken = count_broken(answers);
    let undecided = count_undecided(answers);
    match unwritten {
        0 => json!(in alloc; {"broken": broken, "checked": checked, "undecided": undecided}),
        _ => {
            json!(in alloc; {"broken": broken, "checked": checked, "undecided": undecided, "unwritten": unwritten})
        }
    }
}

// Puts whether all can be installed, how many packages are so, and how many files couldn't be written.
fn put_counts(
    alloc: Global,
    members: &mut Members,
    unwritten: usize,
    surveyed: &Surveyed,
) -> Result<(), AllocError>
    ensures { OnOk result (members_view members.new.map.entries
        ≡ Spec.with_counts unwritten surveyed.now (members_view members.old.map.entries)) }
{
    let counts = counts_value(alloc, unwritten, surveyed.packages.as_slice())?;
    put_text(
        alloc,
        members,
        "answer",
        answer_word(exit_of_survey(surveyed)),
    )?;
    members.put(alloc, "counts", counts)
}

// The object of the last line.
fn counts_object(alloc: Global, unwritten: usize, surveyed: &Surveyed) -> Result<Value, AllocError>
    ensures { IfOk result (λ value. view value ≡ Spec.counts_object unwritten surveyed.now) }
{
    let mut members = Members::new(alloc);
    put_counts(alloc, &mut members, unwritten, surveyed)?;
    let line = counts_line(alloc, unwritten, surveyed.packages.as_slice())?;
    text_object(alloc, members, line.as_slice())
}

// A line of JSON for each of the objects, one behind the other.
fn lines_of(alloc: Global, objects: &[Value]) -> Result<Vec<u8>, AllocError>
    ensures { IfOk result (λ text. AreJsonLines (map view objects.now) text.items) }
{
    let mut text = Vec::new(alloc);
    for object in objects {
        let line = line_of(alloc, object)?;
        text.extend_from_slice(line.as_slice())?;
    }
    Ok(text)
}

// The texts that tell the reasons, or that don't.
fn documents_of(
    alloc: Global,
    unwritten: usize,
    surveyed: &Surveyed,
    tells: bool,
) -> Result<Vec<u8>, AllocError>
    ensures { IfOk result
        (λ text. AreJsonLines (Spec.survey_objects unwritten tells surveyed.now) text.items) }
{
    let mut objects = answer_objects(alloc, surveyed, tells)?;
    push_value(&mut objects, counts_object(alloc, unwritten, surveyed)?)?;
    lines_of(alloc, objects.as_slice())
}

/// A JSON text for each line that is printed of the answers about packages, in their order: a line of an object whose member `text` is
/// that line. The last one counts the files that couldn't be written, too. If memory is refused for texts that tell the reasons, they
/// don't. Memory alone can fail.
pub(crate) fn survey_documents(
    alloc: Global,
    unwritten: usize,
    surveyed: &Surveyed,
) -> Result<Vec<u8>, AllocError>
    ensures { IfOk result
        (λ text. Spec.IsSurveyIn format.Json unwritten surveyed.now text.items) }
{
    match documents_of(alloc, unwritten, surveyed, true) {
        Ok(text) => Ok(text),
        Err(AllocError) => documents_of(alloc, unwritten, surveyed, false),
    }
}

// The members that tell the reasons, or that don't.
fn members_by(alloc: Global, surveyed: &Surveyed, tells: bool) -> Result<Members, AllocError>
    ensures { IfOk result (λ members.
        members_view members.map.entries ≡ Spec.with_survey tells surveyed.now no_members) }
{
    let mut members = Members::new(alloc);
    put_counts(alloc, &mut members, 0, surveyed)?;
    let objects = answer_objects(alloc, surveyed, tells)?;
    members.put(alloc, "packages", Value::from(objects))?;
    Ok(members)
}

/// The members of one document of the answers about packages: whether all can be installed, how many packages are so, and as `packages`
/// the objects of their lines, as each has a document of its own. Where memory is refused for members that tell the reasons, they don't.
/// Memory alone can fail.
pub fn members_of_survey(alloc: Global, surveyed: &Surveyed) -> Result<Members, AllocError>
    ensures { IfOk result
        (λ members. Spec.AreOfSurvey surveyed.now (members_view members.map.entries)) }
{
    match members_by(alloc, surveyed, true) {
        Ok(members) => Ok(members),
        Err(AllocError) => members_by(alloc, surveyed, false),
    }
}
