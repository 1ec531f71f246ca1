//! What a document has of an answer beside its text, where one is asked for. What is told of it is put first, with hints behind it, of
//! which nothing is promised.
ghost use Rattle.std.specs.Prelude.{◌≡◌, IfOk, OnOk, Some};
ghost use Rattle.cli.specs.Again.{archives_by};
ghost use Rattle.cli.specs.Members as Spec;
ghost use Rattle.cli.specs.Members.{AreMembersIn, members_in, reasons_in};
ghost use Rattle.inputs.specs.Texts.{Shelved, texts_of};
ghost use Rattle.json_answers.specs.Steps.{AreWithSteps};
ghost use Rattle.json_answers.specs.TextLines.{told_data};
ghost use Rattle.serde_json.specs.View.{members_view, view};

use crate::archives::archives_of;
use cli_engine::{
    Answered, JudgedPlan, JudgedRefutation, RefutationVerdict, Settings, Solved, Undecided,
};
use command_line::Format;
use inputs::Shelf;
use json_answers::{
    Members, put_bad_line, put_steps, put_text, put_undecided, put_verdict, told_value,
};
use rules::{Items, Step};
use serde_json::Value;
use std::alloc::{AllocError, Global};

/// What is told of an answer, which is empty where nothing is.
pub(crate) fn reasons_in(reasons: &Option<Items<u8>>) -> &[u8]
    ensures { result.now ≡ reasons_in reasons.now }
{
    match reasons {
        Some(text) => text.as_slice(),
        None => &[],
    }
}

// What is told of an answer, with the hints behind it, if anything is told. Memory alone can fail.
fn with_hints(
    alloc: Global,
    reasons: &Option<Items<u8>>,
    hints: &[u8],
) -> Result<Option<Items<u8>>, AllocError>
    ensures { IfOk result (λ told. told ≡ Spec.with_hints reasons.now hints.now) }
{
    match reasons {
        Some(reasons) => {
            let mut text = reasons.as_slice().to_vec(alloc)?;
            text.extend_from_slice(hints)?;
            Ok(Some(Items::new(text)))
        }
        None => Ok(None),
    }
}

// The sentences of what is told of an answer and of the hints, as a value of a document. Memory alone can fail.
fn reasons_value(
    alloc: Global,
    reasons: &Option<Items<u8>>,
    hints: &[u8],
) -> Result<Value, AllocError>
    ensures { IfOk result
        (λ value. view value ≡ told_data (Spec.with_hints reasons.now hints.now)) }
{
    let told = with_hints(alloc, reasons, hints)?;
    told_value(alloc, &told)
}

/// Puts what is told of an answer, and the hints behind it, or null where memory is refused for the sentences. Memory alone can fail.
pub(crate) fn put_told(
    alloc: Global,
    members: &mut Members,
    reasons: &Option<Items<u8>>,
    hints: &[u8],
) -> Result<(), AllocError>
    ensures { OnOk result (Spec.AreTold reasons.now hints.now
        (members_view members.old.map.entries) (members_view members.new.map.entries)) }
{
    match reasons_value(alloc, reasons, hints) {
        Ok(value) => members.put(alloc, "reasons", value),
        Err(AllocError) => members.put(alloc, "reasons", Value::Null),
    }
}

/// The members of the answer about a plan, where it is written as a document: the steps, with the fields of the stanzas that they
/// unpack, which are read a second time, what is told of it, with these hints, and the verdict. Memory alone can fail.
pub(crate) fn members_of_plan<S: Shelf>(
    alloc: Global,
    shelf: &mut S,
    settings: &Settings<'_>,
    format: Format,
    judged: &JudgedPlan,
    hints: &[u8],
) -> Result<Members, AllocError>
    ensures members { (at : Shelved) → S.known_texts shelf.old ≡ Some at
        → IfOk result (λ members. AreMembersIn format
        (Spec.AreOfPlan (archives_by (texts_of settings.now at)) judged.now)
        (members_view members.map.entries)) }
    ensures held { S.holds shelf.old shelf.new }
{
    match format {
        Format::Text => Ok(Members::new(alloc)),
        Format::Json => plan_members(alloc, shelf, settings, judged, hints),
    }
}

// Those of a document.
fn plan_members<S: Shelf>(
    alloc: Global,
    shelf: &mut S,
    settings: &Settings<'_>,
    judged: &JudgedPlan,
    hints: &[u8],
) -> Result<Members, AllocError>
    ensures members { (at : Shelved) → S.known_texts shelf.old ≡ Some at
        → IfOk result (λ members.
        Spec.AreOfPlan (archives_by (texts_of settings.now at)) judged.now
        (members_view members.map.entries)) }
    ensures held { S.holds shelf.old shelf.new }
{
    let mut members = Members::new(alloc);
    put_told(alloc, &mut members, &judged.reasons, hints)?;
    put_plan(
        alloc,
        shelf,
        settings,
        judged.steps.as_slice(),
        &mut members,
    )?;
    put_verdict(alloc, &mut members, &judged.verdict)?;
    Ok(members)
}

/// The members of the answer to a request, where it is written as a document: of a refutation its lines, of a plan its steps, as of one
/// that is judged, what is told of it, with these hints, and what it is. Memory alone can fail.
pub(crate) fn members_of_answered<S: Shelf>(
    alloc: Global,
    shelf: &mut S,
    settings: &Settings<'_>,
    format: Format,
    answered: Answered,
    hints: &[u8],
) -> Result<Members, AllocError>
    ensures members { (at : Shelved) → S.known_texts shelf.old ≡ Some at
        → IfOk result (λ members. AreMembersIn format
        (Spec.AreOfAnswered (archives_by (texts_of settings.now at)) answered)
        (members_view members.map.entries)) }
    ensures held { S.holds shelf.old shelf.new }
{
    match format {
        Format::Text => Ok(Members::new(alloc)),
        Format::Json => answered_members(alloc, shelf, settings, answered, hints),
    }
}

// Those of a document.
fn answered_members<S: Shelf>(
    alloc: Global,
    shelf: &mut S,
    settings: &Settings<'_>,
    answered: Answered,
    hints: &[u8],
) -> Result<Members, AllocError>
    ensures members { (at : Shelved) → S.known_texts shelf.old ≡ Some at
        → IfOk result (λ members.
        Spec.AreOfAnswered (archives_by (texts_of settings.now at)) answered
        (members_view members.map.entries)) }
    ensures held { S.holds shelf.old shelf.new }
{
    let Answered {
        solved,
        reasons,
        members,
        ..
    } = answered;
    let mut members = members_or_none(alloc, members);
    put_told(alloc, &mut members, &reasons, hints)?;
    put_solution(alloc, shelf, settings, &solved, &mut members)?;
    put_solved(alloc, &solved, &mut members)?;
    Ok(members)
}

/// The members of the answer about a refutation, where it is written as a document: its lines, what is told of it, with these hints, and
/// the verdict. Memory alone can fail.
pub(crate) fn members_of_refutation(
    alloc: Global,
    format: Format,
    judged: JudgedRefutation,
    hints: &[u8],
) -> Result<Members, AllocError>
    ensures { IfOk result (λ members.
        AreMembersIn format (Spec.AreOfRefutation judged) (members_view members.map.entries)) }
{
    match format {
        Format::Text => Ok(Members::new(alloc)),
        Format::Json => refutation_members(alloc, judged, hints),
    }
}

// Those of a document.
fn refutation_members(
    alloc: Global,
    judged: JudgedRefutation,
    hints: &[u8],
) -> Result<Members, AllocError>
    ensures { IfOk result (λ members.
        Spec.AreOfRefutation judged (members_view members.map.entries)) }
{
    let JudgedRefutation {
        verdict,
        reasons,
        members,
    } = judged;
    let mut members = members_or_none(alloc, members);
    put_told(alloc, &mut members, &reasons, hints)?;
    put_bad_line(alloc, &mut members, bad_line(&verdict))?;
    Ok(members)
}

// The number of the first bad line, if there is one.
fn bad_line(verdict: &RefutationVerdict) -> Option<usize>
    ensures { result ≡ Spec.bad_line_of verdict.now }
{
    match verdict {
        RefutationVerdict::Yes => None,
        RefutationVerdict::No(number) => Some(*number),
    }
}

// Puts what is answered to a request.
fn put_solved(alloc: Global, solved: &Solved, members: &mut Members) -> Result<(), AllocError>
    ensures { OnOk result (members_view members.new.map.entries
        ≡ Spec.with_solved solved.now (members_view members.old.map.entries)) }
{
    match solved {
        Solved::Plan(_) => put_text(alloc, members, "answer", "plan"),
        Solved::Refuted(_) => put_text(alloc, members, "answer", "refuted"),
        Solved::Undecided(why) => put_undecided(alloc, members, undecided_word(why)),
    }
}

// Why a request is undecided.
fn undecided_word(why: &Undecided) -> &'static str
    ensures { result.now ≡ Spec.undecided_word why.now }
{
    match why {
        Undecided::Limit(_) => "limit",
        Undecided::Start => "blocked start",
        Undecided::Stuck(_) => "blocked stuck",
        Undecided::Unchecked => "unchecked",
    }
}

// The members that were made, or none.
fn members_or_none(alloc: Global, made: Option<Members>) -> Members
    ensures { members_view result.map.entries ≡ members_in made }
{
    match made {
        Some(members) => members,
        None => Members::new(alloc),
    }
}

// Puts the steps of what is answered to a request, if that is a plan.
fn put_solution<S: Shelf>(
    alloc: Global,
    shelf: &mut S,
    settings: &Settings<'_>,
    solved: &Solved,
    members: &mut Members,
) -> Result<(), AllocError>
    ensures steps { (at : Shelved) → S.known_texts shelf.old ≡ Some at → OnOk result
        (Spec.AreStepped (archives_by (texts_of settings.now at)) solved.now
        (members_view members.old.map.entries) (members_view members.new.map.entries)) }
    ensures held { S.holds shelf.old shelf.new }
{
    match solved {
        Solved::Plan(steps) => put_plan(alloc, shelf, settings, steps.as_slice(), members),
        Solved::Refuted(_) | Solved::Undecided(_) => Ok(()),
    }
}

// Puts the steps of a plan.
fn put_plan<S: Shelf>(
    alloc: Global,
    shelf: &mut S,
    settings: &Settings<'_>,
    steps: &[Step],
    members: &mut Members,
) -> Result<(), AllocError>
    ensures steps { (at : Shelved) → S.known_texts shelf.old ≡ Some at → OnOk result
        (AreWithSteps (archives_by (texts_of settings.now at)) steps.now
        (members_view members.old.map.entries) (members_view members.new.map.entries)) }
    ensures held { S.holds shelf.old shelf.new }
{
    let archives = archives_of(alloc, shelf, settings, steps)?;
    put_steps(alloc, members, &archives)
}
