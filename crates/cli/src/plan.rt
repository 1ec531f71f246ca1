//! A plan, judged by the files of a host.
ghost use Rattle.std.specs.Prelude.{◌≡◌, IfOk, Some};
ghost use Rattle.cli.specs.Again.{archives_by};
ghost use Rattle.cli.specs.Calls.{IsOutcomeOfPlanJudged, texts_at};
ghost use Rattle.cli.specs.Files.{Files, judged_at};
ghost use Rattle.cli.specs.Members.{AreMembersOf, AreOfPlan};
ghost use Rattle.inputs.specs.Texts.{Shelved, texts_of};
ghost use Rattle.serde_json.specs.View.{members_view};

use crate::arguments::Arguments;
use crate::asking::{context_if, shown, tells_reasons, unless_refused, want};
use crate::files::{HostShelf, Openings, ask_files};
use crate::host::Host;
use crate::members::{members_of_plan, reasons_in};
use crate::told::{tell_refusal, tell_unfinished};
use cli_engine::{CheckPlan, JudgedPlan, Notes, Refusal, Settings};
use command_line::Format;
use inputs::Shelf;
use json_answers::Members;
use outcomes::{Outcome, outcome_in, outcome_of_plan};
use std::alloc::{AllocError, Global};

// Tells what finishes a package that the plan leaves unfinished, where it does.
fn tell_judged(answer: &Result<JudgedPlan, Refusal>, notes: &mut Notes) -> Result<(), AllocError> {
    match answer {
        Ok(judged) => tell_unfinished(judged, notes),
        Err(_) => Ok(()),
    }
}

// What is told of the answer.
fn reasons_of(answer: &Result<JudgedPlan, Refusal>) -> &[u8] {
    match answer {
        Ok(judged) => reasons_in(&judged.reasons),
        Err(_) => &[],
    }
}

// What a document has of the answer.
fn members_of<S: Shelf>(
    alloc: Global,
    shelf: &mut S,
    settings: &Settings<'_>,
    format: Format,
    answer: &Result<JudgedPlan, Refusal>,
    hints: &[u8],
) -> Result<Members, AllocError>
    ensures members { (at : Shelved) → S.known_texts shelf.old ≡ Some at
        → IfOk result (λ members.
        AreMembersOf (AreOfPlan (archives_by (texts_of settings.now at))) format answer.now
        (members_view members.map.entries)) }
    ensures held { S.holds shelf.old shelf.new }
{
    match answer {
        Ok(judged) => members_of_plan(alloc, shelf, settings, format, judged, hints),
        Err(_) => Ok(Members::new(alloc)),
    }
}

/// What is printed of the answer to the plan. Memory alone can fail.
pub(crate) fn outcome_of_plan_judged<H: Host>(
    alloc: Global,
    host: &mut H,
    arguments: &Arguments<'_>,
    notes: &mut Notes,
) -> Result<Outcome, AllocError>
    ensures printed { (at : Files) → H.files host.old ≡ Some at → IfOk result (λ outcome.
        IsOutcomeOfPlanJudged (texts_at at arguments.now)
        (judged_at at arguments.now.paths.judged.now) arguments.now.format outcome) }
    ensures same { H.files host.new ≡ H.files host.old }
    ensures keeps { H.kept host.new ≡ H.kept host.old }
{
    want(arguments, notes);
    let Arguments {
        settings,
        explains,
        format,
        ..
    } = *arguments;
    let mut context = context_if(alloc, explains);
    let mut shelf = HostShelf {
        host,
        paths: &arguments.paths,
        context: &mut context,
        openings: Openings::none(),
    };
    let question = CheckPlan {
        tells_reasons: tells_reasons(explains, format),
    };
    let answer = ask_files(alloc, &mut shelf, &settings, &question, notes);
    unless_refused(tell_refusal(alloc, &answer, &shelf, notes), notes);
    unless_refused(tell_judged(&answer, notes), notes);
    let members = members_of(
        alloc,
        &mut shelf,
        &settings,
        format,
        &answer,
        notes.text.as_slice(),
    )?;
    let text = shown(alloc, explains, reasons_of(&answer), notes.text.as_slice());
    notes.text = text;
    let plain = outcome_of_plan(alloc, &answer)?;
    outcome_in(alloc, format, plain, members)
}
