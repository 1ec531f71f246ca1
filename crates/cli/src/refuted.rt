//! A refutation, judged by the files of a host.
ghost use Rattle.std.specs.Prelude.{◌≡◌, IfOk, Some};
ghost use Rattle.cli.specs.Calls.{IsOutcomeOfLines, texts_at};
ghost use Rattle.cli.specs.Files.{Files, judged_at};
ghost use Rattle.cli.specs.Members.{AreMembersOf, AreOfRefutation};
ghost use Rattle.serde_json.specs.View.{members_view};

use crate::arguments::Arguments;
use crate::asking::{context_if, is_document, shown, tells_reasons, unless_refused, want};
use crate::files::{HostShelf, Openings, ask_files};
use crate::host::Host;
use crate::members::{members_of_refutation, reasons_in};
use crate::told::tell_refusal;
use cli_engine::{CheckRefutation, JudgedRefutation, Notes, Refusal};
use command_line::Format;
use json_answers::Members;
use outcomes::{Outcome, outcome_in, outcome_of_refutation};
use std::alloc::{AllocError, Global};

// What is told of the answer.
fn reasons_of(answer: &Result<JudgedRefutation, Refusal>) -> &[u8] {
    match answer {
        Ok(judged) => reasons_in(&judged.reasons),
        Err(_) => &[],
    }
}

// What a document has of the answer.
fn members_of(
    alloc: Global,
    format: Format,
    answer: Result<JudgedRefutation, Refusal>,
    hints: &[u8],
) -> Result<Members, AllocError>
    ensures { IfOk result (λ members.
        AreMembersOf AreOfRefutation format answer (members_view members.map.entries)) }
{
    match answer {
        Ok(judged) => members_of_refutation(alloc, format, judged, hints),
        Err(_) => Ok(Members::new(alloc)),
    }
}

/// What is printed of the answer to the lines of the refutation. Memory alone can fail.
pub(crate) fn outcome_of_lines<H: Host>(
    alloc: Global,
    host: &mut H,
    arguments: &Arguments<'_>,
    notes: &mut Notes,
) -> Result<Outcome, AllocError>
    ensures printed { (at : Files) → H.files host.old ≡ Some at → IfOk result (λ outcome.
        IsOutcomeOfLines (texts_at at arguments.now)
        (judged_at at arguments.now.paths.judged.now) arguments.now.format outcome) }
    ensures same { H.files host.new ≡ H.files host.old }
    ensures keeps { H.kept host.new ≡ H.kept host.old }
{
    want(arguments, notes);
    let Arguments {
        settings,
        explains,
        format,
        ..
    } = *arguments;
    let mut context = context_if(alloc, explains);
    let mut shelf = HostShelf {
        host,
        paths: &arguments.paths,
        context: &mut context,
        openings: Openings::none(),
    };
    let question = CheckRefutation {
        tells_reasons: tells_reasons(explains, format),
        has_document: is_document(format),
    };
    let answer = ask_files(alloc, &mut shelf, &settings, &question, notes);
    unless_refused(tell_refusal(alloc, &answer, &shelf, notes), notes);
    let plain = outcome_of_refutation(alloc, &answer)?;
    let text = shown(alloc, explains, reasons_of(&answer), notes.text.as_slice());
    let members = members_of(alloc, format, answer, notes.text.as_slice())?;
    notes.text = text;
    outcome_in(alloc, format, plain, members)
}
