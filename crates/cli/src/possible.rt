//! As much of a request as can be, answered by the files of a host.
ghost use Rattle.std.specs.Prelude.{◌≡◌, IfOk, Some};
ghost use Rattle.std.specs.Option.{option_map};
ghost use Rattle.cli.specs.Again.{archives_by};
ghost use Rattle.cli.specs.Calls.{texts_at};
ghost use Rattle.cli.specs.Files.{Files};
ghost use Rattle.cli.specs.Kept.{Kept};
ghost use Rattle.cli.specs.Leaving.{IsLeftOfFree, IsLeftOfKept, IsLeftOfPossible, IsLeftWith};
ghost use Rattle.cli.specs.Places.{paths_asked};
ghost use Rattle.cli.specs.Possible.{IsOutcomeOfFree, IsOutcomeOfPossible, IsPrintedOfKept, IsPrintedOfPut, IsPrintedWhere, IsSaidOfLeft};
ghost use Rattle.inputs.specs.Texts.{Shelved, texts_of};

use crate::arguments::Arguments;
use crate::asking::{context_if, is_document, show, shown, tells_reasons, unless_refused, want};
use crate::files::{HostShelf, Openings, ask_files};
use crate::host::{Host, PutError};
use crate::left_members::put_left;
use crate::members::{members_of_answered, reasons_in};
use crate::one_file::one_file_of_request;
use crate::told::{tell_refusal, tell_undecided};
use cli_engine::{Input, Notes, Refusal, Settings};
use command_line::Format;
use inputs::Shelf;
use keep_back::{KeepBack, KeptBack};
use outcomes::{
    Outcome, outcome_in, outcome_of_answered, outcome_of_refusal, outcome_of_unwritten_request,
};
use rules::Items;
use std::alloc::{AllocError, Global};

/// What is left of a request, as it is printed and written.
#[derive(Drop)]
struct Left {
    /// What is printed of its answer.
    printed: Outcome,
    /// Its text.
    request: Items<u8>,
    /// What is told of it, with what was left out.
    told: Vec<u8>,
}

// Tells why what is left is undecided, where it is. Where memory was wanting no answer is told.
fn tell_left(answer: &Result<KeptBack, Refusal>, notes: &mut Notes) -> Result<(), AllocError> {
    match answer {
        Ok(kept) => tell_undecided(&kept.answered.solved, notes),
        Err(refusal) => {
            if let Input::Memory = refusal.place {
                notes.text.clear();
            }
            Ok(())
        }
    }
}

// What is left, as it is printed in this format and written.
fn left_of<S: Shelf>(
    alloc: Global,
    shelf: &mut S,
    settings: &Settings<'_>,
    format: Format,
    kept: KeptBack,
    hints: &[u8],
    told: Vec<u8>,
) -> Result<Left, AllocError>
    ensures printed { (at : Shelved) → S.known_texts shelf.old ≡ Some at
        → IfOk result (λ left.
        IsPrintedOfKept (archives_by (texts_of settings.now at)) format kept left.printed) }
    ensures request { IfOk result (λ left. left.request ≡ kept.request) }
    ensures held { S.holds shelf.old shelf.new }
{
    let plain = outcome_of_answered(alloc, &kept.answered)?;
    let KeptBack {
        answered,
        request,
        notes,
        ..
    } = kept;
    let mut members = members_of_answered(alloc, shelf, settings, format, answered, hints)?;
    put_left(
        alloc,
        format,
        request.as_slice(),
        notes.as_slice(),
        &mut members,
    )?;
    let printed = outcome_in(alloc, format, plain, members)?;
    Ok(Left {
        printed,
        request,
        told,
    })
}

// What is shown of the answer, and behind it what was left out; where memory is refused for both, what was left out, which is said nowhere
// else. Memory alone can fail.
fn told_of_left(alloc: Global, shown: &[u8], left_out: &[u8]) -> Result<Vec<u8>, AllocError> {
    let mut text = Vec::new(alloc);
    let added = text.extend_from_slice(shown);
    if added.is_ok() && text.extend_from_slice(left_out).is_ok() {
        return Ok(text);
    }
    left_out.to_vec(alloc)
}

// What is printed of what is left, once its request was put.
fn outcome_of_request_put(
    alloc: Global,
    put: Result<(), PutError>,
    left: Left,
    notes: &mut Notes,
) -> Result<Outcome, AllocError>
    ensures { IfOk result (IsPrintedOfPut put left.printed) }
{
    match put {
        Ok(()) => {
            notes.text = left.told;
            Ok(left.printed)
        }
        Err(PutError::Unwritten) => outcome_of_unwritten_request(alloc),
        Err(PutError::OutOfMemory) => Err(AllocError),
    }
}

// Puts the request that is left at this path. What is printed of it then.
fn outcome_of_put<H: Host>(
    alloc: Global,
    host: &mut H,
    output: &str,
    left: Left,
    notes: &mut Notes,
) -> Result<Outcome, AllocError>
    ensures printed { IfOk result (IsPrintedWhere (Some output.now) left.printed) }
    ensures left { (at : Files) (was : Kept H.Journal) → H.files host.old ≡ Some at
        → H.kept host.old ≡ Some was → IsLeftWith
        (IsLeftOfKept (Some output.now) left.request left.printed at was) at was result
        (H.files host.new) (H.kept host.new) }
{
    let put = host.put(alloc, output.as_bytes(), left.request.as_slice());
    outcome_of_request_put(alloc, put, left, notes)
}

// The same, where the path of an output is given.
fn outcome_of_left<H: Host>(
    alloc: Global,
    host: &mut H,
    output: Option<&str>,
    left: Left,
    notes: &mut Notes,
) -> Result<Outcome, AllocError>
    ensures printed { IfOk result
        (IsPrintedWhere (option_map (λ path. path.now) output.entry) left.printed) }
    ensures left { (at : Files) (was : Kept H.Journal) → H.files host.old ≡ Some at
        → H.kept host.old ≡ Some was → IsLeftWith
        (IsLeftOfKept (option_map (λ path. path.now) output.entry) left.request left.printed at was)
        at was result (H.files host.new) (H.kept host.new) }
{
    match output {
        None => {
            notes.text = left.told;
            Ok(left.printed)
        }
        Some(path) => outcome_of_put(alloc, host, path, left, notes),
    }
}

// What is said of the request by the files of the host: what is left of it, as it is printed and written, or the refusal. Of an answer
// that is explained what is told of it is shown, and the notes behind it.
fn answer_of_possible<H: Host>(
    alloc: Global,
    host: &mut H,
    arguments: &Arguments<'_>,
    limit: u32,
    notes: &mut Notes,
) -> Result<Result<Left, Refusal>, AllocError>
    ensures said { (at : Files) → H.files host.old ≡ Some at
        → IfOk result
        (λ left. IsSaidOfLeft (texts_at at arguments.now) limit arguments.now.format left) }
    ensures same { H.files host.new ≡ H.files host.old }
    ensures keeps { H.kept host.new ≡ H.kept host.old }
{
    let Arguments {
        settings,
        explains,
        format,
        ..
    } = *arguments;
    let mut context = context_if(alloc, explains);
    let mut shelf = HostShelf {
        host,
        paths: &arguments.paths,
        context: &mut context,
        openings: Openings::none(),
    };
    let question = KeepBack {
        limit,
        tells_reasons: tells_reasons(explains, format),
        has_document: is_document(format),
    };
    let answer = ask_files(alloc, &mut shelf, &settings, &question, notes);
    unless_refused(tell_refusal(alloc, &answer, &shelf, notes), notes);
    unless_refused(tell_left(&answer, notes), notes);
    match answer {
        Ok(kept) => {
            let reasons = reasons_in(&kept.answered.reasons);
            let text = shown(alloc, explains, reasons, notes.text.as_slice());
            let told = told_of_left(alloc, text.as_slice(), kept.notes.as_slice())?;
            let left = left_of(
                alloc,
                &mut shelf,
                &settings,
                format,
                kept,
                notes.text.as_slice(),
                told,
            )?;
            notes.text = text;
            Ok(Ok(left))
        }
        Err(refusal) => Ok(Err(refusal)),
    }
}

// What is printed of as much of the request as can be, whose output is no file that is read.
fn outcome_of_free<H: Host>(
    alloc: Global,
    host: &mut H,
    arguments: &Arguments<'_>,
    limit: u32,
    output: Option<&str>,
    notes: &mut Notes,
) -> Result<Outcome, AllocError>
    ensures printed { (at : Files) → H.files host.old ≡ Some at
        → IfOk result (λ outcome. IsOutcomeOfFree
        (texts_at at arguments.now) limit
        (option_map (λ path. path.now) output.entry) arguments.now.format outcome) }
    ensures left { (at : Files) (was : Kept H.Journal) → H.files host.old ≡ Some at
        → H.kept host.old ≡ Some was → IsLeftWith
        (IsLeftOfFree (texts_at at arguments.now) limit
        (option_map (λ path. path.now) output.entry) arguments.now.format at was)
        at was result (H.files host.new) (H.kept host.new) }
{
    want(arguments, notes);
    match answer_of_possible(alloc, host, arguments, limit, notes)? {
        Ok(left) => outcome_of_left(alloc, host, output, left, notes),
        Err(refusal) => {
            show(arguments.explains, notes);
            outcome_of_refusal(alloc, &refusal)
        }
    }
}

/// What is printed of as much of the request as can be: the answer to what is left of it, once that is at the path of the output, if there
/// is one. What was left out is told. An output that is read, too, is refused before anything is read. Memory alone can fail.
pub(crate) fn outcome_of_possible<H: Host>(
    alloc: Global,
    host: &mut H,
    arguments: &Arguments<'_>,
    limit: u32,
    output: Option<&str>,
    notes: &mut Notes,
) -> Result<Outcome, AllocError>
    ensures printed { (at : Files) → H.files host.old ≡ Some at
        → IfOk result (λ outcome. IsOutcomeOfPossible
        (texts_at at arguments.now) (paths_asked arguments.now.paths) limit
        (option_map (λ path. path.now) output.entry) arguments.now.format outcome) }
    ensures left { (at : Files) (was : Kept H.Journal) → H.files host.old ≡ Some at
        → H.kept host.old ≡ Some was → IsLeftWith
        (IsLeftOfPossible (texts_at at arguments.now) (paths_asked arguments.now.paths) limit
        (option_map (λ path. path.now) output.entry) arguments.now.format at was)
        at was result (H.files host.new) (H.kept host.new) }
{
    match one_file_of_request(alloc, host, output, &arguments.paths)? {
        Some(outcome) => Ok(outcome),
        None => outcome_of_free(alloc, host, arguments, limit, output, notes),
    }
}
