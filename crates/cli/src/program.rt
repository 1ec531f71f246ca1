//! The whole program over a host.
ghost use Rattle.std.specs.Prelude.{◌≡◌, ◌⊎◌, IfErr, IfOk, Some, map, option_map};
ghost use Rattle.cli.specs.Calls.{IsOutcomeOfAsked, IsOutcomeOfExtent, texts_at};
ghost use Rattle.cli.specs.Files.{Files};
ghost use Rattle.cli.specs.Journals.{KeepsJournals};
ghost use Rattle.cli.specs.Kept.{Kept};
ghost use Rattle.cli.specs.Leaving.{IsLeftOfAsked, IsLeftOfExtent, IsLeftOrUntold, IsLeftWith};
ghost use Rattle.cli.specs.Places.{paths_asked};
ghost use Rattle.cli.specs.Told.{IsBatchIn, IsLeftTold, IsOutcomeOfCall, IsSingle, IsToldBy, printed_later};
ghost use Rattle.cli.specs.Words.{IsLeftOfWords, IsOutcomeOfWords};
ghost use Rattle.command_line.specs.Asked.{asked_by, extent_by, given_by};
ghost use Rattle.outcomes.specs.Outcome.{IsOutcomeOfMemory, IsWritten, streams_on};
ghost use Rattle.outcomes.specs.declared.outcome.Outcome.{Outcome as OutcomeOf};

use crate::applied::{Target, outcome_of_applied};
use crate::arguments::{Arguments, arguments_by, goals_of, place_of};
use crate::batch::status_of_batch;
use crate::files::TextAt;
use crate::host::Host;
use crate::names::outcome_of_names;
use crate::packages::outcome_of_packages;
use crate::plan::outcome_of_plan_judged;
use crate::possible::outcome_of_possible;
use crate::refuted::outcome_of_lines;
use crate::request::outcome_of_request;
use crate::versions::outcome_of_versions;
use cli_engine::Notes;
use command_line::{Call, Extent, Format, Options, call_of, joined_words, mistake, texts_of};
use conversation::Stream;
use outcomes::{Outcome, outcome_of_usage, print, refuse_for_memory};
use std::alloc::{AllocError, Global};
use std::io::Write;

/// Runs the program on the words of its command line, of which the first is its own name, and gives its exit status.
/// Questions of standard input are answered one after the other, each as soon as it is heard.
/// It opens each file once, at its turn, and none behind a refusal; the sources and the indices of a plan that is written as JSON a
/// second time, behind the answer, and the indices of a plan that is carried out. It writes nothing but its answer or one refusal, and
/// where the words ask for them, sentences behind that on standard error, where the host may show how far an answer is; of files nothing but what the words name for it: the journal
/// and the output of a plan that is carried out, the request that is left of one that is kept back, and in the folder of refutations those
/// of broken packages and their requests.
pub fn run<H: Host, W: Write, E: Write>(
    alloc: Global,
    words: &[Vec<u8>],
    host: &mut H,
    out: &mut Stream<W>,
    err: &mut Stream<E>,
) -> u8
    ensures printed { (outcome : OutcomeOf)
        × (IsOutcomeOfWords (H.files host.old) (map (λ word. word.items) words.now) outcome
        ⊎ IsOutcomeOfMemory outcome)
        × IsWritten outcome (streams_on W.contents E.contents out.old err.old)
        (streams_on W.contents E.contents out.new err.new) result }
    ensures left { (at : Files) (was : Kept H.Journal) → H.files host.old ≡ Some at
        → H.kept host.old ≡ Some was → (outcome : OutcomeOf)
        × IsLeftOrUntold
        (IsLeftOfWords H.Journal.honest H.Journal.facts
        (map (λ word. word.items) words.now) at was)
        at was outcome (H.files host.new) (H.kept host.new)
        × IsWritten outcome (streams_on W.contents E.contents out.old err.old)
        (streams_on W.contents E.contents out.new err.new) result }

    // Whatever is printed, also where memory was wanting.
    ensures journals { (at : Files) (was : Kept H.Journal) → H.files host.old ≡ Some at
        → H.kept host.old ≡ Some was → KeepsJournals H.Journal.honest H.Journal.facts
        (map (λ word. word.items) words.now) was (H.kept host.new) }
{
    let mut notes = Notes::new(alloc);
    match told_of_words(alloc, words, host, &mut notes, out, err) {
        Ok(Told::Outcome(outcome)) => print(&outcome, notes.text.as_slice(), out, err),
        Ok(Told::Status(status)) => status,
        Err(AllocError) => refuse_for_memory(err),
    }
}

/// What is told of words.
#[derive(Drop)]
pub(crate) enum Told {
    /// This is to be printed.
    Outcome(Outcome),
    /// All of it was printed as it came, and this is the exit status.
    Status(u8),
}

// The outcome is to be printed.
fn to_print(outcome: Result<Outcome, AllocError>) -> Result<Told, AllocError>
    ensures { result ≡ printed_later outcome }
{
    match outcome {
        Ok(outcome) => Ok(Told::Outcome(outcome)),
        Err(AllocError) => Err(AllocError),
    }
}

// By which files the questions of a call are answered, and how many conflicts a search may have, where it asks for that.
fn batch_in<'c, 'a>(call: &'c Call<'a>) -> Option<(&'c Options<'a>, u32)>
    ensures { IsBatchIn (asked_by call.entry.now)
        (option_map (λ batch. (given_by batch.0.now, batch.1)) result) }
{
    match call {
        Call::Batch { options, limit } => Some((options, *limit)),
        _ => None,
    }
}

// What is told of these words; the notes are those that are shown behind it.
fn told_of_words<H: Host, W: Write, E: Write>(
    alloc: Global,
    words: &[Vec<u8>],
    host: &mut H,
    notes: &mut Notes,
    out: &mut Stream<W>,
    err: &mut Stream<E>,
) -> Result<Told, AllocError>
    ensures printed { IfOk result
        (IsToldBy (IsOutcomeOfWords (H.files host.old) (map (λ word. word.items) words.now))
        (streams_on W.contents E.contents out.old err.old)
        (streams_on W.contents E.contents out.new err.new)) }
    ensures unwritten { IfErr result (λ _. streams_on W.contents E.contents out.new err.new
        ≡ streams_on W.contents E.contents out.old err.old) }
    ensures left { (at : Files) (was : Kept H.Journal) → H.files host.old ≡ Some at
        → H.kept host.old ≡ Some was → IsLeftTold
        (IsLeftOfWords H.Journal.honest H.Journal.facts (map (λ word. word.items) words.now) at was)
        at was result (H.files host.new) (H.kept host.new)
        (streams_on W.contents E.contents out.old err.old)
        (streams_on W.contents E.contents out.new err.new) }
{
    let Some(texts) = texts_of(alloc, words)? else {
        return to_print(outcome_of_usage(alloc, &mistake(alloc, "an argument isn't UTF-8")));
    };
    let words = joined_words(alloc, texts.as_slice())?;
    match call_of(alloc, words.as_slice()) {
        Ok(call) => told_of_call(alloc, &call, host, notes, out, err),
        Err(error) => to_print(outcome_of_usage(alloc, &error)),
    }
}

// What is told of this call.
fn told_of_call<H: Host, W: Write, E: Write>(
    alloc: Global,
    call: &Call<'_>,
    host: &mut H,
    notes: &mut Notes,
    out: &mut Stream<W>,
    err: &mut Stream<E>,
) -> Result<Told, AllocError>
    ensures printed { IfOk result
        (IsToldBy (IsOutcomeOfCall (H.files host.old) (asked_by call.now))
        (streams_on W.contents E.contents out.old err.old)
        (streams_on W.contents E.contents out.new err.new)) }
    ensures unwritten { IfErr result (λ _. streams_on W.contents E.contents out.new err.new
        ≡ streams_on W.contents E.contents out.old err.old) }
    ensures left { (at : Files) (was : Kept H.Journal) → H.files host.old ≡ Some at
        → H.kept host.old ≡ Some was → IsLeftTold
        (IsLeftOfAsked H.Journal.honest H.Journal.facts (asked_by call.now) at was)
        at was result (H.files host.new) (H.kept host.new)
        (streams_on W.contents E.contents out.old err.old)
        (streams_on W.contents E.contents out.new err.new) }
{
    match batch_in(call) {
        Some((options, limit)) => {
            let arguments = arguments_by(options, TextAt::Given(&[]), "", false, Format::Json);
            let status = status_of_batch(alloc, host, &arguments, limit, out, err);
            Ok(Told::Status(status))
        }
        None => to_print(outcome_of_call(alloc, call, host, notes)),
    }
}

// What is printed of this call, which isn't that of many questions.
fn outcome_of_call<H: Host>(
    alloc: Global,
    call: &Call<'_>,
    host: &mut H,
    notes: &mut Notes,
) -> Result<Outcome, AllocError>
    requires { IsSingle (asked_by call.now) }
    ensures printed { (at : Files) → H.files host.old ≡ Some at
        → IfOk result (λ outcome. IsOutcomeOfAsked at (asked_by call.now) outcome) }
    ensures left { (at : Files) (was : Kept H.Journal) → H.files host.old ≡ Some at
        → H.kept host.old ≡ Some was → IsLeftWith
        (IsLeftOfAsked H.Journal.honest H.Journal.facts (asked_by call.now) at was)
        at was result (H.files host.new) (H.kept host.new) }
{
    let goals = goals_of(alloc, call)?;
    match call {
        Call::Compare {
            version,
            relation,
            other,
        } => outcome_of_versions(alloc, *version, *relation, *other),
        Call::Candidate {
            options,
            names,
            explains,
            format,
        } => {
            let arguments = arguments_by(options, TextAt::Given(&[]), "", *explains, *format);
            outcome_of_names(alloc, host, &arguments, names.as_slice(), notes)
        }
        Call::Solve {
            options,
            request,
            limit,
            extent,
            explains,
            format,
        } => {
            let place = place_of(request, goals.as_slice());
            let arguments = arguments_by(options, place, "", *explains, *format);
            outcome_of_extent(alloc, host, &arguments, *limit, extent, notes)
        }
        Call::CheckPlan {
            options,
            request,
            plan,
            explains,
            format,
        } => {
            let place = place_of(request, goals.as_slice());
            let arguments = arguments_by(options, place, *plan, *explains, *format);
            outcome_of_plan_judged(alloc, host, &arguments, notes)
        }
        Call::CheckRefutation {
            options,
            request,
            refutation,
            explains,
            format,
        } => {
            let place = place_of(request, goals.as_slice());
            let arguments = arguments_by(options, place, *refutation, *explains, *format);
            outcome_of_lines(alloc, host, &arguments, notes)
        }
        Call::Installable {
            options,
            survey,
            refutations,
            explains,
            format,
        } => {
            let arguments = arguments_by(options, TextAt::Given(&[]), "", *explains, *format);
            outcome_of_packages(alloc, host, &arguments, survey, *refutations, notes)
        }
        Call::Apply {
            options,
            request,
            plan,
            journal,
            output,
        } => {
            let place = place_of(request, goals.as_slice());
            let arguments = arguments_by(options, place, *plan, false, Format::Text);
            let target = Target {
                journal: journal.as_bytes(),
                output: output.as_bytes(),
            };
            outcome_of_applied(alloc, host, &arguments, target)
        }
        Call::Batch { .. } => unreachable!(),
    }
}

// What is printed of the answer to so much of the request.
fn outcome_of_extent<H: Host>(
    alloc: Global,
    host: &mut H,
    arguments: &Arguments<'_>,
    limit: u32,
    extent: &Extent<'_>,
    notes: &mut Notes,
) -> Result<Outcome, AllocError>
    ensures printed { (at : Files) → H.files host.old ≡ Some at → IfOk result (λ outcome.
        IsOutcomeOfExtent (texts_at at arguments.now) (paths_asked arguments.now.paths) limit
        (extent_by extent.now) arguments.now.format outcome) }
    ensures left { (at : Files) (was : Kept H.Journal) → H.files host.old ≡ Some at
        → H.kept host.old ≡ Some was → IsLeftWith
        (IsLeftOfExtent (texts_at at arguments.now) (paths_asked arguments.now.paths) limit
        (extent_by extent.now) arguments.now.format at was)
        at was result (H.files host.new) (H.kept host.new) }
{
    match extent {
        Extent::Whole { names_pairs } => {
            outcome_of_request(alloc, host, arguments, limit, *names_pairs, notes)
        }
        Extent::Possible(output) => {
            outcome_of_possible(alloc, host, arguments, limit, *output, notes)
        }
    }
}
