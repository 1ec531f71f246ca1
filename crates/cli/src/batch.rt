//! Many questions of standard input, answered over one reading of the files of a host.
ghost use Rattle.std.specs.Prelude.{◌≡◌, ◌⊎◌, Some, codes};
ghost use Rattle.cli.specs.Batch.{IsOutcomeOfBatch};
ghost use Rattle.cli.specs.Calls.{texts_at};
ghost use Rattle.cli.specs.Files.{Files, shelved_at};
ghost use Rattle.cli.specs.Heard.{IsAnswerWritten, IsSaidOfQuestions, KeepsWritten};
ghost use Rattle.conversation.specs.Stream.{written_on};
ghost use Rattle.inputs.specs.Texts.{texts_of};
ghost use Rattle.outcomes.specs.Outcome.{IsOutcomeOfMemory, IsOutcomeOfRefusal, IsWritten, streams_on};
ghost use Rattle.outcomes.specs.declared.outcome.Outcome.{Outcome as OutcomeOf};
ghost use Rattle.text_lines.specs.Lines.{left_of};

use crate::arguments::Arguments;
use crate::files::{HostShelf, Openings, ask_files};
use crate::hearing::questions_of;
use crate::host::{Host, Turn};
use conversation::{Ended, Stream, Talk};
use inputs::{ReadError, Refusal, Settings};
use outcomes::{outcome_of_refusal, print, print_ended, refuse_for_memory};
use std::alloc::{AllocError, Global};
use std::io::Write;
use text_lines::Lines;

// Prints the refusal and gives the exit status.
fn print_refusal<W: Write, E: Write>(
    alloc: Global,
    refusal: &Refusal,
    out: &mut Stream<W>,
    err: &mut Stream<E>,
) -> u8
    ensures { (outcome : OutcomeOf)
        × (IsOutcomeOfRefusal refusal.now outcome ⊎ IsOutcomeOfMemory outcome)
        × IsWritten outcome (streams_on W.contents E.contents out.old err.old)
        (streams_on W.contents E.contents out.new err.new) result }
{
    match outcome_of_refusal(alloc, refusal) {
        Ok(outcome) => print(&outcome, &[], out, err),
        Err(AllocError) => refuse_for_memory(err),
    }
}

// Asks the questions of this talk of the files of a host: how that ends, or the refusal.
fn ask_questions<H: Host, W: Write>(
    alloc: Global,
    shelf: &mut HostShelf<'_, '_, '_, H>,
    settings: &Settings<'_>,
    limit: u32,
    talk: &mut Talk<'_, H::Text, W>,
) -> Result<Ended, Refusal>
    ensures said { (at : Files) → H.files shelf.old.host.now ≡ Some at → IsSaidOfQuestions
        (texts_of settings.now (shelved_at at shelf.old.paths.now)) limit
        (left_of H.Text.left talk.old.lines) (written_on W.contents talk.old.out.now)
        (written_on W.contents talk.new.out.now) result }
    ensures kept { KeepsWritten (written_on W.contents talk.old.out.now)
        (written_on W.contents talk.new.out.now) result }
    ensures spoken { talk.new.out.ghost_name ≡ talk.old.out.ghost_name }
    ensures same { H.files shelf.new.host.now ≡ H.files shelf.old.host.now }
    ensures keeps { H.kept shelf.new.host.now ≡ H.kept shelf.old.host.now }
    ensures held { shelf.new.host.ghost_name ≡ shelf.old.host.ghost_name }
{
    let question = questions_of(talk, limit);
    ask_files(alloc, shelf, settings, &question, talk)
}

// Hears the questions on these lines and replies to them by the files of the host: how that ends, or the refusal.
fn answer_lines<H: Host, W: Write>(
    alloc: Global,
    host: &mut H,
    arguments: &Arguments<'_>,
    limit: u32,
    lines: Lines<H::Text>,
    out: &mut Stream<W>,
) -> Result<Ended, Refusal>
    ensures said { (at : Files) → H.files host.old ≡ Some at
        → IsSaidOfQuestions (texts_at at arguments.now) limit
        (left_of H.Text.left lines) (written_on W.contents out.old)
        (written_on W.contents out.new) result }
    ensures kept { KeepsWritten (written_on W.contents out.old) (written_on W.contents out.new)
        result }
    ensures same { H.files host.new ≡ H.files host.old }
    ensures keeps { H.kept host.new ≡ H.kept host.old }
{
    let settings = arguments.settings;
    let mut context = None;
    let mut shelf = HostShelf {
        host,
        paths: &arguments.paths,
        context: &mut context,
        openings: Openings::none(),
    };
    let mut talk = Talk { lines, out };
    let answer = ask_questions(alloc, &mut shelf, &settings, limit, &mut talk);
    let Talk {
        lines: _heard,
        out: _said,
    } = talk;
    answer
}

// The same of this text, and the exit status.
fn status_of_text<H: Host, W: Write, E: Write>(
    alloc: Global,
    host: &mut H,
    arguments: &Arguments<'_>,
    limit: u32,
    text: H::Text,
    out: &mut Stream<W>,
    err: &mut Stream<E>,
) -> u8
    ensures printed { (outcome : OutcomeOf) × (((at : Files) → H.files host.old ≡ Some at
        → IsAnswerWritten (texts_at at arguments.now) limit (H.Text.left text) outcome)
        ⊎ IsOutcomeOfMemory outcome)
        × IsWritten outcome (streams_on W.contents E.contents out.old err.old)
        (streams_on W.contents E.contents out.new err.new) result }
    ensures same { H.files host.new ≡ H.files host.old }
    ensures keeps { H.kept host.new ≡ H.kept host.old }
{
    match Lines::new(alloc, text) {
        Ok(lines) => match answer_lines(alloc, host, arguments, limit, lines, out) {
            Ok(ended) => print_ended(ended, err),
            Err(refusal) => print_refusal(alloc, &refusal, out, err),
        },
        Err(AllocError) => refuse_for_memory(err),
    }
}

/// Answers the questions of standard input by the files of the host, and gives the exit status. The questions are opened first, then what is
/// read before a request; each is answered as soon as it is heard. It writes the replies, and why it ends before their end, if it does.
pub(crate) fn status_of_batch<H: Host, W: Write, E: Write>(
    alloc: Global,
    host: &mut H,
    arguments: &Arguments<'_>,
    limit: u32,
    out: &mut Stream<W>,
    err: &mut Stream<E>,
) -> u8
    ensures printed { (outcome : OutcomeOf) × (((at : Files) → H.files host.old ≡ Some at
        → IsOutcomeOfBatch (texts_at at arguments.now) limit (at (codes "-")) outcome)
        ⊎ IsOutcomeOfMemory outcome)
        × IsWritten outcome (streams_on W.contents E.contents out.old err.old)
        (streams_on W.contents E.contents out.new err.new) result }
    ensures same { H.files host.new ≡ H.files host.old }
    ensures keeps { H.kept host.new ≡ H.kept host.old }
{
    match host.open(alloc, b"-", Turn::First) {
        Ok(text) => status_of_text(alloc, host, arguments, limit, text, out, err),
        Err(ReadError::Unreadable) => print_ended(Ended::Unread, err),
        Err(ReadError::OutOfMemory) => refuse_for_memory(err),
    }
}
