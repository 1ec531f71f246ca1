// Writing what is printed.
ghost use Rattle.std.specs.Prelude.{◌≡◌, codes};
ghost use Rattle.conversation.specs.Stream.{written_on};
ghost use Rattle.outcomes.specs.Exit.{code_of, exit_of_ended};
ghost use Rattle.outcomes.specs.Outcome.{IsEndSaid, IsNoted, IsSaid, IsWritten, streams_on};

use crate::exit::Exit;
use crate::outcome::Outcome;
use conversation::{Ended, Stream, Unwritten};
use std::io::Write;

/// Writes what is printed, and behind it these sentences on standard error, and gives the exit status. A failure to write on
/// standard output is printed as E26 and has its own status; one to write on standard error changes nothing.
pub fn print<W: Write, E: Write>(
    outcome: &Outcome,
    sentences: &[u8],
    out: &mut Stream<W>,
    err: &mut Stream<E>,
) -> u8
    ensures { IsWritten outcome.now (streams_on W.contents E.contents out.old err.old)
        (streams_on W.contents E.contents out.new err.new) result }
{
    let status = print_outcome(outcome, out, err);
    note(err, sentences);
    status
}

// Writes what is printed and gives the exit status.
fn print_outcome<W: Write, E: Write>(
    outcome: &Outcome,
    out: &mut Stream<W>,
    err: &mut Stream<E>,
) -> u8
    ensures { IsWritten outcome.now (streams_on W.contents E.contents out.old err.old)
        (streams_on W.contents E.contents out.new err.new) result }
{
    match outcome {
        Outcome::Answer(text, exit) => match out.write(text.as_slice()) {
            Ok(()) => exit.code(),
            Err(Unwritten) => complain(err, b"debplan: output: E26 Write\n", Exit::Device),
        },
        Outcome::Complaint(text, exit) => complain(err, text.as_slice(), *exit),
    }
}

// Writes sentences on standard error, if there are any, as far as that can be.
fn note<E: Write>(err: &mut Stream<E>, sentences: &[u8])
    ensures { IsNoted (written_on E.contents err.old) (written_on E.contents err.new) }
{
    if sentences.is_empty() {
        return;
    }
    match err.write(sentences) {
        Ok(()) => {}
        Err(Unwritten) => {}
    }
}

// Writes on standard error, as far as that can be, and gives the exit status.
fn complain<E: Write>(err: &mut Stream<E>, text: &[u8], exit: Exit) -> u8
    ensures status { result ≡ code_of exit }
    ensures said { IsSaid (written_on E.contents err.old) (written_on E.contents err.new) text.now }
{
    match err.write(text) {
        Ok(()) => exit.code(),
        Err(Unwritten) => exit.code(),
    }
}

/// Prints, without taking memory, that memory was wanting, and gives the exit status.
pub fn refuse_for_memory<E: Write>(err: &mut Stream<E>) -> u8
    ensures status { result ≡ 5 }
    ensures said { IsSaid (written_on E.contents err.old) (written_on E.contents err.new)
        (codes "debplan: memory: E1 OutOfMemory\n") }
{
    complain(err, b"debplan: memory: E1 OutOfMemory\n", Exit::Device)
}

/// Prints, without taking memory, why lines stay without a reply, if any do, and gives the exit status.
pub fn print_ended<E: Write>(ended: Ended, err: &mut Stream<E>) -> u8
    ensures status { result ≡ code_of (exit_of_ended ended) }
    ensures said { IsEndSaid ended (written_on E.contents err.old) (written_on E.contents err.new) }
{
    match ended {
        Ended::Answered => Exit::Success.code(),
        Ended::Unread => complain(err, b"debplan: questions: E5 Read\n", Exit::Device),
        Ended::TooLong => complain(err, b"debplan: questions: E10 TooLarge\n", Exit::Refused),
        Ended::Unwritten => complain(err, b"debplan: output: E26 Write\n", Exit::Device),
        Ended::OutOfMemory => refuse_for_memory(err),
    }
}
