//! Sentences on a refusal and on an answer that gives none of its own, for a person to read. Their words aren't promised.
ghost use Rattle.std.specs.Prelude.{◌≡◌};

use crate::files::{HostShelf, Paths, RefusalContext, TextAt};
use crate::host::Host;
use cli_engine::{Fault, Input, JudgedPlan, Notes, Refusal, Solved, Undecided};
use index::{IndexFault, SourcesFault};
use inputs::StatusRefusal;
use rules::{Reason, Verdict};
use stanza::StanzaError;
use std::alloc::{AllocError, Global};
use universe_request::RequestFault;

/// Tells where the text is that is refused, why it can't be read, and what may help, where the answer is a refusal and that is asked for.
/// Memory alone can fail.
pub(crate) fn tell_refusal<T, H: Host>(
    alloc: Global,
    answer: &Result<T, Refusal>,
    shelf: &HostShelf<'_, '_, '_, H>,
    notes: &mut Notes,
) -> Result<(), AllocError> {
    match (answer, &*shelf.context) {
        (Err(refusal), Some(context)) => {
            tell_place(alloc, refusal.place, shelf.paths, context, notes)?;
            tell_trouble(alloc, refusal, shelf, context, notes)?;
            tell_fault(alloc, &refusal.fault, shelf.paths, context, notes)
        }
        _ => Ok(()),
    }
}

// Tells why the file can't be read, where it is refused for that, in the words of the system.
fn tell_trouble<H: Host>(
    alloc: Global,
    refusal: &Refusal,
    shelf: &HostShelf<'_, '_, '_, H>,
    context: &RefusalContext,
    notes: &mut Notes,
) -> Result<(), AllocError> {
    match (&refusal.fault, path_at(refusal.place, shelf.paths, context)) {
        (Fault::Read, Some(path)) => tell_words(alloc, shelf.host.trouble(path), notes),
        _ => Ok(()),
    }
}

// Tells the words of the system, if there are any.
fn tell_words(alloc: Global, words: &str, notes: &mut Notes) -> Result<(), AllocError> {
    if words.is_empty() {
        return Ok(());
    }
    notes.add(format!(in alloc; "It can't be read: {words}.\n")?.as_bytes())
}

// The path of the text, if it is a file.
fn path_at<'a>(place: Input, paths: &Paths<'a>, context: &'a RefusalContext) -> Option<&'a [u8]> {
    match place {
        Input::Status => Some(paths.status.as_bytes()),
        Input::Sources => Some(paths.sources.as_bytes()),
        Input::Preferences => Some(paths.preferences?.as_bytes()),
        Input::Request => match paths.request {
            TextAt::File(path) => Some(path.as_bytes()),
            TextAt::Given(_) => None,
        },
        Input::Plan | Input::Refutation => Some(paths.judged.as_bytes()),
        Input::Index(_) => Some(context.index.as_slice()),
        Input::Version(_) | Input::Memory => None,
    }
}

// Tells where the text is that is refused.
fn tell_place(
    alloc: Global,
    place: Input,
    paths: &Paths<'_>,
    context: &RefusalContext,
    notes: &mut Notes,
) -> Result<(), AllocError> {
    match place {
        Input::Status => tell_file(alloc, "Status file", paths.status, notes),
        Input::Sources => tell_file(alloc, "Sources file", paths.sources, notes),
        Input::Preferences => tell_file(
            alloc,
            "Preferences file",
            paths.preferences.unwrap_or(""),
            notes,
        ),
        Input::Request => tell_request(alloc, paths.request, notes),
        Input::Plan => tell_text(alloc, "Plan", paths.judged, notes),
        Input::Refutation => tell_text(alloc, "Refutation", paths.judged, notes),
        Input::Index(number) => tell_index(alloc, number, context, notes),
        Input::Version(_) | Input::Memory => Ok(()),
    }
}

// Tells the path of a file.
fn tell_file(alloc: Global, name: &str, path: &str, notes: &mut Notes) -> Result<(), AllocError> {
    notes.add(format!(in alloc; "{name}: ")?.as_bytes())?;
    tell_printed(alloc, path.as_bytes(), notes)?;
    notes.add(b"\n")
}

// Tells the path of a text, which may be that of standard input.
fn tell_text(alloc: Global, name: &str, path: &str, notes: &mut Notes) -> Result<(), AllocError> {
    if path == "-" {
        tell_file(alloc, name, "what standard input gives", notes)
    } else {
        tell_file(alloc, name, path, notes)
    }
}

fn tell_request(alloc: Global, place: TextAt<'_>, notes: &mut Notes) -> Result<(), AllocError> {
    match place {
        TextAt::File(path) => tell_text(alloc, "Request", path, notes),
        TextAt::Given(_) => tell_file(alloc, "Request", "what --goal says", notes),
    }
}

fn tell_index(
    alloc: Global,
    number: usize,
    context: &RefusalContext,
    notes: &mut Notes,
) -> Result<(), AllocError> {
    notes.add(format!(in alloc; "Index {number}: ")?.as_bytes())?;
    tell_printed(alloc, context.index.as_slice(), notes)?;
    notes.add(b"\n")
}

// Tells what may help.
fn tell_fault(
    alloc: Global,
    fault: &Fault,
    paths: &Paths<'_>,
    context: &RefusalContext,
    notes: &mut Notes,
) -> Result<(), AllocError> {
    match fault {
        Fault::Request(RequestFault::BadRequest(line)) => {
            tell_line(alloc, *line, text_of(paths, context), notes)?;
            notes.add(GOALS)
        }
        Fault::UnknownName(line) => {
            tell_line(alloc, *line, text_of(paths, context), notes)?;
            notes.add(UNKNOWN_NAME)
        }
        Fault::Status(StatusRefusal::ForeignArchitecture(_)) => notes.add(ONE_ARCHITECTURE),
        Fault::Sources(SourcesFault::MissingFile(_)) => notes.add(OWN_SOURCES),
        Fault::Index(IndexFault::Stanza(error)) => tell_compressed(*error, context, notes),
        _ => Ok(()),
    }
}

/// What a line of a request may be (docs/FORMATS.md, section 8).
const GOALS: &[u8] =
    b"A line is one of: install NAME [(REL VERSION)], remove NAME, purge NAME, upgrade NAME, upgrade-all, no-remove,
or all-versions. REL is <<, <=, =, >= or >>.
";

const UNKNOWN_NAME: &[u8] = b"The package that it names is in no index, and isn't installed.\n";

const ONE_ARCHITECTURE: &[u8] =
    b"The package is of another architecture than --arch says; dpkg --print-architecture prints that of the machine.
If --arch is right, remove the packages of other architectures from a copy of the status file: then nothing is known of them.
";

const OWN_SOURCES: &[u8] =
    b"Each stanza of the sources has a field File, the path of an uncompressed Packages file. apt's own sources are other files.\n";

// The text of the request, as far as it was read.
fn text_of<'a>(paths: &Paths<'a>, context: &'a RefusalContext) -> &'a [u8] {
    match paths.request {
        TextAt::File(_) => context.request.as_slice(),
        TextAt::Given(text) => text,
    }
}

// Tells the line of this number, counted from 1, in the text of the request.
fn tell_line(
    alloc: Global,
    number: usize,
    text: &[u8],
    notes: &mut Notes,
) -> Result<(), AllocError> {
    notes.add(format!(in alloc; "Line {number}: ")?.as_bytes())?;
    tell_printed(alloc, line_at(text, number), notes)?;
    notes.add(b"\n")
}

// The line of this number, counted from 1, without its end, or nothing where there are fewer.
fn line_at(text: &[u8], number: usize) -> &[u8] {
    match text
        .split(|byte| *byte == b'\n')
        .nth(number.saturating_sub(1))
    {
        Some(line) => line,
        None => &[],
    }
}

// Tells bytes of a text, with a question mark in the place of each that controls a terminal.
fn tell_printed(alloc: Global, text: &[u8], notes: &mut Notes) -> Result<(), AllocError> {
    let mut printed = text.to_vec(alloc)?;
    for byte in printed.as_mut_slice() {
        *byte = printed_byte(*byte);
    }
    notes.add(printed.as_slice())
}

fn printed_byte(byte: u8) -> u8 {
    if byte < 0x20 || byte == 0x7F {
        b'?'
    } else {
        byte
    }
}

// Tells that an index is to be given uncompressed, where it's no control text from its first line on and is named as a compressed
// file.
fn tell_compressed(
    error: StanzaError,
    context: &RefusalContext,
    notes: &mut Notes,
) -> Result<(), AllocError> {
    match error {
        StanzaError::BadLine(1) | StanzaError::BadFieldName(1)
            if is_compressed_name(context.index.as_slice()) => {
            notes.add(b"It looks compressed: give it uncompressed.\n")
        }
        _ => Ok(()),
    }
}

// Whether a file has the name of one that gzip, xz, lz4, zstd or bzip2 has made.
fn is_compressed_name(file: &[u8]) -> bool {
    file.ends_with(b".gz")
        || file.ends_with(b".xz")
        || file.ends_with(b".lz4")
        || file.ends_with(b".zst")
        || file.ends_with(b".bz2")
}

/// Tells why this answer is undecided, where it is and that is asked for. Memory alone can fail.
pub(crate) fn tell_undecided(solved: &Solved, notes: &mut Notes) -> Result<(), AllocError> {
    match solved {
        Solved::Undecided(why) => notes.add(why_undecided(why)),
        Solved::Plan(_) | Solved::Refuted(_) => Ok(()),
    }
}

fn why_undecided(why: &Undecided) -> &'static [u8] {
    match why {
        Undecided::Limit(_) => b"The search gave up at its limit, which --limit N raises.\n",
        Undecided::Start => b"Two packages that are there conflict, so no plan can begin.\n",
        Undecided::Stuck(_) => {
            b"Versions that fulfil the request were found, and no order of steps that leads to them.\n"
        }
        Undecided::Unchecked =>
            b"What was found didn't pass the program's own check: this is a bug.\n",
    }
}

/// Tells what finishes a package that a plan leaves unfinished, where that is asked for. Memory alone can fail.
pub(crate) fn tell_unfinished(judged: &JudgedPlan, notes: &mut Notes) -> Result<(), AllocError> {
    match judged.verdict {
        Verdict::End(Reason::Unfinished(_)) => notes.add(UNFINISHED),
        _ => Ok(()),
    }
}

const UNFINISHED: &[u8] =
    b"The package isn't installed whole at the end. dpkg --configure -a finishes what dpkg has left unpacked or half-configured.\n";
