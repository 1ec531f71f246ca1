//! What is wanted beside an answer.
ghost use Rattle.std.specs.Prelude.{◌≡◌};
ghost use Rattle.cli.specs.Asking.{AreToldIn, is_document};

use crate::arguments::Arguments;
use crate::files::RefusalContext;
use cli_engine::Notes;
use command_line::Format;
use std::alloc::{AllocError, Global};

/// Whether the answer is written as a document.
pub(crate) fn is_document(format: Format) -> bool
    ensures { result ≡ is_document format }
{
    match format {
        Format::Text => false,
        Format::Json => true,
    }
}

/// Whether it is told of an answer: where it is explained or is written as a document.
pub(crate) fn tells_reasons(explains: bool, format: Format) -> bool
    ensures { AreToldIn format result }
{
    match format {
        Format::Text => explains,
        Format::Json => true,
    }
}

/// Notes beside the answer, which are wanted where it is told of the answer.
pub(crate) fn want(arguments: &Arguments<'_>, notes: &mut Notes) {
    notes.wanted = tells_reasons(arguments.explains, arguments.format);
}

/// What is remembered of the texts, where sentences are to be shown.
pub(crate) fn context_if(alloc: Global, explains: bool) -> Option<RefusalContext> {
    if explains {
        Some(RefusalContext::new(alloc))
    } else {
        None
    }
}

/// Leaves the notes that are shown: those beside an answer that is explained.
pub(crate) fn show(explains: bool, notes: &mut Notes) {
    if !explains {
        notes.text.clear();
    }
}

// What is told of an answer, and the hints behind it.
fn text_of(alloc: Global, reasons: &[u8], hints: &[u8]) -> Result<Vec<u8>, AllocError> {
    let mut text = reasons.to_vec(alloc)?;
    text.extend_from_slice(hints)?;
    Ok(text)
}

/// What is shown of an answer that is explained: its reasons, and the hints behind them; of another one nothing is. Where memory is refused
/// for it, nothing is shown.
pub(crate) fn shown(alloc: Global, explains: bool, reasons: &[u8], hints: &[u8]) -> Vec<u8> {
    if !explains {
        return Vec::new(alloc);
    }
    match text_of(alloc, reasons, hints) {
        Ok(text) => text,
        Err(AllocError) => Vec::new(alloc),
    }
}

/// Leaves nothing told where memory was refused for words: the answer stands without them.
pub(crate) fn unless_refused(told: Result<(), AllocError>, notes: &mut Notes) {
    if told.is_err() {
        notes.text.clear();
    }
}
