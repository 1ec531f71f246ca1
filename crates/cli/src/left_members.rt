//! What a document has of what is left of a request, and of what was left out, where one is asked for.
ghost use Rattle.std.specs.Prelude.{◌≡◌, OnOk};
ghost use Rattle.cli.specs.Members as Spec;
ghost use Rattle.cli.specs.Members.{AreAddedIn};
ghost use Rattle.serde_json.specs.View.{members_view};

use command_line::Format;
use json_answers::{Members, put_text_lines, text_value};
use std::alloc::{AllocError, Global};

/// Puts what is left of a request, where its answer is written as a document: as `request` its text, and as `kept_back` the lines that
/// tell what was left out. Memory alone can fail.
pub(crate) fn put_left(
    alloc: Global,
    format: Format,
    request: &[u8],
    notes: &[u8],
    members: &mut Members,
) -> Result<(), AllocError>
    ensures { OnOk result (AreAddedIn format (Spec.with_left request.now notes.now)
        (members_view members.old.map.entries) (members_view members.new.map.entries)) }
{
    match format {
        Format::Text => Ok(()),
        Format::Json => put_request(alloc, request, notes, members),
    }
}

// The same in a document.
fn put_request(
    alloc: Global,
    request: &[u8],
    notes: &[u8],
    members: &mut Members,
) -> Result<(), AllocError>
    ensures { OnOk result (members_view members.new.map.entries
        ≡ Spec.with_left request.now notes.now (members_view members.old.map.entries)) }
{
    let request = text_value(alloc, request)?;
    members.put(alloc, "request", request)?;
    put_text_lines(alloc, members, "kept_back", notes)
}
