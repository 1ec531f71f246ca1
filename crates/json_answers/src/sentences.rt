// Lines of texts as arrays of strings.
ghost use Rattle.std.specs.Prelude.{◌≡◌, ◌∷◌, ◌++◌, [], IfOk, OnOk, map};
ghost use Rattle.std.specs.List.{flat_map, slice_split};
ghost use Rattle.serde_json.specs.View.{members_view, view};
ghost use Rattle.json_answers.specs.TextLines as Spec;

use crate::members::Members;
use crate::texts::text_value;
use crate::values::push_value;
use rules::Items;
use serde_json::Value;
use std::alloc::{AllocError, Global};

// The parts of the text between newlines.
fn parts_of<'a>(alloc: Global, text: &'a [u8]) -> Result<Vec<&'a [u8]>, AllocError>
    ensures { IfOk result (λ parts.
        map (λ part. part.now) parts.items ≡ slice_split Spec.is_newline text.now) }
{
    text.split(|byte| *byte == b'\n').collect(alloc)
}

// Puts the line as a string behind the others, unless it is empty.
fn push_line(alloc: Global, lines: &mut Vec<Value>, line: &[u8]) -> Result<(), AllocError>
    ensures { OnOk result
        (map view lines.new.items ≡ map view lines.old.items ++ Spec.line_data line.now) }
{
    if line.is_empty() {
        return Ok(());
    }
    push_value(lines, text_value(alloc, line)?)
}

// The lines that aren't empty, each as a string.
fn line_values(alloc: Global, parts: &[&[u8]]) -> Result<Vec<Value>, AllocError>
    ensures { IfOk result (λ lines.
        map view lines.items ≡ flat_map Spec.line_data (map (λ part. part.now) parts.now)) }
{
    let mut lines = Vec::new(alloc);
    for part in parts {
        push_line(alloc, &mut lines, part)?;
    }
    Ok(lines)
}

// The lines of the text that aren't empty, each a string.
fn lines_value(alloc: Global, text: &[u8]) -> Result<Value, AllocError>
    ensures { IfOk result (λ value. view value ≡ Spec.lines_data text.now) }
{
    let parts = parts_of(alloc, text)?;
    let lines = line_values(alloc, parts.as_slice())?;
    Ok(Value::from(lines))
}

/// The lines of what is told that aren't empty, each a string without its newline, as an array; null where nothing is told. Memory alone can
/// fail. Linear in the text.
pub fn told_value(alloc: Global, told: &Option<Items<u8>>) -> Result<Value, AllocError>
    ensures { IfOk result (λ value. view value ≡ Spec.told_data told.now) }
{
    match told {
        Some(text) => lines_value(alloc, text.as_slice()),
        None => Ok(Value::Null),
    }
}

/// Puts the lines of the text that aren't empty, each a string without its newline, as an array at the key. Memory alone can fail.
/// Linear in the text.
pub fn put_text_lines(
    alloc: Global,
    members: &mut Members,
    key: &str,
    text: &[u8],
) -> Result<(), AllocError>
    ensures { OnOk result (members_view members.new.map.entries
        ≡ Spec.with_text_lines key.now text.now (members_view members.old.map.entries)) }
{
    members.put(alloc, key, lines_value(alloc, text)?)
}
