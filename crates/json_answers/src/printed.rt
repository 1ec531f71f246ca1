// The document of an answer.
ghost use Rattle.std.specs.Prelude.{◌≡◌, IfOk};
ghost use Rattle.serde_json.specs.View.{members_view, view};
ghost use Rattle.json_answers.specs.Document.{IsDocumentOf, IsLineOf, object_with, refused_with};

use crate::members::Members;
use crate::texts::text_value;
use serde_json::Value;
use std::alloc::{AllocError, Global};

/// The JSON text of the value as a line. Memory alone can fail. Linear in all of it.
pub fn line_of(alloc: Global, value: &Value) -> Result<Vec<u8>, AllocError>
    ensures { IfOk result (λ printed. IsLineOf (view value.now) printed.items) }
{
    let mut line = value.to_string(alloc)?.into_bytes();
    line.extend_from_slice(b"\n")?;
    Ok(line)
}

/// The object that has these members and, as `text`, the text, with U+FFFD in the place of each part that isn't UTF-8. Memory alone can
/// fail.
pub fn text_object(alloc: Global, members: Members, text: &[u8]) -> Result<Value, AllocError>
    ensures { IfOk result
        (λ value. view value ≡ object_with text.now (members_view members.map.entries)) }
{
    let mut all = members;
    let text = text_value(alloc, text)?;
    all.put(alloc, "text", text)?;
    Ok(all.into_value())
}

/// The document of a text with these members: a line of JSON whose object has them and, as `text`, the text, with U+FFFD in the place
/// of each part that isn't UTF-8. Memory alone can fail. Linear in all of it.
pub fn document(alloc: Global, members: Members, text: &[u8]) -> Result<Vec<u8>, AllocError>
    ensures line { IfOk result
        (λ printed. IsLineOf
        (object_with text.now (members_view members.map.entries)) printed.items) }
    ensures document { IfOk result (λ printed. IsDocumentOf text.now printed.items) }
{
    line_of(alloc, &text_object(alloc, members, text)?)
}

/// The document of a refusal in these words with these members: a line of JSON whose object has them and, as `refused`, the words, with
/// U+FFFD in the place of each part that isn't UTF-8. Memory alone can fail. Linear in all of it.
pub fn refused_document(
    alloc: Global,
    members: Members,
    words: &[u8],
) -> Result<Vec<u8>, AllocError>
    ensures { IfOk result
        (λ printed. IsLineOf
        (refused_with words.now (members_view members.map.entries)) printed.items) }
{
    let mut all = members;
    let words = text_value(alloc, words)?;
    all.put(alloc, "refused", words)?;
    line_of(alloc, &all.into_value())
}
