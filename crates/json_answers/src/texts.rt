// Bytes as JSON strings.
ghost use Rattle.std.specs.Prelude.{◌≡◌, IfOk, OnOk};
ghost use Rattle.serde_json.specs.View.{members_view, view};
ghost use Rattle.std.specs.Option.{option_map};
ghost use Rattle.json_answers.specs.Document.{text_data, text_or_null};
ghost use Rattle.json_answers.specs.Objects.{with_text};

use crate::members::Members;
use serde_json::Value;
use std::alloc::{AllocError, Global};

/// The bytes as a JSON string, with U+FFFD in the place of each part that isn't UTF-8. Memory alone can fail.
pub fn text_value(alloc: Global, bytes: &[u8]) -> Result<Value, AllocError>
    ensures { IfOk result (λ value. view value ≡ text_data bytes.now) }
{
    let text = String::from_utf8_lossy(alloc, bytes)?;
    Ok(Value::String(text))
}

/// Puts the text as a string at the key. Memory alone can fail.
pub fn put_text(
    alloc: Global,
    members: &mut Members,
    key: &str,
    text: &str,
) -> Result<(), AllocError>
    ensures { OnOk result (members_view members.new.map.entries
        ≡ with_text key.now text.now (members_view members.old.map.entries)) }
{
    let value = Value::try_from_str(alloc, text)?;
    members.put(alloc, key, value)
}

/// The bytes as a JSON string, or `null` where there are none.
pub(crate) fn text_or_null(alloc: Global, bytes: Option<&[u8]>) -> Result<Value, AllocError>
    ensures { IfOk result
        (λ value. view value ≡ text_or_null (option_map (λ part. part.now) bytes.entry)) }
{
    match bytes {
        None => Ok(Value::Null),
        Some(bytes) => text_value(alloc, bytes),
    }
}
