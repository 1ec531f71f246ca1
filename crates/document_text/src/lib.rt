// The text of an answer in the bytes of a file: as it stands, or in a JSON document (RFC 8259), as a document of an answer has it. It
// stands on `serde_json` alone. The call is `text_of`.
#![tactic(auto)]

ghost use Rattle.std.specs.Prelude.{◌≡◌, IfOk, None, option_map, unwrap_or};
ghost use Rattle.serde_json.specs.Errors.{IsMemory};
ghost use Rattle.document_text.specs.DocumentText.{text_in, text_member};

use serde_json::{Category, Error, Value};
use std::alloc::{AllocError, Global};

// Nothing, of a text that is refused and not for memory. Memory alone can fail.
fn no_member(error: &Error) -> Result<Option<Vec<u8>>, AllocError>
    ensures none { IfOk result (λ member. member ≡ None) }
    ensures memory { IfOk result (λ _. ¬ IsMemory error.now) }
{
    match error.classify() {
        Category::Memory => Err(AllocError),
        _ => Ok(None),
    }
}

// The bytes of the text, if there is one. Memory alone can fail.
fn copy_of(alloc: Global, text: Option<&str>) -> Result<Option<Vec<u8>>, AllocError>
    ensures { IfOk result
        (λ copy. option_map (λ bytes. bytes.items) copy
        ≡ option_map (λ words. words.now) text.entry) }
{
    match text {
        Some(text) => Ok(Some(text.as_bytes().to_vec(alloc)?)),
        None => Ok(None),
    }
}

// The string at `text` of the JSON object that the text is, where it is one and has such. Memory alone can fail.
fn member_of(alloc: Global, text: &str) -> Result<Option<Vec<u8>>, AllocError>
    ensures { IfOk result
        (λ member. option_map (λ bytes. bytes.items) member ≡ text_member text.now) }
{
    match Value::from_str(alloc, text) {
        Ok(value) => copy_of(alloc, value.get("text").and_then(Value::as_str)),
        Err(error) => no_member(&error),
    }
}

// The same of bytes, which hold nothing else where they aren't UTF-8.
fn member_in(alloc: Global, bytes: &[u8]) -> Result<Option<Vec<u8>>, AllocError>
    ensures { IfOk result
        (λ member. unwrap_or (option_map (λ text. text.items) member) bytes.now
        ≡ text_in bytes.now) }
{
    match str::from_utf8(bytes) {
        Ok(text) => member_of(alloc, text),
        Err(_) => Ok(None),
    }
}

/// The text that the bytes hold: of a JSON text (RFC 8259) of an object with a string at `text` that string, and else the bytes as they
/// stand. So a plan or a refutation is read from its own text and from the document of an answer alike; neither text is JSON. Linear, and
/// a document takes some ten times its size while it is read. Memory alone can fail.
pub fn text_of(alloc: Global, bytes: Vec<u8>) -> Result<Vec<u8>, AllocError>
    ensures { IfOk result (λ text. text.items ≡ text_in bytes.items) }
{
    match member_in(alloc, bytes.as_slice())? {
        Some(text) => Ok(text),
        None => Ok(bytes),
    }
}
