// Members of a question, each as what it says.
ghost use Rattle.std.specs.Prelude.{◌≡◌, IfOk, map, option_map, string_bytes};
ghost use Rattle.questions.specs.Member as Spec;
ghost use Rattle.questions.specs.Question.{text_at};
ghost use Rattle.serde_json.specs.View.{items_view, view};

use serde_json::Value;
use std::alloc::{AllocError, Global};

// The string at a key.
pub(crate) fn text_at<'v>(object: &'v Value, key: &str) -> Option<&'v str>
    ensures { option_map (λ text. text.now) result ≡ text_at key.now (view object.now) }
{
    object.get(key).and_then(Value::as_str)
}

// Whether a member is `true`, where it is a boolean or absent.
pub(crate) fn flag_of(member: Option<&Value>) -> Option<bool>
    ensures { result ≡ Spec.flag_of (option_map (λ value. view value.now) member.entry) }
{
    match member {
        None => Some(false),
        Some(value) => value.as_bool(),
    }
}

// The limit that a member sets, if it is there, where it is one or absent.
pub(crate) fn limit_of(member: Option<&Value>) -> Option<Option<u32>>
    ensures { result ≡ Spec.limit_of (option_map (λ value. view value.now) member.entry) }
{
    match member {
        None => Some(None),
        Some(value) => Some(Some(within_32_bits(value.as_u64()?)?)),
    }
}

// The number, where it is one of 32 bits.
fn within_32_bits(n: u64) -> Option<u32>
    ensures { result ≡ Spec.within_32_bits n }
{
    if n <= u32::MAX as u64 {
        Some(n as u32)
    } else {
        None
    }
}

// Whether pairs are named in the format of refutations that a member has the number of, where there is such or it is absent.
pub(crate) fn names_pairs_by(member: Option<&Value>) -> Option<bool>
    ensures { result ≡ Spec.names_pairs_by (option_map (λ value. view value.now) member.entry) }
{
    match member {
        None => Some(false),
        Some(value) => names_pairs(value.as_u64()?),
    }
}

// The same of a number.
fn names_pairs(n: u64) -> Option<bool>
    ensures { result ≡ Spec.names_pairs n }
{
    match n {
        1 => Some(false),
        2 => Some(true),
        _ => None,
    }
}

// The strings of a member, where it is an array of strings or absent. Memory alone can fail.
pub(crate) fn strings_or_none<'v>(
    alloc: Global,
    member: Option<&'v Value>,
) -> Result<Option<Vec<&'v str>>, AllocError>
    ensures { IfOk result
        (λ strings. option_map (λ texts. map (λ text. text.now) texts.items) strings
        ≡ Spec.strings_or_none (option_map (λ value. view value.now) member.entry)) }
{
    match member {
        None => Ok(Some(Vec::new(alloc))),
        Some(value) => strings_of(alloc, value),
    }
}

// The strings that a value is an array of, if it is one. Memory alone can fail.
pub(crate) fn strings_of<'v>(
    alloc: Global,
    value: &'v Value,
) -> Result<Option<Vec<&'v str>>, AllocError>
    ensures { IfOk result
        (λ strings. option_map (λ texts. map (λ text. text.now) texts.items) strings
        ≡ Spec.strings_of (view value.now)) }
{
    match value.as_array() {
        None => Ok(None),
        Some(items) => strings_in(alloc, items.as_slice()),
    }
}

// The strings that items are, where each is one. Memory alone can fail.
fn strings_in<'v>(alloc: Global, items: &'v [Value]) -> Result<Option<Vec<&'v str>>, AllocError>
    ensures { IfOk result
        (λ strings. option_map (λ texts. map (λ text. text.now) texts.items) strings
        ≡ Spec.strings_in (items_view items.now)) }
{
    let mut texts = Vec::with_capacity(alloc, items.len())?;
    for item in items {
        let Some(text) = item.as_str() else {
            return Ok(None);
        };
        texts.push(text)?;
    }
    Ok(Some(texts))
}

// The texts, copied. Memory alone can fail.
pub(crate) fn copy_texts(alloc: Global, texts: &[&str]) -> Result<Vec<String>, AllocError>
    ensures { IfOk result
        (λ copies. map string_bytes copies.items ≡ map (λ text. text.now) texts.now) }
{
    let mut copies = Vec::with_capacity(alloc, texts.len())?;
    for text in texts {
        copies.push(String::from_str(alloc, text)?)?;
    }
    Ok(copies)
}
