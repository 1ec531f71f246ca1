// The text of the request that a question makes.
ghost use Rattle.std.specs.Prelude.{◌≡◌, ◌++◌, IfErr, IfOk, OnOk, map};
ghost use Rattle.std.specs.List.{flat_map};
ghost use Rattle.questions.specs.Question.{line_of, request_in, request_text};
ghost use Rattle.questions.specs.Refused.{IsRefusalOf};
ghost use Rattle.serde_json.specs.View.{view};

use crate::member::{flag_of, strings_or_none};
use crate::mistake::{Mistake, Refused};
use serde_json::Value;
use std::alloc::{AllocError, Global};

// The text of the request of an object's goals.
pub(crate) fn request_in(alloc: Global, object: &Value) -> Result<Vec<u8>, Refused>
    ensures ok { IfOk result (λ text. request_in (view object.now) ≡ Some text.items) }
    ensures err { IfErr result (IsRefusalOf (request_in (view object.now))) }
{
    let Some(goals) = strings_or_none(alloc, object.get("goals"))? else {
        return Err(Refused::Mistake(Mistake::NoStrings("goals")));
    };
    let Some(all_versions) = flag_of(object.get("all_versions")) else {
        return Err(Refused::Mistake(Mistake::NoFlag("all_versions")));
    };
    Ok(request_text(alloc, goals.as_slice(), all_versions)?)
}

// The text of these goals. Memory alone can fail.
fn request_text(alloc: Global, goals: &[&str], all_versions: bool) -> Result<Vec<u8>, AllocError>
    ensures { IfOk result
        (λ text. text.items ≡ request_text (map (λ goal. goal.now) goals.now) all_versions) }
{
    let mut text = lines_of(alloc, goals)?;
    if all_versions {
        put_line(&mut text, "all-versions")?;
    }
    Ok(text)
}

// Each goal and a newline. Memory alone can fail.
fn lines_of(alloc: Global, goals: &[&str]) -> Result<Vec<u8>, AllocError>
    ensures { IfOk result
        (λ text. text.items ≡ flat_map line_of (map (λ goal. goal.now) goals.now)) }
{
    let mut text = Vec::new(alloc);
    for goal in goals {
        put_line(&mut text, goal)?;
    }
    Ok(text)
}

// Puts a line and a newline behind a text. Memory alone can fail.
fn put_line(text: &mut Vec<u8>, line: &str) -> Result<(), AllocError>
    ensures { OnOk result (text.new.items ≡ text.old.items ++ line_of line.now) }
{
    text.extend_from_slice(line.as_bytes())?;
    text.push(b'\n')?;
    Ok(())
}
