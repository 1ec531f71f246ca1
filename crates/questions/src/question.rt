// The question that a line is.
ghost use Rattle.std.specs.Prelude.{◌≡◌, ◌⊎◌, IfErr, IfOk};
ghost use Rattle.questions.specs.Asked.{IsReadAs, asked_by};
ghost use Rattle.questions.specs.Question.{id_in, question_in, value_in};
ghost use Rattle.questions.specs.Refused.{IsRefusalOf};
ghost use Rattle.questions.specs.declared.mistake.Refused.TheVariants as refused;
ghost use Rattle.serde_json.specs.Errors.{IsMemory};
ghost use Rattle.serde_json.specs.View.{view};

use crate::asked::asks_in;
use crate::mistake::{Mistake, Refused};
use crate::posed::Posed;
use serde_json::{Category, Error, Value};
use std::alloc::{AllocError, Global};

/// The question that the line is, which is a JSON text (RFC 8259) with or without its newline; of a member that stands twice the last
/// one counts. What is wrong is told by the first mistake that is found. It takes some ten times the line's size, and linear time.
/// Memory alone can fail.
pub fn question_of(alloc: Global, line: &[u8]) -> Result<Result<Posed, Mistake>, AllocError>
    ensures { IfOk result (IsReadAs (question_in line.now)) }
{
    match posed_in(alloc, line) {
        Ok(posed) => Ok(Ok(posed)),
        Err(Refused::Mistake(mistake)) => Ok(Err(mistake)),
        Err(Refused::OutOfMemory) => Err(AllocError),
    }
}

// The same, with the lack of memory among the refusals.
fn posed_in(alloc: Global, line: &[u8]) -> Result<Posed, Refused>
    ensures ok { IfOk result (λ posed. question_in line.now ≡ Some (asked_by posed)) }
    ensures err { IfErr result (IsRefusalOf (question_in line.now)) }
{
    let mut value = value_in(alloc, line)?;
    let ask = asks_in(alloc, &value)?;
    let id = id_in(&mut value);
    Ok(Posed { id, ask })
}

// The JSON value that the line is the text of.
fn value_in(alloc: Global, line: &[u8]) -> Result<Value, Refused>
    ensures ok { IfOk result (λ value. value_in line.now ≡ Some (view value)) }
    ensures err { IfErr result (IsRefusalOf (value_in line.now)) }
{
    match Value::from_slice(alloc, line) {
        Ok(value) => Ok(value),
        Err(error) => Err(refusal_of(&error)),
    }
}

// What an error in the text of a JSON value is here.
fn refusal_of(error: &Error) -> Refused
    ensures { (result ≡ refused.OutOfMemory) ⊎ ¬ IsMemory error.now }
{
    match error.classify() {
        Category::Memory => Refused::OutOfMemory,
        _ => Refused::Mistake(Mistake::NoJson),
    }
}

// Takes the value at `id`, which is null where there is none.
fn id_in(object: &mut Value) -> Value
    ensures { view result ≡ id_in (view object.old) }
{
    match object.get_mut("id") {
        Some(id) => id.take(),
        None => Value::Null,
    }
}
