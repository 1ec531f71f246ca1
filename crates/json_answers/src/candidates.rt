// The candidate of a name as an object.
ghost use Rattle.std.specs.Prelude.{◌≡◌, IfOk};
ghost use Rattle.serde_json.specs.View.{view};
ghost use Rattle.json_answers.specs.Objects as Spec;

use crate::texts::text_value;
use serde_json::{Value, json};
use std::alloc::{AllocError, Global};

/// The object of a name with the version and the priority of its candidate. Memory alone can fail.
pub fn candidate_value(
    alloc: Global,
    name: &[u8],
    version: &[u8],
    priority: i32,
) -> Result<Value, AllocError>
    ensures { IfOk result
        (λ value. view value ≡ Spec.candidate_data name.now version.now priority) }
{
    let name = text_value(alloc, name)?;
    let version = text_value(alloc, version)?;
    json!(in alloc; {"name": name, "version": version, "priority": priority})
}

/// The object of a name that has no candidate. Memory alone can fail.
pub fn no_candidate_value(alloc: Global, name: &[u8]) -> Result<Value, AllocError>
    ensures { IfOk result (λ value. view value ≡ Spec.no_candidate_data name.now) }
{
    let name = text_value(alloc, name)?;
    json!(in alloc; {"name": name, "version": null, "priority": null})
}
