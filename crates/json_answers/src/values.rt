// Values one behind another.
ghost use Rattle.std.specs.Prelude.{◌≡◌, ◌∷◌, ◌++◌, [], OnOk, map};
ghost use Rattle.serde_json.specs.View.{view};

use serde_json::{Value, push};
use std::alloc::AllocError;

/// Puts the value behind the others. Memory alone can fail.
pub fn push_value(values: &mut Vec<Value>, value: Value) -> Result<(), AllocError>
    ensures { OnOk result
        (map view values.new.items ≡ map view values.old.items ++ view value ∷ []) }
{
    push(values, value)
}
