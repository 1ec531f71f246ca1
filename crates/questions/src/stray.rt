// Members that don't belong to what is asked.
ghost use Rattle.std.specs.Prelude.{◌≡◌, ◌⊎◌, IfErr, OnOk, bytes_eq, false, is_none, map, true};
ghost use Rattle.std.specs.List.{list_any};
ghost use Rattle.questions.specs.Member as Spec;
ghost use Rattle.questions.specs.declared.mistake.Refused.TheVariants as refused;
ghost use Rattle.serde_json.specs.View.{members_view, view};

use crate::mistake::{Mistake, Refused};
use serde_json::{Map, Value};
use std::alloc::Global;

// Tells a member whose key isn't one of the names, and a value that is no object.
pub(crate) fn only(alloc: Global, value: &Value, names: &[&str]) -> Result<(), Refused>
    ensures ok { OnOk result
        (Spec.has_only (map (λ name. name.now) names.now) (view value.now) ≡ true) }
    ensures err { IfErr result (λ e. (e ≡ refused.OutOfMemory)
        ⊎ (Spec.has_only (map (λ name. name.now) names.now) (view value.now) ≡ false)) }
{
    let Some(members) = value.as_object() else {
        return Err(Refused::Mistake(Mistake::NoObject));
    };
    match stray(members, names) {
        None => Ok(()),
        Some(key) => Err(Refused::Mistake(Mistake::Stray(String::from_str(alloc, key)?))),
    }
}

// A key of a member that isn't one of the names, if there is such.
fn stray<'v>(members: &'v Map<String, Value>, names: &[&str]) -> Option<&'v str>
    ensures { is_none result
        ≡ Spec.are_among (map (λ name. name.now) names.now) (members_view members.now.entries) }
{
    for (key, _) in members.iter() {
        if !is_among(names, key.as_str()) {
            return Some(key.as_str());
        }
    }
    None
}

// Whether the key is one of the names.
fn is_among(names: &[&str], key: &str) -> bool
    ensures { result ≡ list_any (λ name. bytes_eq name.now key.now) names.now }
{
    names.iter().any(|name| *name == key)
}
