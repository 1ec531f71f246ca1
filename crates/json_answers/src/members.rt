// The members of an object.
ghost use Rattle.std.specs.Prelude.{◌≡◌, OnErr, OnOk};
ghost use Rattle.serde_json.specs.Data.{no_members, object, put as with_member};
ghost use Rattle.serde_json.specs.View.{members_view, view};

use serde_json::{Map, Value, put};
use std::alloc::{AllocError, Global};

/// The members of an object, each with a key of its own, in the order of the bytes of their keys.
#[derive(Drop)]
pub struct Members {
    /// The values by their keys.
    pub map: Map<String, Value>,
}

impl Members {
    /// No members.
    pub fn new(alloc: Global) -> Members
        ensures { members_view result.map.entries ≡ no_members }
    {
        Members {
            map: Map::new(alloc),
        }
    }

    /// Puts the value at the key, in the place of one that is there. Memory alone can fail, and then nothing is changed.
    pub fn put(&mut self, alloc: Global, key: &str, value: Value) -> Result<(), AllocError>
        ensures ok { OnOk result (members_view self.new.map.entries
            ≡ with_member key.now (view value) (members_view self.old.map.entries)) }
        ensures err { OnErr result (self.new.map.entries ≡ self.old.map.entries) }
    {
        put(&mut self.map, alloc, key, value)
    }

    /// The object of these members.
    pub fn into_value(self) -> Value
        ensures { view result ≡ object (members_view self.map.entries) }
    {
        Value::Object(self.map)
    }
}
