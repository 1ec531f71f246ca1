// Numbers, and names with versions.
ghost use Rattle.std.specs.Prelude.{◌≡◌, ◌++◌, OnOk, decimal};
ghost use Rattle.std.specs.Fmt.{signed_decimal};
ghost use Rattle.phrases.specs.Phrases as Spec;

use itoa::Buffer;
use std::alloc::AllocError;

/// Writes the amount. Memory alone can fail, here and in the calls below.
pub fn push_count(text: &mut Vec<u8>, count: usize) -> Result<(), AllocError>
    ensures { OnOk result (text.new.items ≡ text.old.items ++ decimal count) }
{
    let mut buffer = Buffer::new();
    text.extend_from_slice(buffer.format(count).as_bytes())
}

/// Writes the priority (apt_preferences(5)).
pub fn push_priority(text: &mut Vec<u8>, priority: i32) -> Result<(), AllocError>
    ensures { OnOk result (text.new.items ≡ text.old.items ++ signed_decimal priority) }
{
    let mut buffer = Buffer::new();
    text.extend_from_slice(buffer.format(priority).as_bytes())
}

/// Writes a name and a version: `foo 1.0`.
pub fn push_versioned(text: &mut Vec<u8>, name: &[u8], version: &[u8]) -> Result<(), AllocError>
    ensures { OnOk result (text.new.items ≡ text.old.items ++ Spec.versioned name.now version.now) }
{
    text.extend_from_slice(name)?;
    text.push(b' ')?;
    text.extend_from_slice(version)
}
