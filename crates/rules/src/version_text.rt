// Owned texts of versions, which a contract sees as their bytes.

ghost use Rattle.std.specs.Prelude.{◌≡◌, ℕ, List, IfOk, None};
ghost use Rattle.rules.specs.VersionFault.{first_fault};

use std::alloc::{AllocError, Global};
use std::marker::Model;

/// The text of a version (Policy 5.6.12), which owns its bytes.
#[derive(Drop)]
pub struct VersionText {
    bytes: Vec<u8>,
}

impl Model for VersionText {
    ghost Value = { List ℕ };

    ghost view = { λ version. version.bytes.items };

    ghost invariant = { λ version. first_fault version.bytes.items ≡ None };
}

impl VersionText {
    /// A copy of a version's text. Memory alone can fail.
    pub fn copied_from(alloc: Global, bytes: &[u8]) -> Result<VersionText, AllocError>
        requires { first_fault bytes.now ≡ None }
        ensures { IfOk result (λ version. version ≡ bytes.now) }
    {
        Ok(VersionText {
            bytes: bytes.to_vec(alloc)?,
        })
    }

    /// The bytes of the text.
    pub fn as_bytes(&self) -> &[u8]
        ensures bytes { result.now ≡ self.now }
        ensures valid { first_fault self.now ≡ None }
    {
        self.bytes.as_slice()
    }

    /// An equal text. Memory alone can fail.
    pub fn try_copy(&self, alloc: Global) -> Result<VersionText, AllocError>
        ensures { IfOk result (λ version. version ≡ self.now) }
    {
        VersionText::copied_from(alloc, self.as_bytes())
    }
}
