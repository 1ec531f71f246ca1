//! The text of a stanza that was fetched.
ghost use Rattle.std.specs.Prelude.{◌≡◌, IfOk, map};
ghost use Rattle.std.specs.Option.{option_copied};

use std::alloc::{AllocError, Global};
use std::marker::Model;

/// The text of a stanza of an index, which owns its bytes.
#[derive(Drop)]
pub struct RawStanza {
    bytes: Vec<u8>,
}

impl Model for RawStanza {
    ghost use Rattle.std.specs.Prelude.{List, ℕ};

    ghost Value = { List ℕ };

    ghost view = { λ raw. raw.bytes.items };
}

impl RawStanza {
    /// The text of these bytes.
    pub fn new(bytes: Vec<u8>) -> RawStanza
        ensures { result ≡ bytes.items }
    {
        RawStanza { bytes }
    }

    /// The bytes.
    pub fn as_bytes(&self) -> &[u8]
        ensures { result.now ≡ self.now }
    {
        self.bytes.as_slice()
    }
}

// The bytes of the text, if there is one.
fn bytes_of(text: &Option<RawStanza>) -> Option<&[u8]>
    ensures { option_copied result ≡ text.now }
{
    match text {
        Some(raw) => Some(raw.as_bytes()),
        None => None,
    }
}

/// The texts, lent, in their order. Memory alone can fail.
pub fn lend_texts<'t>(
    alloc: Global,
    texts: &'t [Option<RawStanza>],
) -> Result<Vec<Option<&'t [u8]>>, AllocError>
    ensures { IfOk result (λ lent. map option_copied lent.items ≡ texts.now) }
{
    let mut all = Vec::new(alloc);
    for text in texts {
        all.push(bytes_of(text))?;
    }
    Ok(all)
}
