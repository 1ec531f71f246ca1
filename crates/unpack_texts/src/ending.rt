//! Texts that end with a newline.
ghost use Rattle.std.specs.Prelude.{◌≡◌, IfOk, map};
ghost use Rattle.unpack_texts.specs.Texts.{with_newline};

use std::alloc::{AllocError, Global};

/// The byte that ends a line.
const NEWLINE: u8 = b'\n';

// The text with a newline at its end: one that is missing is added. Memory alone can fail.
fn with_newline(text: Vec<u8>) -> Result<Vec<u8>, AllocError>
    ensures { IfOk result (λ whole. whole.items ≡ with_newline text.items) }
{
    let mut whole = text;
    if !whole.as_slice().ends_with(&[NEWLINE]) {
        whole.push(NEWLINE)?;
    }
    Ok(whole)
}

/// The texts, each with a newline at its end. Memory alone can fail.
pub(crate) fn all_ended(alloc: Global, texts: Vec<Vec<u8>>) -> Result<Vec<Vec<u8>>, AllocError>
    ensures { IfOk result
        (λ whole. map (λ text. text.items) whole.items
        ≡ map (λ text. with_newline text.items) texts.items) }
{
    let mut all = Vec::new(alloc);
    for text in texts {
        all.push(with_newline(text)?)?;
    }
    Ok(all)
}
