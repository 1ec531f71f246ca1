//! Texts that are put at the places of their steps.
ghost use Rattle.std.specs.Prelude.{◌≡◌, ◌<◌, IfOk, None, length, map, replicate};
ghost use Rattle.unpack_texts.specs.Filled.{filled};
ghost use Rattle.unpack_texts.specs.Wanted.{AreWithin};

use crate::raw_stanza::RawStanza;
use crate::wanted::Wanted;
use std::alloc::{AllocError, Global};

/// So many places without a text. Memory alone can fail.
pub(crate) fn empty_places(
    alloc: Global,
    count: usize,
) -> Result<Vec<Option<RawStanza>>, AllocError>
    ensures { IfOk result (λ texts. texts.items ≡ replicate count None) }
{
    let mut texts = Vec::new(alloc);
    for _ in 0..count {
        texts.push(None)?;
    }
    Ok(texts)
}

/// Puts each text at the place of the step of its stanza.
pub(crate) fn fill(
    texts: &mut Vec<Option<RawStanza>>,
    group: &[Wanted<'_, '_>],
    fetched: Vec<Vec<u8>>,
)
    requires count { length fetched.items ≡ length group.now }
    requires within { AreWithin (length texts.old.items) group.now }
    ensures { texts.new.items
        ≡ filled texts.old.items group.now (map (λ text. text.items) fetched.items) }
{
    let mut at = 0;
    for text in fetched {
        texts[group[at].step()] = Some(RawStanza::new(text));
        at += 1;
    }
}
