// Lists of items.
ghost use Rattle.std.specs.Prelude.{◌≡◌, ◌++◌, OnOk, map};
ghost use Rattle.phrases.specs.Phrases as Spec;

use std::alloc::AllocError;

// What stands between an item and those behind it.
fn separator<'w>(word: &'w [u8], behind: &[Vec<u8>]) -> &'w [u8]
    ensures { result.now ≡ Spec.separator word.now (map (λ item. item.items) behind.now) }
{
    match behind {
        [] => &[],
        [_] => word,
        _ => b", ",
    }
}

/// Writes the items, with commas between them and the word before the last one: `a, b or c`.
pub fn push_joined(text: &mut Vec<u8>, word: &[u8], items: &[Vec<u8>]) -> Result<(), AllocError>
    ensures { OnOk result
        (text.new.items ≡ text.old.items
        ++ Spec.joined word.now (map (λ item. item.items) items.now)) }
{
    let mut rest = items;
    while let Some((item, behind)) = rest.split_first() {
        text.extend_from_slice(item.as_slice())?;
        text.extend_from_slice(separator(word, behind))?;
        rest = behind;
    }
    Ok(())
}
