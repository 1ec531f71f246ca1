// What the start says.

ghost use Rattle.std.specs.Prelude.{◌≡◌, ◌++◌, OnOk, codes};
ghost use Rattle.refutation_sentences.specs.Words as Words;

use crate::context::Context;
use std::alloc::AllocError;

/// Writes that the pair is held.
pub(crate) fn push_hold(
    context: &Context<'_, '_, '_, '_, '_>,
    text: &mut Vec<u8>,
    number: u32,
) -> Result<(), AllocError>
    ensures { OnOk result
        (text.new.items ≡ text.old.items
        ++ (Words.pair_words context.now.premises.now number ++ codes " is held")) }
{
    context.push_number(text, number)?;
    text.extend_from_slice(b" is held")
}

/// Writes that the name is essential.
pub(crate) fn push_essential(text: &mut Vec<u8>, name: &[u8]) -> Result<(), AllocError>
    ensures { OnOk result
        (text.new.items ≡ text.old.items
        ++ (name.now ++ codes " is essential and may not be removed")) }
{
    text.extend_from_slice(name)?;
    text.extend_from_slice(b" is essential and may not be removed")
}

/// Writes that the name is to be kept.
pub(crate) fn push_keep(text: &mut Vec<u8>, name: &[u8]) -> Result<(), AllocError>
    ensures { OnOk result (text.new.items
        ≡ text.old.items
        ++ (codes "You ask that nothing is removed, and "
        ++ (name.now ++ codes " is installed"))) }
{
    text.extend_from_slice(b"You ask that nothing is removed, and ")?;
    text.extend_from_slice(name)?;
    text.extend_from_slice(b" is installed")
}
