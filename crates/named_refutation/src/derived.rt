// The derived line in the words behind its first: literals, a colon, and hints.

ghost use Rattle.std.specs.Prelude.{◌≡◌, [], IfOk, codes};
ghost use Rattle.std.specs.Str.{bytes_eq};
ghost use Rattle.plantext.specs.Cut.{parts_left};
ghost use Rattle.plantext.specs.declared.cut.TheConstants.{SPACE};
ghost use Rattle.refutation_text.specs.Derived.{hints_from};
ghost use Rattle.named_refutation.specs.Derived.{derived_from, derived_line, hinted_line, literal_of};

use crate::distinct::are_distinct;
use crate::named::{NamedLine, NamedLiteral};
use crate::number::number_in;
use crate::pair::pair_of;
use plantext::{SPACE, cut_part};
use rules::Items;
use std::alloc::{AllocError, Global};

fn is_colon(word: &[u8]) -> bool
    ensures { result ≡ bytes_eq word.now (codes ":") }
{
    word == b":".as_slice()
}

// The literal of these two words, if they are one.
fn literal_of(
    alloc: Global,
    word: &[u8],
    version: &[u8],
) -> Result<Option<NamedLiteral>, AllocError>
    ensures { IfOk result (λ literal. literal ≡ literal_of word.now version.now) }
{
    match word {
        [] => Ok(None),
        [b'-', name @ ..] => {
            Ok(pair_of(alloc, name, version)?.map(|pair| NamedLiteral::Unselected(pair)))
        }
        _ => Ok(pair_of(alloc, word, version)?.map(|pair| NamedLiteral::Selected(pair))),
    }
}

// The hints of the words that are left, if each writes one.
fn hints_of(alloc: Global, words: Option<&[u8]>) -> Result<Option<Items<u32>>, AllocError>
    ensures { IfOk result (λ hints. hints ≡ hints_from [] (parts_left SPACE words.entry)) }
{
    let mut hints = Vec::new(alloc);
    let mut left = words;
    while let Some(rest) = left {
        let (word, after) = cut_part(SPACE, rest);
        let Some(hint) = number_in(word) else {
            return Ok(None);
        };
        hints.push(hint)?;
        left = after;
    }
    Ok(Some(Items::new(hints)))
}

// The line with these literals and hints, if the literals are distinct and it has a hint.
fn derived_line(
    alloc: Global,
    literals: Items<NamedLiteral>,
    hints: Items<u32>,
) -> Result<Option<NamedLine>, AllocError>
    ensures { IfOk result (λ line. line ≡ derived_line literals hints) }
{
    if hints.as_slice().is_empty() {
        return Ok(None);
    }
    if are_distinct(alloc, literals.as_slice())? {
        Ok(Some(NamedLine::Derived(literals, hints)))
    } else {
        Ok(None)
    }
}

// The line with these literals and the hints that the words write.
fn hinted_line(
    alloc: Global,
    literals: Items<NamedLiteral>,
    words: Option<&[u8]>,
) -> Result<Option<NamedLine>, AllocError>
    ensures { IfOk result (λ line. line ≡ hinted_line literals (parts_left SPACE words.entry)) }
{
    match hints_of(alloc, words)? {
        None => Ok(None),
        Some(hints) => derived_line(alloc, literals, hints),
    }
}

/// The derived line of the words that are left, if they are one. Linear in them.
pub(crate) fn derived_of(
    alloc: Global,
    words: Option<&[u8]>,
) -> Result<Option<NamedLine>, AllocError>
    ensures { IfOk result (λ line. line ≡ derived_from [] (parts_left SPACE words.entry)) }
{
    let mut literals = Vec::new(alloc);
    let mut left = words;
    while let Some(rest) = left {
        let (word, after) = cut_part(SPACE, rest);
        let Some(behind) = after else {
            return Ok(None);
        };
        let (version, later) = cut_part(SPACE, behind);
        if is_colon(word) {
            return hinted_line(alloc, Items::new(literals), after);
        }
        let Some(literal) = literal_of(alloc, word, version)? else {
            return Ok(None);
        };
        literals.push(literal)?;
        left = later;
    }
    Ok(None)
}
