// The derived line in the words behind its first: literals, a colon, and hints.

ghost use Rattle.std.specs.Prelude.{◌≡◌, [], IfOk};
ghost use Rattle.std.specs.Str.{bytes_eq};
ghost use Rattle.std.specs.Prelude.{codes};
ghost use Rattle.plantext.specs.Cut.{parts_left};
ghost use Rattle.refutation_text.specs.Derived.{derived_from, derived_line, hints_from, hinted_line};
ghost use Rattle.plantext.specs.declared.cut.TheConstants.{SPACE};

use crate::distinct::are_distinct;
use crate::limits::NUMBER;
use crate::number::{literal_in, number_in};
use plantext::{SPACE, cut_part};
use refutation::{Line, Literal};
use rules::Items;
use std::alloc::{AllocError, Global};

fn is_colon(word: &[u8]) -> bool
    ensures { result ≡ bytes_eq word.now (codes ":") }
{
    word == b":".as_slice()
}

// The hints of the words that are left, if each writes one.
fn hints_of(alloc: Global, words: Option<&[u8]>) -> Result<Option<Items<u32>>, AllocError>
    ensures { IfOk result (λ hints. hints ≡ hints_from [] (parts_left SPACE words.entry)) }
{
    let mut hints = Vec::new(alloc);
    let mut left = words;
    while let Some(rest) = left {
        let (word, after) = cut_part(SPACE, rest);
        let Some(hint) = number_in(NUMBER, word) else {
            return Ok(None);
        };
        hints.push(hint)?;
        left = after;
    }
    Ok(Some(Items::new(hints)))
}

// The line with these literals and hints, if the literals are distinct and it has a hint.
fn derived_line(
    alloc: Global,
    literals: Items<Literal>,
    hints: Items<u32>,
) -> Result<Option<Line>, AllocError>
    ensures { IfOk result (λ line. line ≡ derived_line literals hints) }
{
    if hints.as_slice().is_empty() {
        return Ok(None);
    }
    if are_distinct(alloc, literals.as_slice())? {
        Ok(Some(Line::Derived(literals, hints)))
    } else {
        Ok(None)
    }
}

// The line with these literals and the hints that the words write.
fn hinted_line(
    alloc: Global,
    literals: Items<Literal>,
    words: Option<&[u8]>,
) -> Result<Option<Line>, AllocError>
    ensures { IfOk result (λ line. line ≡ hinted_line literals (parts_left SPACE words.entry)) }
{
    match hints_of(alloc, words)? {
        None => Ok(None),
        Some(hints) => derived_line(alloc, literals, hints),
    }
}

/// The derived line of the words that are left, if they are one. Linear in them.
pub fn derived_of(alloc: Global, words: Option<&[u8]>) -> Result<Option<Line>, AllocError>
    ensures { IfOk result (λ line. line ≡ derived_from [] (parts_left SPACE words.entry)) }
{
    let mut literals = Vec::new(alloc);
    let mut left = words;
    while let Some(rest) = left {
        let (word, after) = cut_part(SPACE, rest);
        if is_colon(word) {
            return hinted_line(alloc, Items::new(literals), after);
        }
        let Some(literal) = literal_in(word) else {
            return Ok(None);
        };
        literals.push(literal)?;
        left = after;
    }
    Ok(None)
}
