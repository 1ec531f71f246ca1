// The pair that two words are, alone and with another or with a number.

ghost use Rattle.std.specs.Prelude.{◌≡◌, IfOk, MatchOption, None, Some};
ghost use Rattle.std.specs.Option.{is_none};
ghost use Rattle.plantext.specs.Cut.{parts_left};
ghost use Rattle.plantext.specs.declared.cut.TheConstants.{SPACE};
ghost use Rattle.rules.specs.VersionFault.{first_fault};
ghost use Rattle.named_refutation.specs.Pair.{first_two, number_and_pair, only_pair, pair_and_number, pair_of, two_pairs};

use crate::named::NamedPair;
use crate::number::{number_in, only_number};
use debversion::Version;
use plantext::{SPACE, cut_part, only_word};
use rules::{Name, VersionText, is_name};
use std::alloc::{AllocError, Global};

fn is_version(word: &[u8]) -> bool
    ensures { result ≡ is_none (first_fault word.now) }
{
    match Version::parse(word) {
        Ok(_) => true,
        Err(_) => false,
    }
}

/// The pair of this name and this version, if they are a name and a version. Memory alone can fail; linear in them.
pub(crate) fn pair_of(
    alloc: Global,
    name: &[u8],
    version: &[u8],
) -> Result<Option<NamedPair>, AllocError>
    ensures { IfOk result (λ pair. pair ≡ pair_of name.now version.now) }
{
    if !is_name(name) {
        return Ok(None);
    }
    if !is_version(version) {
        return Ok(None);
    }
    Ok(Some(NamedPair {
        name: Name::copied_from(alloc, name)?,
        version: VersionText::copied_from(alloc, version)?,
    }))
}

/// The pair that is all that is left.
pub(crate) fn only_pair(
    alloc: Global,
    words: Option<&[u8]>,
) -> Result<Option<NamedPair>, AllocError>
    ensures { IfOk result (λ pair. pair ≡ only_pair (parts_left SPACE words.entry)) }
{
    let Some(rest) = words else {
        return Ok(None);
    };
    let (name, after) = cut_part(SPACE, rest);
    match only_word(after) {
        None => Ok(None),
        Some(version) => pair_of(alloc, name, version),
    }
}

/// The first two words that are left, and what is left behind them.
pub(crate) fn first_two(words: Option<&[u8]>) -> Option<(&[u8], &[u8], Option<&[u8]>)>
    ensures { MatchOption result (first_two (parts_left SPACE words.entry) ≡ None)
        (λ cut. first_two (parts_left SPACE words.entry)
        ≡ Some (cut.0.now, cut.1.now, parts_left SPACE cut.2)) }
{
    let Some(rest) = words else {
        return None;
    };
    let (word, after) = cut_part(SPACE, rest);
    let Some(behind) = after else {
        return None;
    };
    let (next, later) = cut_part(SPACE, behind);
    Some((word, next, later))
}

/// The two pairs that are all that is left.
pub(crate) fn two_pairs(
    alloc: Global,
    words: Option<&[u8]>,
) -> Result<Option<(NamedPair, NamedPair)>, AllocError>
    ensures { IfOk result (λ two. two ≡ two_pairs (parts_left SPACE words.entry)) }
{
    let Some((name, version, after)) = first_two(words) else {
        return Ok(None);
    };
    let Some(pair) = pair_of(alloc, name, version)? else {
        return Ok(None);
    };
    match only_pair(alloc, after)? {
        None => Ok(None),
        Some(other) => Ok(Some((pair, other))),
    }
}

/// The pair and the number that are all that is left.
pub(crate) fn pair_and_number(
    alloc: Global,
    words: Option<&[u8]>,
) -> Result<Option<(NamedPair, u32)>, AllocError>
    ensures { IfOk result (λ both. both ≡ pair_and_number (parts_left SPACE words.entry)) }
{
    let Some((name, version, after)) = first_two(words) else {
        return Ok(None);
    };
    let Some(pair) = pair_of(alloc, name, version)? else {
        return Ok(None);
    };
    match only_number(after) {
        None => Ok(None),
        Some(number) => Ok(Some((pair, number))),
    }
}

/// The number and the pair that are all that is left.
pub(crate) fn number_and_pair(
    alloc: Global,
    words: Option<&[u8]>,
) -> Result<Option<(u32, NamedPair)>, AllocError>
    ensures { IfOk result (λ both. both ≡ number_and_pair (parts_left SPACE words.entry)) }
{
    let Some(rest) = words else {
        return Ok(None);
    };
    let (word, after) = cut_part(SPACE, rest);
    let Some(number) = number_in(word) else {
        return Ok(None);
    };
    match only_pair(alloc, after)? {
        None => Ok(None),
        Some(pair) => Ok(Some((number, pair))),
    }
}
