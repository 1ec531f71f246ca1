// The names of a group that is configured at once.

ghost use Rattle.std.specs.Prelude.{◌≡◌, IfOk, IsTrue};
ghost use Rattle.rules.specs.Name.{name_cmp};
ghost use Rattle.std.specs.Ordering.{is_lt};
ghost use Rattle.plantext.specs.Cut.{parts_left};
ghost use Rattle.plantext.specs.Group.{are_ascending_names, is_before_first, is_group};
ghost use Rattle.plantext.specs.declared.cut.TheConstants.{SPACE};

use crate::cut::{SPACE, cut_part};
use rules::{Name, Names, is_name};
use std::alloc::{AllocError, Global};

fn is_before(word: &[u8], next: &[u8]) -> bool
    ensures { result ≡ is_lt (name_cmp word.now next.now) }
{
    word.cmp(next).is_lt()
}

// Whether the word is before the first of those that are left.
fn is_before_first(word: &[u8], left: Option<&[u8]>) -> bool
    ensures { result ≡ is_before_first word.now (parts_left SPACE left.entry) }
{
    match left {
        None => true,
        Some(rest) => is_before(word, cut_part(SPACE, rest).0),
    }
}

// Whether the words that are left are names, each before the next.
fn are_ascending_names(words: Option<&[u8]>) -> bool
    ensures { result ≡ are_ascending_names (parts_left SPACE words.entry) }
{
    let mut left = words;
    while let Some(rest) = left {
        let (word, after) = cut_part(SPACE, rest);
        if !(is_name(word) && is_before_first(word, after)) {
            return false;
        }
        left = after;
    }
    true
}

/// Whether the words that are left are a group.
#[tactic(auto, using(crate::proofs::PartLemmas::parts_not_empty))]
pub fn is_group(words: Option<&[u8]>) -> bool
    ensures { result ≡ is_group (parts_left SPACE words.entry) }
{
    match words {
        None => false,
        Some(_) => are_ascending_names(words),
    }
}

/// The group of the words that are left.
#[tactic(auto, using(crate::proofs::GroupLemmas::ascending_rest))]
pub fn names_of(alloc: Global, words: Option<&[u8]>) -> Result<Names, AllocError>
    requires { IsTrue (is_group (parts_left SPACE words)) }
    ensures { IfOk result (λ names. names ≡ parts_left SPACE words.entry) }
{
    let mut names = Vec::new(alloc);
    let mut left = words;
    while let Some(rest) = left {
        let (word, after) = cut_part(SPACE, rest);
        names.push(Name::copied_from(alloc, word)?)?;
        left = after;
    }
    Ok(Names::new(names))
}
