// The names that a record speaks of.

ghost use Rattle.std.specs.Prelude.{◌≡◌, IfOk, map};
ghost use Rattle.std.specs.List.{AllPass, list_all};
ghost use Rattle.rules.specs.Name.{is_name};
ghost use Rattle.pins.specs.Names as Spec;
ghost use Rattle.pins.specs.Names.{are_names, is_star, names_in, names_of};

use crate::words::words_of;
use rules::{Items, Name, PinnedNames, is_name};
use std::alloc::{AllocError, Global};

fn is_star(words: &[&[u8]]) -> bool
    ensures { result ≡ is_star (map (λ word. word.now) words.now) }
{
    match words {
        [] => false,
        [word] => *word == b"*".as_slice(),
        [_, _, ..] => false,
    }
}

fn all_names(words: &[&[u8]]) -> bool
    ensures { result ≡ list_all (λ word. is_name word.now) words.now }
{
    words.iter().all(|word| is_name(*word))
}

fn are_names(words: &[&[u8]]) -> bool
    ensures { result ≡ are_names (map (λ word. word.now) words.now) }
{
    !words.is_empty() && all_names(words)
}

fn copies_of(alloc: Global, words: &[&[u8]]) -> Result<Vec<Name>, AllocError>
    requires { AllPass (λ word. is_name word.now) words.now }
    ensures { IfOk result (λ names. names.items ≡ map (λ word. word.now) words.now) }
{
    let mut names = Vec::new(alloc);
    for word in words {
        names.push(Name::copied_from(alloc, *word)?)?;
    }
    Ok(names)
}

fn names_in(alloc: Global, words: &[&[u8]]) -> Result<Option<PinnedNames>, AllocError>
    ensures { IfOk result (λ names. names ≡ names_in (map (λ word. word.now) words.now)) }
{
    if is_star(words) {
        return Ok(Some(PinnedNames::Every));
    }
    if !are_names(words) {
        return Ok(None);
    }
    Ok(Some(PinnedNames::Listed(Items::new(copies_of(alloc, words)?))))
}

/// The names that the value of a field Package writes, if it does. Linear in the value.
pub fn names_of(alloc: Global, value: &[u8]) -> Result<Option<PinnedNames>, AllocError>
    ensures { IfOk result (λ names. names ≡ names_of value.now) }
{
    let words = words_of(alloc, value)?;
    names_in(alloc, words.as_slice())
}
