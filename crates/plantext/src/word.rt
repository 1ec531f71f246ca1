// The word or the name that is all that is left of a line.

ghost use Rattle.std.specs.Prelude.{◌≡◌, IfOk, IfSome, IsTrue};
ghost use Rattle.std.specs.Option.{option_copied};
ghost use Rattle.rules.specs.Name.{is_name};
ghost use Rattle.plantext.specs.Cut.{parts_left};
ghost use Rattle.plantext.specs.Word as Spec;
ghost use Rattle.plantext.specs.Word.{only_name, only_word};
ghost use Rattle.plantext.specs.declared.cut.TheConstants.{SPACE};

use crate::cut::{SPACE, cut_part};
use rules::{Name, is_name};
use std::alloc::{AllocError, Global};

/// The word that is all that is left, if one word is. Linear in it.
#[tactic(auto, using(crate::proofs::PartLemmas::only_word_more))]
pub fn only_word(words: Option<&[u8]>) -> Option<&[u8]>
    // The words that are left are this one.
    ensures { option_copied result ≡ only_word (parts_left SPACE words.entry) }
{
    let (word, after) = cut_part(SPACE, words?);
    match after {
        None => Some(word),
        Some(_) => None,
    }
}

/// The word, if it is a name (Policy 5.6.1).
pub fn name_in(word: &[u8]) -> Option<&[u8]>
    // What is answered is the word as a name.
    ensures name { option_copied result ≡ Spec.name_in word.now }
    // It is a name.
    ensures valid { IfSome result (λ name. IsTrue (is_name name.now)) }
{
    if is_name(word) { Some(word) } else { None }
}

/// The name that is all that is left, if one is (Policy 5.6.1), as a copy. Memory alone can fail; linear in what is left.
pub fn only_name(alloc: Global, words: Option<&[u8]>) -> Result<Option<Name>, AllocError>
    // The words that are left are this name.
    ensures { IfOk result (λ name. name ≡ only_name (parts_left SPACE words.entry)) }
{
    let Some(word) = only_word(words) else {
        return Ok(None);
    };
    match name_in(word) {
        None => Ok(None),
        Some(name) => Ok(Some(Name::copied_from(alloc, name)?)),
    }
}
