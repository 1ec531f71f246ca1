// The words of a command line as text.
ghost use Rattle.std.specs.Prelude.{◌≡◌, All, IfOk, IsUtf8, MatchOption, map};

use std::alloc::{AllocError, Global};

/// The words as text, unless one of them isn't UTF-8. Memory alone can fail.
pub fn texts_of(alloc: Global, words: &[Vec<u8>]) -> Result<Option<Vec<&str>>, AllocError>
    ensures { IfOk result
        (λ texts. MatchOption texts (¬ All IsUtf8 (map (λ word. word.items) words.now)) (λ texts.
        All IsUtf8 (map (λ word. word.items) words.now)
        × (map (λ text. text.now) texts.items ≡ map (λ word. word.items) words.now))) }
{
    let mut texts = Vec::new(alloc);
    for word in words {
        let Some(text) = text_in(word.as_slice()) else {
            return Ok(None);
        };
        texts.push(text)?;
    }
    Ok(Some(texts))
}

// The word as text, if it's UTF-8.
fn text_in(word: &[u8]) -> Option<&str>
    ensures { MatchOption result (¬ IsUtf8 word.now)
        (λ text. IsUtf8 word.now × (text.now ≡ word.now)) }
{
    match str::from_utf8(word) {
        Ok(text) => Some(text),
        Err(_) => None,
    }
}
