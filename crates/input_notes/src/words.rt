// Pieces of sentences.
ghost use Rattle.std.specs.Prelude.{◌≡◌, ◌++◌, IfOk, OnOk, codes, decimal, map, take};
ghost use Rattle.input_notes.specs.Words as Spec;

use phrases::{push_count, push_joined};
use std::alloc::{AllocError, Global};

/// How many names are told one by one.
const NAMED: usize = 5;

fn printed_byte(byte: u8) -> u8
    ensures { result ≡ Spec.printed_byte byte }
{
    if byte < 0x20 || byte == 0x7F {
        b'?'
    } else {
        byte
    }
}

/// Writes a word of a command line or of a request, with a question mark in the place of each byte that controls a terminal.
pub(crate) fn push_word(text: &mut Vec<u8>, word: &[u8]) -> Result<(), AllocError>
    ensures { OnOk result (text.new.items ≡ text.old.items ++ Spec.printed_word word.now) }
{
    for byte in word {
        text.push(printed_byte(*byte))?;
    }
    Ok(())
}

// The names, copied.
fn copies_of(alloc: Global, names: &[&[u8]]) -> Result<Vec<Vec<u8>>, AllocError>
    ensures { IfOk result
        (λ items. map (λ item. item.items) items.items ≡ map (λ name. name.now) names.now) }
{
    let mut items = Vec::new(alloc);
    for name in names {
        items.push(name.to_vec(alloc)?)?;
    }
    Ok(items)
}

// The first of the names, which are told one by one, copied.
#[tactic(auto, using(crate::proofs::WordLemmas::first_names))]
fn first_copies_of(alloc: Global, names: &[&[u8]]) -> Result<Vec<Vec<u8>>, AllocError>
    ensures { IfOk result (λ items. map (λ item. item.items) items.items
        ≡ take 5 (map (λ name. name.now) names.now)) }
{
    match names.get(..NAMED) {
        None => copies_of(alloc, names),
        Some(first) => copies_of(alloc, first),
    }
}

// How many names aren't told: `2 more`.
fn others_words(alloc: Global, count: usize) -> Result<Vec<u8>, AllocError>
    ensures { IfOk result (λ words. words.items ≡ decimal count ++ codes " more") }
{
    let mut words = Vec::new(alloc);
    push_count(&mut words, count)?;
    words.extend_from_slice(b" more")?;
    Ok(words)
}

/// Writes names: `a, b and c`, and behind the fifth how many others there are.
pub(crate) fn push_names(
    alloc: Global,
    text: &mut Vec<u8>,
    names: &[&[u8]],
) -> Result<(), AllocError>
    ensures { OnOk result (text.new.items
        ≡ text.old.items ++ Spec.names_words (map (λ name. name.now) names.now)) }
{
    let mut items = first_copies_of(alloc, names)?;
    let others = names.len().saturating_sub(NAMED);
    if others > 0 {
        items.push(others_words(alloc, others)?)?;
    }
    push_joined(text, b" and ", items.as_slice())
}
