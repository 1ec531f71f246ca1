// Each option that takes a value joined to the word behind it.
ghost use Rattle.std.specs.Prelude.{◌≡◌, ◌++◌, ◌∷◌, [], IfOk, List, None, OnOk, false, map, string_bytes};
ghost use Rattle.command_line.specs.Joined.{Text, answer_options, is_among, joined_words, joined_behind, needed_options, optional_options, own_options, request_options, survey_options, takes_value, with_value};
ghost use Rattle.command_line.specs.Place.{left, place_behind};
ghost use Rattle.command_line.specs.declared.join.Place.TheVariants.{Behind, Free, Operands};

use std::alloc::{AllocError, Global};

// Where a word stands.
#[derive(Clone, Copy)]
enum Place<'a> {
    // Behind no option.
    Free,
    // Behind this option, whose value it is.
    Behind(&'a str),
    // Behind the word `--`.
    Operands,
}

/// The words, of which the first is the program's own name, with each option that takes a value joined to the word behind it, as
/// `--arch=amd64`: so that word is its value, whatever it begins with (getopt_long(3)). Memory alone can fail.
pub fn joined_words(alloc: Global, words: &[&str]) -> Result<Vec<String>, AllocError>
    ensures { IfOk result
        (λ all. map string_bytes all.items ≡ joined_words (map (λ word. word.now) words.now)) }
{
    match words.split_first() {
        Some((name, rest)) => joined_from(alloc, name, rest),
        None => Ok(Vec::new(alloc)),
    }
}

// The words so, of which this is the program's own name.
fn joined_from(alloc: Global, name: &str, rest: &[&str]) -> Result<Vec<String>, AllocError>
    ensures { IfOk result
        (λ all. map string_bytes all.items ≡ name.now
        ∷ joined_behind None (map (λ word. word.now) rest.now)) }
{
    let start = with_word(alloc, Vec::new(alloc), name)?;
    join(alloc, rest, start)
}

// Behind these the words, joined.
fn join(alloc: Global, words: &[&str], mut all: Vec<String>) -> Result<Vec<String>, AllocError>
    ensures { IfOk result (λ after. map string_bytes after.items
        ≡ map string_bytes all.items ++ joined_behind None (map (λ word. word.now) words.now)) }
{
    let mut place = Place::Free;
    for word in words {
        place = put(alloc, place, word, &mut all)?;
    }
    end(alloc, place, all)
}

// Behind these the option that waits for a value, if one does: there is none.
fn end(alloc: Global, place: Place<'_>, all: Vec<String>) -> Result<Vec<String>, AllocError>
    ensures { IfOk result
        (λ after. map string_bytes after.items ≡ map string_bytes all.items
        ++ left place.entry []) }
{
    match place {
        Place::Behind(option) => with_word(alloc, all, option),
        Place::Free => Ok(all),
        Place::Operands => Ok(all),
    }
}

// Puts what the word at this place makes whole behind the words so far, and gives the place of the next.
fn put<'a>(
    alloc: Global,
    place: Place<'a>,
    word: &'a str,
    all: &mut Vec<String>,
) -> Result<Place<'a>, AllocError>
    ensures { IfOk result
        (λ next. (rest : List Text) → map string_bytes all.new.items ++ left next rest
        ≡ map string_bytes all.old.items ++ left place.entry (word.entry.now ∷ rest)) }
{
    match place {
        Place::Free => put_free(alloc, word, all),
        Place::Behind(option) => put_value(alloc, option, word, all),
        Place::Operands => put_operand(alloc, word, all),
    }
}

fn put_free<'a>(
    alloc: Global,
    word: &'a str,
    all: &mut Vec<String>,
) -> Result<Place<'a>, AllocError>
    ensures { IfOk result
        (λ next. (rest : List Text) → map string_bytes all.new.items ++ left next rest
        ≡ map string_bytes all.old.items ++ left Free (word.entry.now ∷ rest)) }
{
    if takes_value(word) {
        Ok(Place::Behind(word))
    } else {
        put_own(alloc, word, all)
    }
}

fn put_own<'a>(alloc: Global, word: &str, all: &mut Vec<String>) -> Result<Place<'a>, AllocError>
    requires { takes_value word.now ≡ false }
    ensures { IfOk result
        (λ next. (rest : List Text) → map string_bytes all.new.items ++ left next rest
        ≡ map string_bytes all.old.items ++ left Free (word.now ∷ rest)) }
{
    put_word(alloc, word, all)?;
    Ok(next_of(word))
}

fn put_value<'a>(
    alloc: Global,
    option: &'a str,
    value: &str,
    all: &mut Vec<String>,
) -> Result<Place<'a>, AllocError>
    ensures { IfOk result
        (λ next. (rest : List Text) → map string_bytes all.new.items ++ left next rest
        ≡ map string_bytes all.old.items ++ left (Behind option.entry) (value.now ∷ rest)) }
{
    let text = joined_text(alloc, option, value)?;
    all.push(text)?;
    Ok(Place::Free)
}

fn put_operand<'a>(
    alloc: Global,
    word: &str,
    all: &mut Vec<String>,
) -> Result<Place<'a>, AllocError>
    ensures { IfOk result
        (λ next. (rest : List Text) → map string_bytes all.new.items ++ left next rest
        ≡ map string_bytes all.old.items ++ left Operands (word.now ∷ rest)) }
{
    put_word(alloc, word, all)?;
    Ok(Place::Operands)
}

fn put_word(alloc: Global, word: &str, all: &mut Vec<String>) -> Result<(), AllocError>
    ensures { OnOk result
        (map string_bytes all.new.items ≡ map string_bytes all.old.items ++ word.now ∷ []) }
{
    let text = text_of(alloc, word)?;
    all.push(text)?;
    Ok(())
}

fn with_word(alloc: Global, mut all: Vec<String>, word: &str) -> Result<Vec<String>, AllocError>
    ensures { IfOk result
        (λ after. map string_bytes after.items ≡ map string_bytes all.items ++ word.now ∷ []) }
{
    put_word(alloc, word, &mut all)?;
    Ok(all)
}

// Where the word behind this one stands, which is no option that takes a value.
fn next_of<'a>(word: &str) -> Place<'a>
    ensures { result ≡ place_behind word.now }
{
    if word == "--" {
        Place::Operands
    } else {
        Place::Free
    }
}

// Whether the word is an option that takes a value, of whatever command.
#[tactic(auto, unfolding(crate::specs::Joined::takes_value))]
fn takes_value(word: &str) -> bool
    ensures { result ≡ takes_value word.now }
{
    is_needed(word)
        || is_optional(word)
        || is_of_request(word)
        || is_of_answer(word)
        || is_own(word)
        || is_of_survey(word)
}

fn is_needed(word: &str) -> bool
    ensures { result ≡ is_among needed_options word.now }
{
    match word {
        "--arch" => true,
        "--status" => true,
        "--sources" => true,
        _ => false,
    }
}

fn is_optional(word: &str) -> bool
    ensures { result ≡ is_among optional_options word.now }
{
    match word {
        "--preferences" => true,
        "--target" => true,
        _ => false,
    }
}

fn is_of_request(word: &str) -> bool
    ensures { result ≡ is_among request_options word.now }
{
    match word {
        "--request" => true,
        "--goal" => true,
        _ => false,
    }
}

fn is_of_answer(word: &str) -> bool
    ensures { result ≡ is_among answer_options word.now }
{
    match word {
        "--request-out" => true,
        "--format" => true,
        "--refutation-format" => true,
        _ => false,
    }
}

fn is_own(word: &str) -> bool
    ensures { result ≡ is_among own_options word.now }
{
    match word {
        "--limit" => true,
        "--journal" => true,
        "--output" => true,
        _ => false,
    }
}

fn is_of_survey(word: &str) -> bool
    ensures { result ≡ is_among survey_options word.now }
{
    match word {
        "--shard" => true,
        "--refutations" => true,
        _ => false,
    }
}

fn text_of(alloc: Global, word: &str) -> Result<String, AllocError>
    ensures { IfOk result (λ text. string_bytes text ≡ word.now) }
{
    let mut text = String::new(alloc);
    text.push_str(word)?;
    Ok(text)
}

// `OPTION=VALUE`.
fn joined_text(alloc: Global, option: &str, value: &str) -> Result<String, AllocError>
    ensures { IfOk result (λ text. string_bytes text ≡ with_value option.now value.now) }
{
    let mut text = text_of(alloc, option)?;
    text.push_str("=")?;
    text.push_str(value)?;
    Ok(text)
}
