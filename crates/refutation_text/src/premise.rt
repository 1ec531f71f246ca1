// The premise in the words of a line: its kind, and then numbers or a name.

ghost use Rattle.std.specs.Prelude.{◌≡◌, IfOk};
ghost use Rattle.std.specs.Str.{bytes_eq};
ghost use Rattle.plantext.specs.Cut.{parts_left};
ghost use Rattle.refutation_text.specs.PremiseWords.{goal_of, numbered_by, only_number, premise_by, two_numbers};
ghost use Rattle.plantext.specs.declared.cut.TheConstants.{SPACE};

use crate::limits::{NUMBER, PAIR};
use crate::number::number_in;
use plantext::{SPACE, cut_part, only_name, only_word};
use refutation::Premise;
use std::alloc::{AllocError, Global};

// The number that is all that is left.
fn only_number(most: u32, words: Option<&[u8]>) -> Option<u32>
    ensures { result ≡ only_number most (parts_left SPACE words.entry) }
{
    match only_word(words) {
        None => None,
        Some(word) => number_in(most, word),
    }
}

// The two numbers that are all that is left.
fn two_numbers(most: u32, most_other: u32, words: Option<&[u8]>) -> Option<(u32, u32)>
    ensures { result ≡ two_numbers most most_other (parts_left SPACE words.entry) }
{
    let Some(rest) = words else {
        return None;
    };
    let (word, after) = cut_part(SPACE, rest);
    let Some(number) = number_in(most, word) else {
        return None;
    };
    match only_number(most_other, after) {
        None => None,
        Some(other) => Some((number, other)),
    }
}

// The premise of a goal, alone or with a pair.
fn goal_of(words: Option<&[u8]>) -> Option<Premise>
    ensures { result ≡ goal_of (parts_left SPACE words.entry) }
{
    match only_number(NUMBER, words) {
        None => two_numbers(NUMBER, PAIR, words).map(|two| Premise::GoalOn(two.0, two.1)),
        Some(goal) => Some(Premise::Goal(goal)),
    }
}

fn same_text(text: &[u8], other: &[u8]) -> bool
    ensures { result ≡ bytes_eq text.now other.now }
{
    text == other
}

// The premise of this kind that numbers tell.
fn numbered_by(kind: &[u8], words: Option<&[u8]>) -> Option<Premise>
    ensures { result ≡ numbered_by kind.now (parts_left SPACE words.entry) }
{
    if same_text(kind, b"same") {
        two_numbers(PAIR, PAIR, words).map(|two| Premise::Same(two.0, two.1))
    } else if same_text(kind, b"predepends") {
        two_numbers(PAIR, NUMBER, words).map(|two| Premise::PreDepends(two.0, two.1))
    } else if same_text(kind, b"depends") {
        two_numbers(PAIR, NUMBER, words).map(|two| Premise::Depends(two.0, two.1))
    } else if same_text(kind, b"conflicts") {
        two_numbers(PAIR, PAIR, words).map(|two| Premise::Conflicts(two.0, two.1))
    } else if same_text(kind, b"breaks") {
        two_numbers(PAIR, PAIR, words).map(|two| Premise::Breaks(two.0, two.1))
    } else if same_text(kind, b"goal") {
        goal_of(words)
    } else if same_text(kind, b"hold") {
        only_number(PAIR, words).map(|pair| Premise::Hold(pair))
    } else {
        None
    }
}

/// The premise of this kind about the words that are left, if there is one.
pub fn premise_by(
    alloc: Global,
    kind: &[u8],
    words: Option<&[u8]>,
) -> Result<Option<Premise>, AllocError>
    ensures { IfOk result
        (λ premise. premise ≡ premise_by kind.now (parts_left SPACE words.entry)) }
{
    if same_text(kind, b"essential") {
        Ok(only_name(alloc, words)?.map(|name| Premise::Essential(name)))
    } else if same_text(kind, b"keep") {
        Ok(only_name(alloc, words)?.map(|name| Premise::Keep(name)))
    } else {
        Ok(numbered_by(kind, words))
    }
}
