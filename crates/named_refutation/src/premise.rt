// The premise in the words of a line: its kind, and then pairs and numbers, or a name.

ghost use Rattle.std.specs.Prelude.{◌≡◌, IfOk};
ghost use Rattle.std.specs.Str.{bytes_eq};
ghost use Rattle.plantext.specs.Cut.{parts_left};
ghost use Rattle.plantext.specs.declared.cut.TheConstants.{SPACE};
ghost use Rattle.named_refutation.specs.PremiseWords.{goal_of, paired_by, premise_by};

use crate::named::NamedPremise;
use crate::number::only_number;
use crate::pair::{number_and_pair, only_pair, pair_and_number, two_pairs};
use plantext::only_name;
use std::alloc::{AllocError, Global};

// The premise of a goal, alone or with a pair.
fn goal_of(alloc: Global, words: Option<&[u8]>) -> Result<Option<NamedPremise>, AllocError>
    ensures { IfOk result (λ premise. premise ≡ goal_of (parts_left SPACE words.entry)) }
{
    match only_number(words) {
        None => {
            Ok(number_and_pair(alloc, words)?.map(|both| NamedPremise::GoalOn(both.0, both.1)))
        }
        Some(goal) => Ok(Some(NamedPremise::Goal(goal))),
    }
}

fn same_text(text: &[u8], other: &[u8]) -> bool
    ensures { result ≡ bytes_eq text.now other.now }
{
    text == other
}

// The premise of this kind that pairs and numbers tell.
fn paired_by(
    alloc: Global,
    kind: &[u8],
    words: Option<&[u8]>,
) -> Result<Option<NamedPremise>, AllocError>
    ensures { IfOk result (λ premise. premise ≡ paired_by kind.now (parts_left SPACE words.entry)) }
{
    if same_text(kind, b"same") {
        Ok(two_pairs(alloc, words)?.map(|two| NamedPremise::Same(two.0, two.1)))
    } else if same_text(kind, b"predepends") {
        Ok(pair_and_number(alloc, words)?.map(|both| NamedPremise::PreDepends(both.0, both.1)))
    } else if same_text(kind, b"depends") {
        Ok(pair_and_number(alloc, words)?.map(|both| NamedPremise::Depends(both.0, both.1)))
    } else if same_text(kind, b"conflicts") {
        Ok(two_pairs(alloc, words)?.map(|two| NamedPremise::Conflicts(two.0, two.1)))
    } else if same_text(kind, b"breaks") {
        Ok(two_pairs(alloc, words)?.map(|two| NamedPremise::Breaks(two.0, two.1)))
    } else if same_text(kind, b"goal") {
        goal_of(alloc, words)
    } else if same_text(kind, b"hold") {
        Ok(only_pair(alloc, words)?.map(|pair| NamedPremise::Hold(pair)))
    } else {
        Ok(None)
    }
}

/// The premise of this kind about the words that are left, if there is one.
pub(crate) fn premise_by(
    alloc: Global,
    kind: &[u8],
    words: Option<&[u8]>,
) -> Result<Option<NamedPremise>, AllocError>
    ensures { IfOk result
        (λ premise. premise ≡ premise_by kind.now (parts_left SPACE words.entry)) }
{
    if same_text(kind, b"essential") {
        Ok(only_name(alloc, words)?.map(|name| NamedPremise::Essential(name)))
    } else if same_text(kind, b"keep") {
        Ok(only_name(alloc, words)?.map(|name| NamedPremise::Keep(name)))
    } else {
        paired_by(alloc, kind, words)
    }
}
