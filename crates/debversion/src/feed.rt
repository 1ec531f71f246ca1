// What the parts of versions feed a hasher: the same for parts that compare equal.

ghost use Rattle.std.specs.Prelude.{◌≡◌};
ghost use Rattle.std.specs.List.{fold};
ghost use Rattle.rules.specs.VersionLaws.{after_piece, first_piece};
ghost use Rattle.debversion.specs.HashInput.{part_input, piece_input};

use crate::compare::{split_piece, without_zeros};
use std::hash::Hasher;

// Feeds the first piece of a part, and answers what follows it.
fn feed_piece<'a, H: Hasher>(part: &'a [u8], state: &mut H) -> &'a [u8]
    ensures fed { state.new ≡ fold H.write state.old (piece_input (first_piece part.now)) }
    ensures rest { result.now ≡ after_piece part.now }
{
    let (word, digits, rest) = split_piece(part);
    let number = without_zeros(digits);
    // A piece that says nothing is not told from one that isn't there.
    if !word.is_empty() || !number.is_empty() {
        state.write(word);
        state.write(number);
    }
    rest
}

/// Feeds a part piece by piece.
pub fn feed_part<H: Hasher>(part: &[u8], state: &mut H)
    ensures { state.new ≡ fold H.write state.old (part_input part.now) }
{
    let mut rest = part;
    while !rest.is_empty() {
        rest = feed_piece(rest, state);
    }
}
