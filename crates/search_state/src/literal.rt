// Literals: `n` says that the number n is selected, `-n` that it isn't.

ghost use Rattle.std.specs.Prelude.{◌≡◌, ◌≤◌, ◌^◌, unsigned_abs};

/// The number that a literal speaks of: n of `n` and of `-n`.
pub fn number_of(literal: i32) -> usize
    ensures value { result ≡ unsigned_abs literal }
    ensures bound { result ≤ 2 ^ 31 }
{
    literal.unsigned_abs() as usize
}

/// The literal that is true where this one is false: `-n` of `n`. The one below all others stands for itself.
pub fn negation(literal: i32) -> i32 {
    literal.wrapping_neg()
}

/// The literal that says that the number is selected; none of a number above 2,147,483,647.
pub fn selects(number: usize) -> Option<i32> {
    i32::try_from(number).ok()
}

/// A place of its own for each literal of the numbers.
pub(crate) fn place_of(literal: i32) -> usize {
    if literal < 0 {
        2 * number_of(literal) + 1
    } else {
        2 * number_of(literal)
    }
}
