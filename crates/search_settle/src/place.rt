// Literals: `n` says that the number n is selected, `-n` that it isn't. Each has a list of its own.

ghost use Rattle.std.specs.Prelude.{◌≡◌, ◌≤◌, ◌+◌, ◌*◌, ◌^◌, pos, unsigned_abs};
ghost use Rattle.search_settle.specs.Occurrences.{place_of};

/// The number that a literal speaks of: n of `n` and of `-n`.
pub(crate) fn number_of(literal: i32) -> usize
    ensures value { result ≡ unsigned_abs literal }
    ensures bound { result ≤ 2 ^ 31 }
{
    literal.unsigned_abs() as usize
}

/// The place of a literal's list.
pub(crate) fn place_of(literal: i32) -> usize
    ensures { result ≡ place_of literal }
{
    if literal < 0 {
        2 * number_of(literal) + 1
    } else {
        2 * number_of(literal)
    }
}

/// The place of the list of the literal that says that a number is selected.
pub(crate) fn selected_place(number: u32) -> usize
    ensures { result ≡ place_of (pos number) }
{
    2 * (number as usize)
}

/// The place of the list of the literal that says that a number isn't selected.
pub(crate) fn unselected_place(number: u32) -> usize
    ensures { result ≡ 2 * number + 1 }
{
    2 * (number as usize) + 1
}
