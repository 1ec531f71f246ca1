// Reading and writing a list at places that needn't be there, and numbers that needn't be there either. What finds
// answers goes by these, so that none of its places needs a proof.

ghost use Rattle.std.specs.Prelude.{◌≡◌, slice_index_or};

/// The value at a place, counted from 0, or another one where the list is shorter.
pub fn at<T: Copy + Drop>(list: &Vec<T>, place: usize, otherwise: T) -> T
    ensures { result ≡ slice_index_or list.now.items place otherwise }
{
    match list.get(place) {
        Some(value) => *value,
        None => otherwise,
    }
}

/// Writes the value at a place, counted from 0, if the list has it.
pub fn put<T: Drop>(list: &mut Vec<T>, place: usize, value: T) {
    if place < list.len() {
        list[place] = value;
    }
}

/// A number from 1 on as a list keeps it, where 0 is none.
pub(crate) fn number_or_zero(number: Option<usize>) -> usize {
    number.unwrap_or(0)
}

/// The number that a list keeps so.
pub(crate) fn nonzero_of(stored: usize) -> Option<usize> {
    match stored {
        0 => None,
        _ => Some(stored),
    }
}
