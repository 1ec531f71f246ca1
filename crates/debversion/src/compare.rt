// The order of the parts of versions (Policy 5.6.12, deb-version(7)), in one pass over both.
// What two parts share in front is skipped, back to where a number begins; what follows is compared piece by piece,
// each the longest front without digits and the longest front of digits after it.

ghost use Rattle.std.specs.Prelude.{◌≡◌, ◌↔◌, ◌<◌, ◌≤◌, ◌+◌, ◌-◌, IsTrue, false, not, length, drop, take, slice_index};
ghost use Rattle.std.specs.Char.{is_ascii_digit};
ghost use Rattle.std.specs.List.{AllPass, prefix_len};
ghost use Rattle.std.specs.Ordering.{ordering_then};
ghost use Rattle.rules.specs.Version.{number_cmp, part_cmp, piece_cmp, weight_of, word_cmp};
ghost use Rattle.rules.specs.VersionLaws.{after_piece, after_word, first_piece, front_digits, front_word};
ghost use Rattle.debversion.specs.Weight.{weight_at};
ghost use Rattle.debversion.specs.Zeros.{without_zeros};

use std::cmp::Ordering;

// What the end of a word weighs: more than a tilde, and less than every other byte.
const END_WEIGHT: u16 = 1;

// How many bytes two parts share in front.
fn shared_len(a: &[u8], b: &[u8]) -> usize
    ensures left { result ≤ length a.now }
    ensures right { result ≤ length b.now }
    ensures same { take result a.now ≡ take result b.now }
{
    let end = a.len().min(b.len());
    for i in 0..end {
        if a[i] != b[i] {
            return i;
        }
    }
    end
}

// The place at or before `end` behind which only digits stand, as far as `end`.
fn number_start(part: &[u8], end: usize) -> usize
    requires { end ≤ length part.now }
    ensures within { result ≤ end }
    ensures behind_other { 0 < result → is_ascii_digit (slice_index part.now (result - 1)) ≡ false }
{
    let mut start = end;
    while start > 0 {
        if !part[start - 1].is_ascii_digit() {
            return start;
        }
        start -= 1;
    }
    0
}

// How many bytes in front decide nothing: those that both share, but for the number that they may end in.
fn skipped_len(a: &[u8], b: &[u8]) -> usize
    ensures left { result ≤ length a.now }
    ensures right { result ≤ length b.now }
    ensures undecided { part_cmp a.now b.now ≡ part_cmp (drop result a.now) (drop result b.now) }
{
    number_start(a, shared_len(a, b))
}

// How many bytes stand before the first digit.
fn word_len(part: &[u8]) -> usize
    ensures value { result ≡ prefix_len (λ b. not (is_ascii_digit b)) part.now }
    ensures within { result ≤ length part.now }
{
    for end in 0..part.len() {
        if part[end].is_ascii_digit() {
            return end;
        }
    }
    part.len()
}

// How many digits stand in front.
fn digits_len(part: &[u8]) -> usize
    ensures value { result ≡ prefix_len is_ascii_digit part.now }
    ensures within { result ≤ length part.now }
{
    for end in 0..part.len() {
        if !part[end].is_ascii_digit() {
            return end;
        }
    }
    part.len()
}

// The first piece of a part, its word and its digits, and what follows it.
pub fn split_piece(part: &[u8]) -> (&[u8], &[u8], &[u8])
    ensures word { result.0.now ≡ front_word part.now }
    ensures digits { result.1.now ≡ front_digits (after_word part.now) }
    ensures digits_alone { AllPass is_ascii_digit result.1.now }
    ensures rest { result.2.now ≡ after_piece part.now }
{
    let (word, after_word) = part.split_at(word_len(part));
    let (digits, rest) = after_word.split_at(digits_len(after_word));
    (word, digits, rest)
}

fn weight_of(byte: u8) -> u16
    ensures { result ≡ weight_of byte }
{
    if byte == b'~' {
        0
    } else if byte.is_ascii_alphabetic() {
        2 + u16::from(byte)
    } else {
        258 + u16::from(byte)
    }
}

// The weight at a place of a word, which has one of its own at the end.
fn weight_at(word: &[u8], place: usize) -> u16
    ensures { result ≡ weight_at word.now place }
{
    if place < word.len() {
        weight_of(word[place])
    } else {
        END_WEIGHT
    }
}

fn word_cmp(a: &[u8], b: &[u8]) -> Ordering
    ensures { result ≡ word_cmp a.now b.now }
{
    let shorter = a.len().min(b.len());
    for place in 0..shorter {
        let ordering = weight_at(a, place).cmp(&weight_at(b, place));
        if ordering != Ordering::Equal {
            return ordering;
        }
    }
    weight_at(a, shorter).cmp(&weight_at(b, shorter))
}

// The digits from the first that is not 0.
pub fn without_zeros(digits: &[u8]) -> &[u8]
    ensures { result.now ≡ without_zeros digits.now }
{
    for start in 0..digits.len() {
        if digits[start] != b'0' {
            return digits.split_at(start).1;
        }
    }
    digits.split_at(digits.len()).1
}

// Without zeros in front the longer number is the greater, and of two as long the first digit that differs decides.
fn number_cmp(a: &[u8], b: &[u8]) -> Ordering
    requires left { AllPass is_ascii_digit a.now }
    requires right { AllPass is_ascii_digit b.now }
    ensures { result ≡ number_cmp a.now b.now }
{
    let (left, right) = (without_zeros(a), without_zeros(b));
    left.len().cmp(&right.len()).then(left.cmp(right))
}

// The order of the first pieces of two parts, and what follows each.
fn first_cmp<'a>(a: &'a [u8], b: &'a [u8]) -> (Ordering, &'a [u8], &'a [u8])
    ensures ordering { result.0 ≡ piece_cmp (first_piece a.now) (first_piece b.now) }
    ensures left { result.1.now ≡ after_piece a.now }
    ensures right { result.2.now ≡ after_piece b.now }
{
    let (left_word, left_digits, left) = split_piece(a);
    let (right_word, right_digits, right) = split_piece(b);
    let ordering = match word_cmp(left_word, right_word) {
        Ordering::Equal => number_cmp(left_digits, right_digits),
        decided => decided,
    };
    (ordering, left, right)
}

// What the first pieces of two parts decide behind what both share, and what is left to compare.
fn next_cmp<'a>(a: &'a [u8], b: &'a [u8]) -> (Ordering, &'a [u8], &'a [u8])
    ensures decides { part_cmp a.now b.now
        ≡ ordering_then result.0 (part_cmp result.1.now result.2.now) }
    ensures shorter { 0 < length a.now + length b.now
        → length result.1.now + length result.2.now < length a.now + length b.now }
{
    let skipped = skipped_len(a, b);
    let (_, left) = a.split_at(skipped);
    let (_, right) = b.split_at(skipped);
    first_cmp(left, right)
}

fn is_left(a: &[u8], b: &[u8]) -> bool
    ensures { IsTrue result ↔ (0 < length a.now + length b.now) }
{
    !a.is_empty() || !b.is_empty()
}

/// The order of two parts, upstream versions or revisions. One pass over both, and no memory is taken.
pub fn part_cmp(a: &[u8], b: &[u8]) -> Ordering
    ensures { result ≡ part_cmp a.now b.now }
{
    let mut left = a;
    let mut right = b;
    while is_left(left, right) {
        let (ordering, after_left, after_right) = next_cmp(left, right);
        if ordering != Ordering::Equal {
            return ordering;
        }
        left = after_left;
        right = after_right;
    }
    Ordering::Equal
}
