// The number and the literal that a word writes.

ghost use Rattle.std.specs.Prelude.{◌≡◌, ◌<◌, ◌≤◌, MatchOption};
ghost use Rattle.std.specs.Char.{is_ascii_digit};
ghost use Rattle.std.specs.List.{AllPass, list_all};
ghost use Rattle.std.specs.Str.Parse.{digits_value};
ghost use Rattle.refutation_text.specs.Number as Spec;
ghost use Rattle.refutation_text.specs.Number.{begins_well, literal_in, number_in};

use crate::limits::PAIR;
use refutation::Literal;

fn begins_well(word: &[u8]) -> bool
    ensures { result ≡ begins_well word.now }
{
    match word {
        [] => false,
        [first, ..] => *first != b'0',
    }
}

fn all_digits(word: &[u8]) -> bool
    ensures { result ≡ list_all is_ascii_digit word.now }
{
    word.iter().all(|byte| byte.is_ascii_digit())
}

fn is_numeral(word: &[u8]) -> bool
    ensures { result ≡ Spec.is_numeral word.now }
{
    begins_well(word) && all_digits(word)
}

// The value of digits, or none where it is above the bound.
fn bounded_value(most: u32, digits: &[u8]) -> Option<u32>
    requires { AllPass is_ascii_digit digits.now }
    ensures { MatchOption result (most < digits_value 10 digits.now)
        (λ value. (value ≡ digits_value 10 digits.now) × (value ≤ most)) }
{
    let mut value: u64 = 0;
    for digit in digits {
        value = value * 10 + u64::from(*digit - b'0');
        if value > u64::from(most) {
            return None;
        }
    }
    Some(value as u32)
}

/// The number that the word writes, if it is one up to this bound. Linear in the word.
pub fn number_in(most: u32, word: &[u8]) -> Option<u32>
    ensures { result ≡ number_in most word.now }
{
    if is_numeral(word) {
        bounded_value(most, word)
    } else {
        None
    }
}

/// The literal that the word writes, if it does. Linear in the word.
pub fn literal_in(word: &[u8]) -> Option<Literal>
    ensures { result ≡ literal_in word.now }
{
    match word {
        [] => None,
        [b'-', digits @ ..] => number_in(PAIR, digits).map(|pair| Literal::Unselected(pair)),
        _ => number_in(PAIR, word).map(|pair| Literal::Selected(pair)),
    }
}
