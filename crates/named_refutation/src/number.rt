// The number that a word writes.

ghost use Rattle.std.specs.Prelude.{◌≡◌, ◌<◌, ◌≤◌, MatchOption};
ghost use Rattle.std.specs.Char.{is_ascii_digit};
ghost use Rattle.std.specs.List.{AllPass, list_all};
ghost use Rattle.std.specs.Str.Parse.{digits_value};
ghost use Rattle.plantext.specs.Cut.{parts_left};
ghost use Rattle.plantext.specs.declared.cut.TheConstants.{SPACE};
ghost use Rattle.refutation_text.specs.Number.{begins_well, is_numeral, number_in};
ghost use Rattle.refutation_text.specs.PremiseWords.{only_number};
ghost use Rattle.refutation_text.specs.declared.limits.TheConstants.{NUMBER};

use plantext::only_word;
use refutation_text::NUMBER;

fn begins_well(word: &[u8]) -> bool
    ensures { result ≡ begins_well word.now }
{
    match word {
        [] => false,
        [first, ..] => *first != b'0',
    }
}

fn all_digits(word: &[u8]) -> bool
    ensures { result ≡ list_all is_ascii_digit word.now }
{
    word.iter().all(|byte| byte.is_ascii_digit())
}

fn is_numeral(word: &[u8]) -> bool
    ensures { result ≡ is_numeral word.now }
{
    begins_well(word) && all_digits(word)
}

// The value of digits, or none where it is above the greatest number.
fn bounded_value(digits: &[u8]) -> Option<u32>
    requires { AllPass is_ascii_digit digits.now }
    ensures { MatchOption result (NUMBER < digits_value 10 digits.now)
        (λ value. (value ≡ digits_value 10 digits.now) × (value ≤ NUMBER)) }
{
    let mut value: u64 = 0;
    for digit in digits {
        value = value * 10 + u64::from(*digit - b'0');
        if value > u64::from(NUMBER) {
            return None;
        }
    }
    Some(value as u32)
}

/// The number of a goal, of a clause of a field or of a line that the word writes, if it is one. Linear in the word.
pub(crate) fn number_in(word: &[u8]) -> Option<u32>
    ensures { result ≡ number_in NUMBER word.now }
{
    if is_numeral(word) {
        bounded_value(word)
    } else {
        None
    }
}

/// The number that is all that is left.
pub(crate) fn only_number(words: Option<&[u8]>) -> Option<u32>
    ensures { result ≡ only_number NUMBER (parts_left SPACE words.entry) }
{
    match only_word(words) {
        None => None,
        Some(word) => number_in(word),
    }
}
