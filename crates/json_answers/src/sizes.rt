// The size of an archive, as a stanza writes it.
ghost use Rattle.std.specs.Prelude.{◌≡◌, ◌≤◌, ◌<◌, ◌^◌, MatchOption};
ghost use Rattle.std.specs.Char.{is_ascii_digit};
ghost use Rattle.std.specs.List.{AllPass, list_all};
ghost use Rattle.std.specs.Str.Parse.{digits_value};
ghost use Rattle.json_answers.specs.Archives.{number_in};
ghost use Rattle.rules.specs.VersionFault.{is_numeral};

fn all_digits(bytes: &[u8]) -> bool
    ensures { result ≡ list_all is_ascii_digit bytes.now }
{
    bytes.iter().all(|byte| byte.is_ascii_digit())
}

fn is_numeral(bytes: &[u8]) -> bool
    ensures { result ≡ is_numeral bytes.now }
{
    !bytes.is_empty() && all_digits(bytes)
}

// The value of digits, or none where it has more than 64 bits.
fn bounded_value(digits: &[u8]) -> Option<u64>
    requires { AllPass is_ascii_digit digits.now }
    ensures { MatchOption result (2 ^ 64 ≤ digits_value 10 digits.now)
        (λ value. (value ≡ digits_value 10 digits.now) × (value < 2 ^ 64)) }
{
    let mut value: u128 = 0;
    for digit in digits {
        value = value * 10 + u128::from(*digit - b'0');
        if value > u128::from(u64::MAX) {
            return None;
        }
    }
    Some(value as u64)
}

/// The number that digits write, where they are digits alone and it has no more than 64 bits. Linear in them.
pub(crate) fn number_in(digits: &[u8]) -> Option<u64>
    ensures { result ≡ number_in digits.now }
{
    if is_numeral(digits) {
        bounded_value(digits)
    } else {
        None
    }
}
