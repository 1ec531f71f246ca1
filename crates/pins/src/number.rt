// The priority that a record gives.

ghost use Rattle.std.specs.Prelude.{◌≡◌, ◌<◌, ◌≤◌, MatchOption};
ghost use Rattle.std.specs.Char.{is_ascii_digit};
ghost use Rattle.std.specs.List.{AllPass, list_all};
ghost use Rattle.std.specs.Str.Parse.{digits_value};
ghost use Rattle.rules.specs.VersionFault.{is_numeral};
ghost use Rattle.pins.specs.Number.{downward, number_of, upward, value_up_to};

// The greatest priority.
const GREATEST: u32 = 32767;

// How far below 0 the least priority is.
const GREATEST_BELOW: u32 = 32768;

fn all_digits(bytes: &[u8]) -> bool
    ensures { result ≡ list_all is_ascii_digit bytes.now }
{
    bytes.iter().all(|byte| byte.is_ascii_digit())
}

fn is_numeral(bytes: &[u8]) -> bool
    ensures { result ≡ is_numeral bytes.now }
{
    !bytes.is_empty() && all_digits(bytes)
}

// The value of a numeral, or none where it is above the bound.
fn bounded_value(most: u32, digits: &[u8]) -> Option<u32>
    requires { AllPass is_ascii_digit digits.now }
    ensures { MatchOption result (most < digits_value 10 digits.now)
        (λ value. (value ≡ digits_value 10 digits.now) × (value ≤ most)) }
{
    let mut value: u64 = 0;
    for digit in digits {
        value = value * 10 + u64::from(*digit - b'0');
        if value > u64::from(most) {
            return None;
        }
    }
    Some(value as u32)
}

fn value_up_to(most: u32, digits: &[u8]) -> Option<u32>
    ensures { result ≡ value_up_to most digits.now }
{
    if is_numeral(digits) {
        bounded_value(most, digits)
    } else {
        None
    }
}

fn upward(digits: &[u8]) -> Option<i32>
    ensures { result ≡ upward digits.now }
{
    match value_up_to(GREATEST, digits) {
        None => None,
        Some(value) => Some(value as i32),
    }
}

fn downward(digits: &[u8]) -> Option<i32>
    ensures { result ≡ downward digits.now }
{
    match value_up_to(GREATEST_BELOW, digits) {
        None => None,
        Some(value) => Some(-(value as i32)),
    }
}

/// The priority that the value of a field Pin-Priority writes, if it does. Linear in the value.
pub fn number_of(value: &[u8]) -> Option<i32>
    ensures { result ≡ number_of value.now }
{
    match value {
        [] => None,
        [b'-', digits @ ..] => downward(digits),
        [b'+', digits @ ..] => upward(digits),
        _ => upward(value),
    }
}
