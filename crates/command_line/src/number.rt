// The numbers that words of the command line write: the limit of a search, and a shard.
ghost use Rattle.std.specs.Prelude.{◌≡◌, ◌∷◌, Some, option_map, true};
ghost use Rattle.std.specs.Char.{is_ascii_digit};
ghost use Rattle.std.specs.List.{list_all};
ghost use Rattle.command_line.specs.Number.{is_number, limit_of, number_of, shard_by, shard_named, shard_of};

use crate::call::ShardNumber;

/// After how many conflicts a search gives up where nothing else is said.
const DEFAULT_LIMIT: u32 = 100_000;

/// Which of the packages are asked about where nothing is said of it: all.
const WHOLE_SHARD: ShardNumber = ShardNumber { number: 1, of: 1 };

/// The limit that this value writes, or that there is without one.
pub(crate) fn limit_of(word: Option<&str>) -> Option<u32>
    ensures { result ≡ limit_of (option_map (λ word. word.now) word.entry) }
{
    match word {
        None => Some(DEFAULT_LIMIT),
        Some(word) => number_of(word),
    }
}

/// The shard that this value writes, or all without one.
pub(crate) fn shard_of(word: Option<&str>) -> Option<ShardNumber>
    ensures { result ≡ shard_of (option_map (λ word. word.now) word.entry) }
{
    match word {
        None => Some(WHOLE_SHARD),
        Some(word) => shard_named(word),
    }
}

// The shard K/N that the word writes.
fn shard_named(word: &str) -> Option<ShardNumber>
    ensures { result ≡ shard_named word.now }
{
    match word.split_once('/') {
        Some((number, count)) => shard_by(number_of(number), number_of(count)),
        None => None,
    }
}

// The shard of these numbers, of which the first is to be from 1 to the second.
fn shard_by(number: Option<u32>, count: Option<u32>) -> Option<ShardNumber>
    ensures { result ≡ shard_by number count }
{
    match (number, count) {
        (Some(number), Some(count)) => shard(number, count),
        _ => None,
    }
}

fn shard(number: u32, of: u32) -> Option<ShardNumber>
    ensures { result ≡ shard_by (Some number) (Some of) }
{
    if 1 <= number && number <= of {
        return Some(ShardNumber { number, of });
    }
    None
}

// The number of 32 bits that the word writes.
fn number_of(word: &str) -> Option<u32>
    ensures { result ≡ number_of word.now }
{
    if is_number(word.as_bytes()) {
        parse_number(word)
    } else {
        None
    }
}

// The number that this numeral writes, if it fits.
fn parse_number(word: &str) -> Option<u32>
    requires { is_number word.now ≡ true }
    ensures { result ≡ number_of word.now }
{
    word.parse::<u32>().ok()
}

// Whether these are the digits of a number, as in each text: without a sign, and with no zero before others.
fn is_number(word: &[u8]) -> bool
    ensures { result ≡ is_number word.now }
{
    match word.split_first() {
        None => false,
        Some((digit, rest)) => are_number(*digit, rest),
    }
}

fn are_number(digit: u8, rest: &[u8]) -> bool
    ensures { result ≡ is_number (digit ∷ rest.now) }
{
    if digit == b'0' {
        return rest.is_empty();
    }
    if digit.is_ascii_digit() {
        return are_digits(rest);
    }
    false
}

fn are_digits(word: &[u8]) -> bool
    ensures { result ≡ list_all is_ascii_digit word.now }
{
    word.iter().all(|byte| byte.is_ascii_digit())
}
