// Reading a version: the epoch before the first colon, then the upstream version and the revision.
// Each function answers the first fault of the part that it reads.

ghost use Rattle.std.specs.Prelude.{◌≡◌, ◌<◌, ◌≤◌, Some, None, true, false, length, MatchResult, MatchOption};
ghost use Rattle.std.specs.Char.{is_ascii_digit};
ghost use Rattle.std.specs.List.{AllPass, list_all, list_any, position};
ghost use Rattle.std.specs.Str.Parse.{digits_value};
ghost use Rattle.rules.specs.Version.{after_epoch, after_upstream, before_revision, epoch_of, is_colon, is_hyphen};
ghost use Rattle.rules.specs.VersionFault.{epoch_fault, greatest_epoch, is_numeral, is_revision_byte, is_upstream_byte, rest_fault, text_epoch_fault};
ghost use Rattle.debversion.specs.Parts.{IsLastAt};

use rules::BadVersion;

// The greatest epoch that is read, which dpkg reads too.
const GREATEST_EPOCH: u64 = 2147483647;

fn is_revision_byte(byte: u8) -> bool
    ensures { result ≡ is_revision_byte byte }
{
    byte.is_ascii_alphanumeric() || matches!(byte, b'+' | b'.' | b'~')
}

fn is_upstream_byte(byte: u8) -> bool
    ensures { result ≡ is_upstream_byte byte }
{
    is_revision_byte(byte) || matches!(byte, b'-' | b':')
}

fn all_upstream(bytes: &[u8]) -> bool
    ensures { result ≡ list_all is_upstream_byte bytes.now }
{
    bytes.iter().all(|byte| is_upstream_byte(*byte))
}

fn all_revision(bytes: &[u8]) -> bool
    ensures { result ≡ list_all is_revision_byte bytes.now }
{
    bytes.iter().all(|byte| is_revision_byte(*byte))
}

fn all_digits(bytes: &[u8]) -> bool
    ensures { result ≡ list_all is_ascii_digit bytes.now }
{
    bytes.iter().all(|byte| byte.is_ascii_digit())
}

fn is_numeral(bytes: &[u8]) -> bool
    ensures { result ≡ is_numeral bytes.now }
{
    !bytes.is_empty() && all_digits(bytes)
}

fn first_colon(text: &[u8]) -> Option<usize>
    ensures { result ≡ position is_colon text.now }
{
    text.iter().position(|byte| *byte == b':')
}

fn last_hyphen(text: &[u8]) -> Option<usize>
    ensures { MatchOption result (list_any is_hyphen text.now ≡ false)
        (λ i. IsLastAt is_hyphen text.now i) }
{
    let mut end = text.len();
    while end > 0 {
        if text[end - 1] == b'-' {
            return Some(end - 1);
        }
        end -= 1;
    }
    None
}

// The value of a numeral, or none where it is above the greatest epoch.
fn bounded_value(digits: &[u8]) -> Option<u32>
    requires { AllPass is_ascii_digit digits.now }
    ensures { MatchOption result (greatest_epoch < digits_value 10 digits.now)
        (λ value. (value ≡ digits_value 10 digits.now) × (value ≤ greatest_epoch)) }
{
    let mut value: u64 = 0;
    for digit in digits {
        value = value * 10 + u64::from(*digit - b'0');
        if value > GREATEST_EPOCH {
            return None;
        }
    }
    Some(value as u32)
}

fn epoch_value(epoch: &[u8]) -> Result<u32, BadVersion>
    ensures { MatchResult result
        (λ value. (epoch_fault epoch.now ≡ None) × (value ≡ digits_value 10 epoch.now))
        (λ e. epoch_fault epoch.now ≡ Some e) }
{
    if !is_numeral(epoch) {
        return Err(BadVersion::BadEpoch);
    }
    bounded_value(epoch).ok_or(BadVersion::EpochTooLarge)
}

// What precedes the first colon and what follows it, if there is one.
fn split_at_colon(text: &[u8]) -> Option<(&[u8], &[u8])>
    ensures { MatchOption result (list_any is_colon text.now ≡ false)
        (λ parts. (list_any is_colon text.now ≡ true)
        × (parts.0.now ≡ epoch_of text.now) × (parts.1.now ≡ after_epoch text.now)) }
{
    let colon = first_colon(text)?;
    let (epoch, _) = text.split_at(colon);
    let (_, rest) = text.split_at(colon + 1);
    Some((epoch, rest))
}

// The value of the epoch, and what follows it and its colon.
pub fn split_epoch(text: &[u8]) -> Result<(u32, &[u8]), BadVersion>
    ensures { MatchResult result
        (λ parts. (text_epoch_fault text.now ≡ None)
        × (parts.0 ≡ digits_value 10 (epoch_of text.now)) × (parts.1.now ≡ after_epoch text.now))
        (λ e. text_epoch_fault text.now ≡ Some e) }
{
    match split_at_colon(text) {
        None => Ok((0, text)),
        Some((epoch, rest)) => Ok((epoch_value(epoch)?, rest)),
    }
}

// What precedes the last hyphen, and what follows it, if there is one.
fn split_at_hyphen(rest: &[u8]) -> (&[u8], Option<&[u8]>)
    ensures upstream { result.0.now ≡ before_revision rest.now }
    ensures revision { MatchOption result.1 (list_any is_hyphen rest.now ≡ false)
        (λ revision. (list_any is_hyphen rest.now ≡ true)
        × (revision.now ≡ after_upstream rest.now)) }
{
    match last_hyphen(rest) {
        None => (rest, None),
        Some(hyphen) => {
            let (upstream, _) = rest.split_at(hyphen);
            let (_, revision) = rest.split_at(hyphen + 1);
            (upstream, Some(revision))
        }
    }
}

// The upstream version and the revision of what follows the epoch.
pub fn split_revision(rest: &[u8]) -> Result<(&[u8], &[u8]), BadVersion>
    ensures { MatchResult result
        (λ parts. (rest_fault rest.now ≡ None)
        × (parts.0.now ≡ before_revision rest.now) × (parts.1.now ≡ after_upstream rest.now))
        (λ e. rest_fault rest.now ≡ Some e) }
{
    let (upstream, after) = split_at_hyphen(rest);
    if upstream.is_empty() {
        return Err(BadVersion::EmptyUpstream);
    }
    let revision = match after {
        None => &rest[rest.len()..],
        Some([]) => return Err(BadVersion::EmptyRevision),
        Some(revision) => revision,
    };
    if all_upstream(upstream) && all_revision(revision) {
        Ok((upstream, revision))
    } else {
        Err(BadVersion::BadByte)
    }
}
