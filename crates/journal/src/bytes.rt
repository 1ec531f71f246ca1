//! Cutting bytes behind a length that stands before them.
ghost use Rattle.std.specs.Prelude.{◌≡◌, ◌++◌, ◌<◌, ◌^◌, List, ℕ, length, MatchOption};
ghost use Rattle.std.specs.Int.{w16, w32, w64, to_be_bytes};

// The bytes up to this length, and what is behind them; none where there are fewer.
pub fn cut_at(bytes: &[u8], len: usize) -> Option<(&[u8], &[u8])>
    ensures { MatchOption result (length bytes.now < len)
        (λ cut. (bytes.now ≡ cut.0.now ++ cut.1.now) × (length cut.0.now ≡ len)) }
{
    if bytes.len() < len {
        None
    } else {
        Some(bytes.split_at(len))
    }
}

// The number of the first eight bytes, and what is behind them.
pub fn number_8(bytes: &[u8]) -> Option<(usize, &[u8])>
    ensures { MatchOption result (length bytes.now < 8)
        (λ cut. (bytes.now ≡ to_be_bytes w64 cut.0 ++ cut.1.now) × (cut.0 < 2 ^ 64)) }
{
    match bytes {
        [a, b, c, d, e, f, g, h, rest @ ..] => {
            let number = u64::from_be_bytes([*a, *b, *c, *d, *e, *f, *g, *h]);
            Some((number as usize, rest))
        }
        _ => None,
    }
}

// The number of the first four bytes, and what is behind them.
pub fn number_4(bytes: &[u8]) -> Option<(usize, &[u8])>
    ensures { MatchOption result (length bytes.now < 4)
        (λ cut. (bytes.now ≡ to_be_bytes w32 cut.0 ++ cut.1.now) × (cut.0 < 2 ^ 32)) }
{
    match bytes {
        [a, b, c, d, rest @ ..] => Some((u32::from_be_bytes([*a, *b, *c, *d]) as usize, rest)),
        _ => None,
    }
}

// The number of the first two bytes, and what is behind them.
pub fn number_2(bytes: &[u8]) -> Option<(usize, &[u8])>
    ensures { MatchOption result (length bytes.now < 2)
        (λ cut. (bytes.now ≡ to_be_bytes w16 cut.0 ++ cut.1.now) × (cut.0 < 2 ^ 16)) }
{
    match bytes {
        [a, b, rest @ ..] => Some((u16::from_be_bytes([*a, *b]) as usize, rest)),
        _ => None,
    }
}
