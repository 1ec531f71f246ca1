//! The first bytes of names as numbers: they decide most comparisons of names without a look at the texts that these are in.
ghost use Rattle.std.specs.Prelude.{◌≡◌};
ghost use Rattle.rules.specs.Name.{name_cmp};
ghost use Rattle.providers.specs.Prefix.{IsPrefix};

use rules::name_cmp;
use std::cmp::Ordering;

/// The first eight bytes of the name as a number: the first byte is its highest digit, and zeros follow a shorter name.
pub(crate) fn prefix_of(name: &[u8]) -> u64
    ensures { IsPrefix result name.now }
{
    let mut prefix: u64 = 0;
    for place in 0..8 {
        let byte = name.get(place).copied().unwrap_or(0);
        prefix = prefix * 256 + byte as u64;
    }
    prefix
}

/// The order of two names of which these are the first eight bytes.
pub(crate) fn order_of(prefix: u64, name: &[u8], other_prefix: u64, other: &[u8]) -> Ordering
    requires name { IsPrefix prefix name.now }
    requires other { IsPrefix other_prefix other.now }
    ensures { result ≡ name_cmp name.now other.now }
{
    match prefix.cmp(&other_prefix) {
        Ordering::Equal => name_cmp(name, other),
        decided => decided,
    }
}
