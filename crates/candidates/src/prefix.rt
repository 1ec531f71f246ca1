// The first bytes of names: they decide most comparisons of names without a look at the texts that these are in.

ghost use Rattle.std.specs.Prelude.{◌≡◌};
ghost use Rattle.rules.specs.Name.{name_cmp};
ghost use Rattle.candidates.specs.Prefix.{padded};

use rules::name_cmp;
use std::cmp::Ordering;

/// The first sixteen bytes of the name, with zeros behind a shorter one.
pub fn prefix_of(name: &[u8]) -> [u8; 16]
    ensures { result ≡ padded 16 name.now }
{
    let mut prefix = [0; 16];
    for place in 0..name.len().min(16) {
        prefix[place] = name[place];
    }
    prefix
}

/// The order of two names whose prefixes these are.
pub fn order_of(prefix: &[u8; 16], name: &[u8], other_prefix: &[u8; 16], other: &[u8]) -> Ordering
    requires name { prefix.now ≡ padded 16 name.now }
    requires other { other_prefix.now ≡ padded 16 other.now }
    ensures { result ≡ name_cmp name.now other.now }
{
    match name_cmp(prefix.as_slice(), other_prefix.as_slice()) {
        Ordering::Equal => name_cmp(name, other),
        decided => decided,
    }
}
