// The admitted pairs of a request.

ghost use Rattle.std.specs.Prelude.{◌≡◌, ◌<◌, IfSome, length};
ghost use Rattle.std.specs.List.{find, list_any};
ghost use Rattle.std.specs.List.Sorted.{IsStrictlySortedBy};
ghost use Rattle.std.specs.Option.{option_copied};
ghost use Rattle.rules.specs.Available.{is_of};
ghost use Rattle.rules.specs.Universe.{listed_among, pair_cmp};
ghost use Rattle.universe_parts.specs.Pair.{pkg_order};
ghost use Rattle.universe_parts.specs.Parts.{number_among, place_among};

use crate::pair::Pair;
use debversion::Version;
use index::IndexEntry;
use rules::name_cmp;
use std::cmp::Ordering;
use std::marker::Model;

/// The admitted pairs of a request, numbered from 1. They ascend by name and then by version, and none is there twice.
#[derive(Drop)]
pub struct Pairs<'p, 'a> {
    pairs: Vec<Pair<'p, 'a>>,
}

impl<'p, 'a> Model for Pairs<'p, 'a> {
    ghost use Rattle.std.specs.Prelude.{List};
    ghost use Rattle.std.specs.List.Sorted.{IsStrictlySortedBy};
    ghost use Rattle.rules.specs.Universe.{Pair as PairValue, pair_cmp};

    ghost Value = { List PairValue };

    ghost view = { λ p. p.pairs.items };

    ghost invariant = { λ p. IsStrictlySortedBy pair_cmp p.pairs.items };
}

// How the package of the pair compares with a name and a version.
fn order_to(pair: &Pair<'_, '_>, name: &[u8], version: &Version<'_>) -> Ordering
    ensures { result ≡ pkg_order pair.now.pkg name.now version.now }
{
    match name_cmp(pair.name(), name) {
        Ordering::Equal => pair.version().cmp(version),
        decided => decided,
    }
}

// The place of the pair of this version of the name, by a binary search.
fn place_of(pairs: &[Pair<'_, '_>], name: &[u8], version: &Version<'_>) -> Option<usize>
    requires { IsStrictlySortedBy pair_cmp pairs.now }
    ensures value { result ≡ place_among pairs.now name.now version.now }
    ensures within { IfSome result (λ place. place < length pairs.now) }
{
    match pairs.binary_search_by(|pair| order_to(pair, name, version)) {
        Ok(place) => Some(place),
        Err(_) => None,
    }
}

// The pair of this version of the name, by a binary search.
fn pair_of<'k, 'p, 'a>(
    pairs: &'k [Pair<'p, 'a>],
    name: &[u8],
    version: &Version<'_>,
) -> Option<&'k Pair<'p, 'a>>
    requires { IsStrictlySortedBy pair_cmp pairs.now }
    ensures { option_copied result ≡ find (λ pair. is_of name.now version.now pair.pkg) pairs.now }
{
    match pairs.binary_search_by(|pair| order_to(pair, name, version)) {
        Ok(place) => pairs.get(place),
        Err(_) => None,
    }
}

// Whether there is a pair of this version of the name, by a binary search.
fn has_pair(pairs: &[Pair<'_, '_>], name: &[u8], version: &Version<'_>) -> bool
    requires { IsStrictlySortedBy pair_cmp pairs.now }
    ensures { result ≡ list_any (λ pair. is_of name.now version.now pair.pkg) pairs.now }
{
    pairs
        .binary_search_by(|pair| order_to(pair, name, version))
        .is_ok()
}

impl<'p, 'a> Pairs<'p, 'a> {
    /// The pairs of this list, which is in order.
    pub fn new(pairs: Vec<Pair<'p, 'a>>) -> Pairs<'p, 'a>
        requires { IsStrictlySortedBy pair_cmp pairs.items }
        ensures { result ≡ pairs.entry.items }
    {
        Pairs { pairs }
    }

    /// The pairs in order.
    pub fn as_slice(&self) -> &[Pair<'p, 'a>]
        ensures items { result.now ≡ self.now }
        ensures ascending { IsStrictlySortedBy pair_cmp self.now }
    {
        self.pairs.as_slice()
    }

    /// The number of the pair of this version of the name, counted from 1, if there is one. A binary search.
    pub fn number_of(&self, name: &[u8], version: &Version<'_>) -> Option<usize>
        ensures { result ≡ number_among self.now name.now version.now }
    {
        match place_of(self.pairs.as_slice(), name, version) {
            None => None,
            Some(place) => Some(place + 1),
        }
    }

    /// Whether there is a pair of this version of the name. A binary search.
    pub fn has(&self, name: &[u8], version: &Version<'_>) -> bool
        ensures { result ≡ list_any (λ pair. is_of name.now version.now pair.pkg) self.now }
    {
        has_pair(self.pairs.as_slice(), name, version)
    }

    /// The stanza of this version of the name, if the pair is admitted and in an index. A binary search.
    pub fn listed_of(&self, name: &[u8], version: &Version<'_>) -> Option<&'p IndexEntry<'a>>
        ensures { option_copied result ≡ listed_among self.now name.now version.now }
    {
        match pair_of(self.pairs.as_slice(), name, version) {
            None => None,
            Some(pair) => pair.index_entry(),
        }
    }
}
