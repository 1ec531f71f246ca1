// The stanzas of the indices in their order, of those of one version the earliest alone.

ghost use Rattle.std.specs.Prelude.{◌≡◌, IfOk, refl};
ghost use Rattle.std.specs.Cmp.{eq_by_cmp_equiv, partial_equiv_from_equiv, po};
ghost use Rattle.std.specs.List.Sorted.{IsSorted, IsStrictlySortedBy};
ghost use Rattle.std.specs.Ordering.{as_partial_cmp, eq_by_cmp};
ghost use Rattle.std.specs.Option.{option_copied};
ghost use Rattle.universe_parts.specs.Pair.{pkg_order};
ghost use Rattle.candidates.specs.Place.{place_cmp, stanzas_of};
ghost use Rattle.candidates.specs.Stanza.{IsOrdered, has_name, listed_cmp, stanza_of};
ghost use Rattle.candidates.specs.StanzaLaws.{listed_cmp_total};

use crate::place::Place;
use debversion::Version;
use index::IndexEntry;
use rules::name_cmp;
use std::alloc::{AllocError, Global};
use std::cmp::Ordering;
use std::marker::Model;

/// A stanza of an index. Stanzas are ordered by the bytes of the name and then by the version (deb-version(7)), and two
/// of one name and version are equal.
#[derive(Drop)]
pub struct OrderedEntry<'p, 'a> {
    entry: &'p IndexEntry<'a>,
}

impl<'p, 'a> Model for OrderedEntry<'p, 'a> {
    ghost use Rattle.rules.specs.Step.{IndexPackage as IndexPackageValue};

    ghost Value = { IndexPackageValue };

    ghost view = { λ f. f.entry.now };
}

impl<'p, 'a> OrderedEntry<'p, 'a> {
    /// The name of the package.
    pub fn name(&self) -> &'a [u8]
        ensures { result.now ≡ self.now.pkg.name }
    {
        self.entry.name()
    }

    /// The version of the package.
    pub fn version(&self) -> Version<'a>
        ensures { result ≡ self.now.pkg.version }
    {
        self.entry.version()
    }

    /// The stanza.
    pub fn entry(&self) -> &'p IndexEntry<'a>
        ensures { result.now ≡ self.now }
    {
        self.entry
    }
}

fn ordered_entry<'p, 'a>(place: &Place<'p, 'a>) -> OrderedEntry<'p, 'a>
    ensures { result ≡ place.now.listed }
{
    OrderedEntry {
        entry: place.entry(),
    }
}

fn stanzas_of<'p, 'a>(
    alloc: Global,
    places: &[Place<'p, 'a>],
) -> Result<Vec<OrderedEntry<'p, 'a>>, AllocError>
    ensures { IfOk result (λ stanzas. stanzas.items ≡ stanzas_of places.now) }
{
    places
        .iter()
        .map(|place| ordered_entry(place))
        .collect(alloc)
}

/// The stanzas of the places, of equal ones the first alone. Linear.
pub fn in_order<'p, 'a>(
    alloc: Global,
    sorted: &[Place<'p, 'a>],
) -> Result<Vec<OrderedEntry<'p, 'a>>, AllocError>
    requires { IsSorted place_cmp sorted.now }
    ensures { IfOk result (λ ordered. IsOrdered (stanzas_of sorted.now) ordered.items) }
{
    let mut stanzas = stanzas_of(alloc, sorted)?;
    stanzas.dedup();
    Ok(stanzas)
}

fn order_to(stanza: &OrderedEntry<'_, '_>, name: &[u8], version: &Version<'_>) -> Ordering
    ensures { result ≡ pkg_order stanza.now.pkg name.now version.now }
{
    match name_cmp(stanza.name(), name) {
        Ordering::Equal => stanza.version().cmp(version),
        decided => decided,
    }
}

/// The stanza of this version of the name, by a binary search.
pub fn stanza_of<'k, 'p, 'a>(
    ordered: &'k [OrderedEntry<'p, 'a>],
    name: &[u8],
    version: &Version<'_>,
) -> Option<&'k OrderedEntry<'p, 'a>>
    requires { IsStrictlySortedBy listed_cmp ordered.now }
    ensures { option_copied result ≡ stanza_of ordered.now name.now version.now }
{
    match ordered.binary_search_by(|stanza| order_to(stanza, name, version)) {
        Ok(place) => ordered.get(place),
        Err(_) => None,
    }
}

/// Whether a stanza has the name, by a binary search.
pub fn has_name(ordered: &[OrderedEntry<'_, '_>], name: &[u8]) -> bool
    requires { IsStrictlySortedBy listed_cmp ordered.now }
    ensures { result ≡ has_name ordered.now name.now }
{
    ordered
        .binary_search_by(|stanza| name_cmp(stanza.name(), name))
        .is_ok()
}

impl PartialEq for OrderedEntry<'_, '_> {
    ghost eq = { eq_by_cmp listed_cmp };

    ghost laws = { partial_equiv_from_equiv (eq_by_cmp_equiv listed_cmp_total) };

    fn eq(&self, other: &Self) -> bool {
        self.cmp(other) == Ordering::Equal
    }
}

impl Eq for OrderedEntry<'_, '_> {
    ghost laws = { eq_by_cmp_equiv listed_cmp_total };
}

impl PartialOrd for OrderedEntry<'_, '_> {
    ghost partial_cmp = { as_partial_cmp listed_cmp };

    ghost laws = { po listed_cmp_total (λ stanza other. refl) };

    fn partial_cmp(&self, other: &Self) -> Option<Ordering> {
        Some(self.cmp(other))
    }
}

impl Ord for OrderedEntry<'_, '_> {
    ghost cmp = { listed_cmp };

    ghost total = { listed_cmp_total };

    ghost matches_partial_cmp = { λ stanza other. refl };

    ghost matches_eq = { λ stanza other. refl };

    fn cmp(&self, other: &Self) -> Ordering {
        match name_cmp(self.name(), other.name()) {
            Ordering::Equal => self.version().cmp(&other.version()),
            decided => decided,
        }
    }
}
