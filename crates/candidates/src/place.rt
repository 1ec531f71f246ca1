// The places that stanzas come from, in the order of their stanzas.

ghost use Rattle.std.specs.Prelude.{◌≡◌, ◌+◌, ◌≤◌, [], IfOk, IfSome, MatchOption, drop, length, refl};
ghost use Rattle.std.specs.Cmp.{eq_by_cmp_equiv, partial_equiv_from_equiv, po};
ghost use Rattle.std.specs.List.{filter, prefix_len};
ghost use Rattle.std.specs.Ordering.{as_partial_cmp, eq_by_cmp};
ghost use Rattle.rules.specs.Available.{is_of};
ghost use Rattle.rules.specs.Name.{name_cmp};
ghost use Rattle.pins.specs.Origin.{release_origin};
ghost use Rattle.candidates.specs.Inputs.{indices_of};
ghost use Rattle.candidates.specs.Place.{AreSorted, IsNextRun, has_place_name, is_like, place_at, place_cmp, places_in, places_of, with_version};
ghost use Rattle.candidates.specs.StanzaLaws.{place_cmp_total};

use crate::prefix::{order_of, prefix_of};
use debversion::Version;
use index::{Index, IndexEntry};
use pins::Origin;
use rules::Release;
use std::alloc::{AllocError, Global};
use std::cmp::Ordering;
use std::marker::Model;

/// A stanza of an index, with the index's release keys. Places are ordered by the bytes of the name and then by the
/// version (deb-version(7)), and two of one name and version are equal.
#[derive(Drop)]
pub struct Place<'p, 'a> {
    entry: &'p IndexEntry<'a>,
    release: &'p Release,
    prefix: [u8; 16],
}

impl<'p, 'a> Model for Place<'p, 'a> {
    ghost use Rattle.std.specs.Prelude.{◌≡◌};
    ghost use Rattle.candidates.specs.Place.{Place as PlaceValue};
    ghost use Rattle.candidates.specs.Prefix.{padded};

    ghost Value = { PlaceValue };

    ghost view = { λ p. record { listed = p.entry.now; release = p.release.now } };

    ghost invariant = { λ p. p.prefix ≡ padded 16 p.entry.now.pkg.name };
}

impl<'p, 'a> Place<'p, 'a> {
    /// The name of the package.
    pub fn name(&self) -> &'a [u8]
        ensures { result.now ≡ self.now.listed.pkg.name }
    {
        self.entry.name()
    }

    /// The version of the package.
    pub fn version(&self) -> Version<'a>
        ensures { result ≡ self.now.listed.pkg.version }
    {
        self.entry.version()
    }

    /// The stanza.
    pub fn entry(&self) -> &'p IndexEntry<'a>
        ensures { result.now ≡ self.now.listed }
    {
        self.entry
    }

    /// The index, as an origin of the version.
    pub fn origin(&self) -> Origin<'p>
        ensures { result ≡ release_origin self.now.release }
    {
        Origin::index(self.release)
    }

    // The order of the names.
    fn name_cmp(&self, other: &Place<'_, '_>) -> Ordering
        ensures { result ≡ name_cmp self.now.listed.pkg.name other.now.listed.pkg.name }
    {
        order_of(&self.prefix, self.name(), &other.prefix, other.name())
    }

    // Whether it has this version of the name.
    fn is_of(&self, name: &[u8], version: &Version<'_>) -> bool
        ensures { result ≡ is_of name.now version.now self.now.listed.pkg }
    {
        self.name() == name && self.version() == *version
    }

    // Whether it has the name and the version of another.
    fn is_like(&self, other: &Place<'_, '_>) -> bool
        ensures { result ≡ is_like other.now self.now }
    {
        self.name() == other.name() && self.version() == other.version()
    }
}

fn place_at<'p, 'a>(release: &'p Release, entry: &'p IndexEntry<'a>) -> Place<'p, 'a>
    ensures { result ≡ place_at release.now entry.now }
{
    Place {
        entry,
        release,
        prefix: prefix_of(entry.name()),
    }
}

fn places_in<'p, 'a>(alloc: Global, index: &'p Index<'a>) -> Result<Vec<Place<'p, 'a>>, AllocError>
    ensures { IfOk result (λ places. places.items ≡ places_in index.now.index) }
{
    let mut places = Vec::new(alloc);
    for entry in index.packages() {
        places.push(place_at(index.release(), entry))?;
    }
    Ok(places)
}

fn places_of<'p, 'a>(
    alloc: Global,
    indices: &'p [Index<'a>],
) -> Result<Vec<Place<'p, 'a>>, AllocError>
    ensures { IfOk result (λ places. places.items ≡ places_of (indices_of indices.now)) }
{
    let mut places = Vec::new(alloc);
    for index in indices {
        let mut further = places_in(alloc, index)?;
        places.append(&mut further)?;
    }
    Ok(places)
}

/// The stanzas of the indices in their order, with the release keys of their indices. About n log n comparisons of n
/// stanzas.
pub fn sorted_places<'p, 'a>(
    alloc: Global,
    indices: &'p [Index<'a>],
) -> Result<Vec<Place<'p, 'a>>, AllocError>
    ensures { IfOk result (λ sorted. AreSorted (places_of (indices_of indices.now)) sorted.items) }
{
    let mut places = places_of(alloc, indices)?;
    // The sort is stable, so of equal stanzas the earliest stays in front.
    places.sort()?;
    Ok(places)
}

// The stanzas of an index that have the name.
fn named_in<'p, 'a>(
    alloc: Global,
    index: &'p Index<'a>,
    name: &[u8],
) -> Result<Vec<Place<'p, 'a>>, AllocError>
    ensures { IfOk result
        (λ places. places.items ≡ filter (has_place_name name.now) (places_in index.now.index)) }
{
    let mut places = Vec::new(alloc);
    for entry in index.packages() {
        if entry.name() == name {
            places.push(place_at(index.release(), entry))?;
        }
    }
    Ok(places)
}

fn named_places<'p, 'a>(
    alloc: Global,
    indices: &'p [Index<'a>],
    name: &[u8],
) -> Result<Vec<Place<'p, 'a>>, AllocError>
    ensures { IfOk result
        (λ places. places.items
        ≡ filter (has_place_name name.now) (places_of (indices_of indices.now))) }
{
    let mut places = Vec::new(alloc);
    for index in indices {
        let mut further = named_in(alloc, index, name)?;
        places.append(&mut further)?;
    }
    Ok(places)
}

/// The stanzas of the indices that have the name, in their order, with the release keys of their indices. One comparison of
/// the name with that of each stanza, and about n log n comparisons of the n that have it.
pub fn sorted_named_places<'p, 'a>(
    alloc: Global,
    indices: &'p [Index<'a>],
    name: &[u8],
) -> Result<Vec<Place<'p, 'a>>, AllocError>
    ensures { IfOk result
        (λ sorted. AreSorted
        (filter (has_place_name name.now) (places_of (indices_of indices.now))) sorted.items) }
{
    let mut places = named_places(alloc, indices, name)?;
    // The sort is stable, so of equal stanzas the earliest stays in front.
    places.sort()?;
    Ok(places)
}

/// The stanzas of the indices that have this version of the name, those of the earlier index first, with the release keys of
/// their indices. One comparison of the name with that of each stanza, and one of the version for each that has it.
pub fn version_places<'p, 'a>(
    alloc: Global,
    indices: &'p [Index<'a>],
    name: &[u8],
    version: &Version<'_>,
) -> Result<Vec<Place<'p, 'a>>, AllocError>
    ensures { IfOk result
        (λ places. places.items
        ≡ with_version name.now version.now (places_of (indices_of indices.now))) }
{
    let mut places = named_places(alloc, indices, name)?;
    places.retain(|place| place.is_of(name, version));
    Ok(places)
}

// How many of these places at the front have the name and the version of the one before them.
fn run_length(first: &Place<'_, '_>, places: &[Place<'_, '_>]) -> usize
    ensures value { result ≡ prefix_len (is_like first.now) places.now }
    ensures within { result ≤ length places.now }
{
    places
        .iter()
        .take_while(|place| place.is_like(first))
        .count()
}

/// The first place from here on, and those that follow it with its version, unless there is none. Linear in these.
pub fn run_from<'s, 'p, 'a>(
    places: &'s [Place<'p, 'a>],
    start: usize,
) -> Option<(&'s Place<'p, 'a>, &'s [Place<'p, 'a>])>
    requires { start ≤ length places.now }
    ensures run { MatchOption result (drop start places.now ≡ [])
        (λ pair. IsNextRun (drop start places.now) pair.0.now pair.1.now) }
    ensures within { IfSome result (λ pair. start + length pair.1.now ≤ length places.now) }
{
    let left = places.split_at(start).1;
    match left.split_first() {
        None => None,
        Some((first, behind)) => Some((first, left.split_at(run_length(first, behind) + 1).0)),
    }
}

impl PartialEq for Place<'_, '_> {
    ghost eq = { eq_by_cmp place_cmp };

    ghost laws = { partial_equiv_from_equiv (eq_by_cmp_equiv place_cmp_total) };

    fn eq(&self, other: &Self) -> bool {
        self.cmp(other) == Ordering::Equal
    }
}

impl Eq for Place<'_, '_> {
    ghost laws = { eq_by_cmp_equiv place_cmp_total };
}

impl PartialOrd for Place<'_, '_> {
    ghost partial_cmp = { as_partial_cmp place_cmp };

    ghost laws = { po place_cmp_total (λ place other. refl) };

    fn partial_cmp(&self, other: &Self) -> Option<Ordering> {
        Some(self.cmp(other))
    }
}

impl Ord for Place<'_, '_> {
    ghost cmp = { place_cmp };

    ghost total = { place_cmp_total };

    ghost matches_partial_cmp = { λ place other. refl };

    ghost matches_eq = { λ place other. refl };

    fn cmp(&self, other: &Self) -> Ordering {
        match self.name_cmp(other) {
            Ordering::Equal => self.version().cmp(&other.version()),
            decided => decided,
        }
    }
}
