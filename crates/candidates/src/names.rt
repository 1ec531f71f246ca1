// The names of the start and of the indices in their order, each with its record and its stanzas.

ghost use Rattle.std.specs.Prelude.{◌≡◌, ◌≢◌, ◌+◌, ◌<◌, ◌≤◌, List, [], IfOk, IfSome, MatchOption, None, Some, length, not};
ghost use Rattle.std.specs.List.{All, filter, prefix_len};
ghost use Rattle.std.specs.List.Sorted.{IsSorted, IsStrictlySortedBy};
ghost use Rattle.std.specs.Option.{option_copied};
ghost use Rattle.std.specs.declared.cmp.Ordering.TheVariants.{Less};
ghost use Rattle.rules.specs.Database.{HasDistinctNames, Record as RecordValue};
ghost use Rattle.rules.specs.Available.{Index as IndexValue, Request};
ghost use Rattle.rules.specs.Name.{name_cmp};
ghost use Rattle.rules.specs.Step.{is_named};
ghost use Rattle.candidates.specs.Eligible.{AreEligibleOf, offer_version_cmp};
ghost use Rattle.candidates.specs.Inputs.{indices_of, inputs_of};
ghost use Rattle.candidates.specs.Names.{AreNames, InOrder, IsAllOf, IsSplit};
ghost use Rattle.candidates.specs.Least.{least_of, lesser};
ghost use Rattle.candidates.specs.Place.{has_place_name, place_cmp};
ghost use Rattle.candidates.specs.Recorded.{is_recorded, record_cmp};
ghost use Rattle.candidates.specs.Stanza.{has_name, has_stanza_name, listed_cmp};

use crate::known::is_recorded;
use crate::offer::Offer;
use crate::order::{OrderedEntry, has_name, in_order};
use crate::place::{Place, sorted_places};
use crate::rated::eligible_at;
use crate::recorded::{Recorded, by_name};
use index::Index;
use pins::Prefs;
use rules::name_cmp;
use std::alloc::{AllocError, Global};
use std::marker::Model;

/// The records of the start by name, and the stanzas of the indices by name and version (deb-version(7)), of those of one
/// version the earliest first.
#[derive(Drop)]
pub struct NameTable<'s, 'p, 'a> {
    known: Vec<Recorded<'s, 'a>>,
    places: Vec<Place<'p, 'a>>,
    ordered: Vec<OrderedEntry<'p, 'a>>,
}

impl<'s, 'p, 'a> Model for NameTable<'s, 'p, 'a> {
    ghost use Rattle.candidates.specs.Names.{InOrder, NameTable as NameTableValue};

    ghost Value = { NameTableValue };

    ghost view = { λ n. record { known = n.known.items; places = n.places.items; ordered = n.ordered.items } };

    ghost invariant = { λ n. InOrder n.known.items n.places.items n.ordered.items };
}

/// Names that are left of `NameTable`, in their order.
#[derive(Drop)]
pub struct NamesLeft<'n, 's, 'p, 'a> {
    known: &'n [Recorded<'s, 'a>],
    places: &'n [Place<'p, 'a>],
    ordered: &'n [OrderedEntry<'p, 'a>],
}

impl<'n, 's, 'p, 'a> Model for NamesLeft<'n, 's, 'p, 'a> {
    ghost use Rattle.candidates.specs.Names.{InOrder, NameTable as NameTableValue};

    ghost Value = { NameTableValue };

    ghost view = { λ n. record { known = n.known.now; places = n.places.now; ordered = n.ordered.now } };

    ghost invariant = { λ n. InOrder n.known.now n.places.now n.ordered.now };
}

/// What there is of one name: its record at the start and its stanzas in the indices, one of the two at least.
#[derive(Drop)]
pub struct OfName<'n, 's, 'p, 'a> {
    name: &'a [u8],
    known: &'n [Recorded<'s, 'a>],
    places: &'n [Place<'p, 'a>],
    ordered: &'n [OrderedEntry<'p, 'a>],
}

impl<'n, 's, 'p, 'a> Model for OfName<'n, 's, 'p, 'a> {
    ghost use Rattle.candidates.specs.Names.{InOrder, OfName as OfNameValue};

    ghost Value = { OfNameValue };

    ghost view = { λ o. record { name = o.name.now; known = o.known.now; places = o.places.now; ordered = o.ordered.now } };

    ghost invariant = { λ o. InOrder o.known.now o.places.now o.ordered.now };
}

impl<'s, 'p, 'a> NameTable<'s, 'p, 'a> {
    /// The names of these records of the start, whose names are distinct, and of the indices. About n log n comparisons of n
    /// records and stanzas. Memory alone can fail.
    pub fn new(
        alloc: Global,
        start: Vec<Recorded<'s, 'a>>,
        indices: &'p [Index<'a>],
    ) -> Result<NameTable<'s, 'p, 'a>, AllocError>
        ensures { IfOk result (λ names. AreNames start.entry.items (indices_of indices.now) names) }
    {
        let known = by_name(start)?;
        let places = sorted_places(alloc, indices)?;
        let ordered = in_order(alloc, places.as_slice())?;
        Ok(NameTable {
            known,
            places,
            ordered,
        })
    }

    /// All of them.
    pub fn all(&self) -> NamesLeft<'_, 's, 'p, 'a>
        ensures { result ≡ self.now }
    {
        NamesLeft {
            known: self.known.as_slice(),
            places: self.places.as_slice(),
            ordered: self.ordered.as_slice(),
        }
    }

    /// Whether a stanza has the name. A binary search.
    pub fn has_stanza(&self, name: &[u8]) -> bool
        ensures { result ≡ has_name self.now.ordered name.now }
    {
        has_name(self.ordered.as_slice(), name)
    }

    /// Whether the name is in a state other than not-installed. A binary search.
    pub fn is_recorded(&self, name: &[u8]) -> bool
        ensures { result ≡ is_recorded self.now.known name.now }
    {
        is_recorded(self.known.as_slice(), name)
    }
}

// The lesser of two names.
fn lesser<'a>(name: &'a [u8], other: &'a [u8]) -> &'a [u8]
    ensures { result.now ≡ lesser name.now other.now }
{
    if name_cmp(other, name).is_lt() {
        other
    } else {
        name
    }
}

// The least of the names, if there is one, where the records and the stanzas are in order.
fn least_of<'a>(known: &[Recorded<'_, 'a>], ordered: &[OrderedEntry<'_, 'a>]) -> Option<&'a [u8]>
    ensures { option_copied result ≡ least_of known.now ordered.now }
{
    match (known, ordered) {
        ([], []) => None,
        ([record, ..], []) => Some(record.name()),
        ([], [stanza, ..]) => Some(stanza.name()),
        ([record, ..], [stanza, ..]) => Some(lesser(record.name(), stanza.name())),
    }
}

// How many records at the front have the name.
fn record_count(known: &[Recorded<'_, '_>], name: &[u8]) -> usize
    ensures value { result ≡ prefix_len (is_named name.now) known.now }
    ensures within { result ≤ length known.now }
{
    known
        .iter()
        .take_while(|entry| entry.name() == name)
        .count()
}

// How many places at the front have the name.
fn place_count(places: &[Place<'_, '_>], name: &[u8]) -> usize
    ensures value { result ≡ prefix_len (has_place_name name.now) places.now }
    ensures within { result ≤ length places.now }
{
    places
        .iter()
        .take_while(|place| place.name() == name)
        .count()
}

// How many stanzas at the front have the name.
fn stanza_count(ordered: &[OrderedEntry<'_, '_>], name: &[u8]) -> usize
    ensures value { result ≡ prefix_len (has_stanza_name name.now) ordered.now }
    ensures within { result ≤ length ordered.now }
{
    ordered
        .iter()
        .take_while(|stanza| stanza.name() == name)
        .count()
}

// The records of the name, before which none is, and the others.
fn split_records<'n, 's, 'a>(
    known: &'n [Recorded<'s, 'a>],
    name: &[u8],
) -> (&'n [Recorded<'s, 'a>], &'n [Recorded<'s, 'a>])
    requires ascending { IsStrictlySortedBy record_cmp known.now }
    requires least { All (λ entry. name_cmp entry.name name.now ≢ Less) known.now }
    ensures own { result.0.now ≡ filter (is_named name.now) known.now }
    ensures left { result.1.now ≡ filter (λ entry. not (is_named name.now entry)) known.now }
{
    known.split_at(record_count(known, name))
}

// The places of the name, before which none is, and the others.
fn split_places<'n, 'p, 'a>(
    places: &'n [Place<'p, 'a>],
    name: &[u8],
) -> (&'n [Place<'p, 'a>], &'n [Place<'p, 'a>])
    requires ascending { IsSorted place_cmp places.now }
    requires least { All (λ place. name_cmp place.listed.pkg.name name.now ≢ Less) places.now }
    ensures own { result.0.now ≡ filter (has_place_name name.now) places.now }
    ensures left { result.1.now ≡ filter (λ place. not (has_place_name name.now place)) places.now }
{
    places.split_at(place_count(places, name))
}

// The stanzas of the name, before which none is, and the others.
fn split_stanzas<'n, 'p, 'a>(
    ordered: &'n [OrderedEntry<'p, 'a>],
    name: &[u8],
) -> (&'n [OrderedEntry<'p, 'a>], &'n [OrderedEntry<'p, 'a>])
    requires ascending { IsStrictlySortedBy listed_cmp ordered.now }
    requires least { All (λ stanza. name_cmp stanza.pkg.name name.now ≢ Less) ordered.now }
    ensures own { result.0.now ≡ filter (has_stanza_name name.now) ordered.now }
    ensures left { result.1.now
        ≡ filter (λ stanza. not (has_stanza_name name.now stanza)) ordered.now }
{
    ordered.split_at(stanza_count(ordered, name))
}

impl<'n, 's, 'p, 'a> NamesLeft<'n, 's, 'p, 'a> {
    /// The first of the names with what there is of it, and the names behind it. Linear in what there is of the name.
    pub fn split_first(&self) -> Option<(OfName<'n, 's, 'p, 'a>, NamesLeft<'n, 's, 'p, 'a>)>
        ensures split { MatchOption result ((self.now.known ≡ []) × (self.now.ordered ≡ []))
            (λ pair. IsSplit self.now pair.0 pair.1) }
        ensures fewer { IfSome result
            (λ pair. length pair.1.known + length pair.1.ordered
            < length self.now.known + length self.now.ordered) }
    {
        let name = least_of(self.known, self.ordered)?;
        let (known, known_left) = split_records(self.known, name);
        let (places, places_left) = split_places(self.places, name);
        let (ordered, ordered_left) = split_stanzas(self.ordered, name);
        let own = OfName {
            name,
            known,
            places,
            ordered,
        };
        let left = NamesLeft {
            known: known_left,
            places: places_left,
            ordered: ordered_left,
        };
        Some((own, left))
    }
}

impl<'n, 's, 'p, 'a> OfName<'n, 's, 'p, 'a> {
    /// The name.
    pub fn name(&self) -> &'a [u8]
        ensures { result.now ≡ self.now.name }
    {
        self.name
    }

    /// The record of the name at the start, if it has one.
    pub fn records(&self) -> &'n [Recorded<'s, 'a>]
        ensures records { result.now ≡ self.now.known }
        ensures ascending { IsStrictlySortedBy record_cmp self.now.known }
    {
        self.known
    }

    /// The earliest stanza of each version of the name, ascending by version.
    pub fn stanzas(&self) -> &'n [OrderedEntry<'p, 'a>]
        ensures stanzas { result.now ≡ self.now.ordered }
        ensures ascending { IsStrictlySortedBy listed_cmp self.now.ordered }
    {
        self.ordered
    }

    /// The versions of the name that may be chosen by themselves, ascending and each once, with their priorities, where this
    /// is what these records and indices have of it: those with a priority above 0 that aren't lower than the one that stands
    /// with a priority below 1000 (apt_preferences(5)). About n log n comparisons of the n places of the name, and for each
    /// version what `Prefs::priority` costs. Memory alone can fail.
    pub fn eligible(&self, alloc: Global, prefs: &Prefs) -> Result<Vec<Offer<'a>>, AllocError>
        ensures ascending { IfOk result
            (λ offers. IsStrictlySortedBy offer_version_cmp offers.items) }
        ensures versions { (db : List RecordValue) (indices : List IndexValue) (request : Request)
            → HasDistinctNames db
            → IsAllOf db indices self.now
            → IfOk result
            (λ offers. AreEligibleOf
            (inputs_of db indices prefs.now request) self.now.name offers.items) }
    {
        let offers = eligible_at(alloc, prefs, self.known, self.places, self.ordered)?;
        Ok(offers)
    }
}
