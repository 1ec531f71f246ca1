// The versions that are available, each with the priority that the preferences give it (apt_preferences(5)).

ghost use Rattle.std.specs.Prelude.{◌≡◌, ◌≢◌, [], ◌∷◌, IfOk, Some, if◌then◌else◌};
ghost use Rattle.std.specs.List.Sorted.{IsSorted, IsStrictlySortedBy};
ghost use Rattle.std.specs.Option.{option_or};
ghost use Rattle.rules.specs.Priority.{status_origin};
ghost use Rattle.candidates.specs.Place.{place_cmp, stanzas_of};
ghost use Rattle.candidates.specs.Rated.{AreEligible, AreEligibleAmong, AreInOrder, AreRated, HasPlace, IsEligibleOfRun, IsFrom, IsOfRun, StandsAlone, origins_with, standing_alone};
ghost use Rattle.candidates.specs.Recorded.{record_cmp};
ghost use Rattle.candidates.specs.Stanza.{IsOrdered, listed_cmp};

use crate::known::{record_of, standing_in};
use crate::offer::{Offer, by_version, eligible, eligible_beside};
use crate::order::{OrderedEntry, stanza_of};
use crate::place::{Place, run_from};
use crate::recorded::Recorded;
use debversion::Version;
use pins::{Origin, Prefs};
use std::alloc::{AllocError, Global};

fn status_origins<'p>(alloc: Global, stood: bool) -> Result<Vec<Origin<'p>>, AllocError>
    ensures { IfOk result (λ origins. origins.items ≡ (if stood then status_origin ∷ [] else [])) }
{
    let mut origins = Vec::new(alloc);
    if stood {
        origins.push(Origin::status_file())?;
    }
    Ok(origins)
}

// The origins of a version that has these places.
pub fn origins_with<'p>(
    alloc: Global,
    stood: bool,
    places: &[Place<'p, '_>],
) -> Result<Vec<Origin<'p>>, AllocError>
    ensures { IfOk result (λ origins. origins.items ≡ origins_with stood places.now) }
{
    let mut origins = status_origins(alloc, stood)?;
    for place in places {
        origins.push(place.origin())?;
    }
    Ok(origins)
}

// The offer of a version that comes from these origins.
fn offer_from<'a>(
    prefs: &Prefs,
    name: &'a [u8],
    version: Version<'a>,
    origins: &[Origin<'_>],
) -> Offer<'a>
    requires { origins.now ≢ [] }
    ensures { IsFrom prefs.now name.now version.entry origins.now result }
{
    match prefs.priority(name, &version, origins) {
        Some(priority) => Offer::new(name, version, priority),
        None => unreachable!(),
    }
}

// The text of a version that is kept: that of what stands, or else this one.
fn kept_text<'a>(standing: Option<Version<'a>>, version: Version<'a>) -> Version<'a>
    ensures { Some result ≡ option_or standing.entry (Some version.entry) }
{
    match standing {
        Some(own) => own,
        None => version,
    }
}

// The offer of the version, which is that of the first place and of which these are all places, where it stands in this text,
// if it does.
fn offer_of<'a>(
    alloc: Global,
    prefs: &Prefs,
    standing: Option<Version<'a>>,
    version: Version<'a>,
    first: &Place<'_, 'a>,
    run: &[Place<'_, 'a>],
) -> Result<Offer<'a>, AllocError>
    requires version { version ≡ first.now.listed.pkg.version }
    requires run { run.now ≢ [] }
    ensures { IfOk result (λ offer. IsOfRun prefs.now standing.entry first.now run.now offer) }
{
    let origins = origins_with(alloc, standing.is_some(), run)?;
    let version = kept_text(standing, version);
    Ok(offer_from(prefs, first.name(), version, origins.as_slice()))
}

// The offer of the version of the first place, of which these are all places, if it may be chosen.
fn eligible_of<'a>(
    alloc: Global,
    prefs: &Prefs,
    known: &[Recorded<'_, 'a>],
    first: &Place<'_, 'a>,
    run: &[Place<'_, 'a>],
) -> Result<Option<Offer<'a>>, AllocError>
    requires known { IsStrictlySortedBy record_cmp known.now }
    requires run { run.now ≢ [] }
    ensures { IfOk result (λ chosen. IsEligibleOfRun prefs.now known.now first.now run.now chosen) }
{
    let record = record_of(known, first.name());
    let version = first.version();
    let standing = standing_in(record, &version);
    let offer = offer_of(alloc, prefs, standing, version, first, run)?;
    Ok(eligible_beside(record, offer))
}

// The offers of the versions that have places and may be chosen. What the start says of a name is looked up once a version.
fn listed_offers<'a>(
    alloc: Global,
    prefs: &Prefs,
    known: &[Recorded<'_, 'a>],
    places: &[Place<'_, 'a>],
) -> Result<Vec<Offer<'a>>, AllocError>
    requires known { IsStrictlySortedBy record_cmp known.now }
    requires places { IsSorted place_cmp places.now }
    ensures { IfOk result
        (λ offers. AreEligibleAmong
        (HasPlace places.now) prefs.now known.now places.now offers.items) }
{
    let mut offers = Vec::new(alloc);
    let mut start = 0;
    while let Some((first, run)) = run_from(places, start) {
        start += run.len();
        let Some(offer) = eligible_of(alloc, prefs, known, first, run)? else {
            continue;
        };
        offers.push(offer)?;
    }
    Ok(offers)
}

// The version that stands, where no stanza has it.
fn standing_alone<'a>(
    ordered: &[OrderedEntry<'_, '_>],
    entry: &Recorded<'_, 'a>,
) -> Option<Version<'a>>
    requires { IsStrictlySortedBy listed_cmp ordered.now }
    ensures { result ≡ standing_alone ordered.now entry.now }
{
    match entry.standing() {
        None => None,
        Some(version) => match stanza_of(ordered, entry.name(), &version) {
            Some(_) => None,
            None => Some(version),
        },
    }
}

// The offers of what stands in versions that have no place.
fn standing_offers<'a>(
    alloc: Global,
    prefs: &Prefs,
    known: &[Recorded<'_, 'a>],
    places: &[Place<'_, 'a>],
    ordered: &[OrderedEntry<'_, 'a>],
) -> Result<Vec<Offer<'a>>, AllocError>
    requires known { IsStrictlySortedBy record_cmp known.now }
    requires ordered { IsOrdered (stanzas_of places.now) ordered.now }
    ensures { IfOk result
        (λ offers. AreRated
        (StandsAlone known.now places.now) prefs.now known.now places.now offers.items) }
{
    let from = [Origin::status_file()];
    let mut offers = Vec::new(alloc);
    for entry in known {
        let Some(version) = standing_alone(ordered, entry) else {
            continue;
        };
        offers.push(offer_from(prefs, entry.name(), version, &from))?;
    }
    Ok(offers)
}

/// The offers of the versions that may be chosen. Linear in the places and the records but for their look-ups among the
/// stanzas in order, and for each version what `Prefs::priority` costs.
pub fn eligible_offers<'a>(
    alloc: Global,
    prefs: &Prefs,
    known: &[Recorded<'_, 'a>],
    places: &[Place<'_, 'a>],
    ordered: &[OrderedEntry<'_, 'a>],
) -> Result<Vec<Offer<'a>>, AllocError>
    requires known { IsStrictlySortedBy record_cmp known.now }
    requires places { IsSorted place_cmp places.now }
    requires ordered { IsOrdered (stanzas_of places.now) ordered.now }
    ensures { IfOk result (λ offers. AreEligible prefs.now known.now places.now offers.items) }
{
    let mut offers = listed_offers(alloc, prefs, known, places)?;
    let further = standing_offers(alloc, prefs, known, places, ordered)?;
    let mut alone = eligible(known, further);
    offers.append(&mut alone)?;
    Ok(offers)
}

/// The offers of the versions of one name that may be chosen, ascending by version.
pub fn eligible_at<'a>(
    alloc: Global,
    prefs: &Prefs,
    known: &[Recorded<'_, 'a>],
    places: &[Place<'_, 'a>],
    ordered: &[OrderedEntry<'_, 'a>],
) -> Result<Vec<Offer<'a>>, AllocError>
    requires known { IsStrictlySortedBy record_cmp known.now }
    requires places { IsSorted place_cmp places.now }
    requires ordered { IsOrdered (stanzas_of places.now) ordered.now }
    ensures { IfOk result (λ offers. AreInOrder prefs.now known.now places.now offers.items) }
{
    let offers = eligible_offers(alloc, prefs, known, places, ordered)?;
    by_version(offers)
}
