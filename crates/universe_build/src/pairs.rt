// The pairs of one name: that of what stands, and those of the stanzas that are chosen or asked for.

ghost use Rattle.std.specs.Prelude.{◌≡◌, false, IfOk, is_some, map};
ghost use Rattle.std.specs.List.{filter, list_any};
ghost use Rattle.std.specs.List.Sorted.{IsSorted, IsStrictlySortedBy};
ghost use Rattle.std.specs.Option.{option_copied, option_map_or};
ghost use Rattle.candidates.specs.Eligible.{offer_version_cmp};
ghost use Rattle.candidates.specs.Recorded.{record_cmp};
ghost use Rattle.candidates.specs.Stanza.{listed_cmp};
ghost use Rattle.universe_build.specs.ByName.{ArePairs, chosen_pairs, is_chosen, is_free, is_version_of, is_wanted, listed_pair, listed_pairs, standing_pair, standing_pairs, standing_stanza};
ghost use Rattle.universe_build.specs.Choice.{exact_cmp};

use crate::asked::{Exact, is_asked};
use candidates::{OfName, Offer, OrderedEntry, Recorded, stanza_of};
use index::IndexEntry;
use std::alloc::{AllocError, Global};
use universe::Pair;

// Whether the stanza is of a version that doesn't stand, of a name that isn't held.
fn is_free(known: &[Recorded<'_, '_>], stanza: &OrderedEntry<'_, '_>) -> bool
    requires { IsStrictlySortedBy record_cmp known.now }
    ensures { result ≡ is_free known.now stanza.now }
{
    match known {
        [] => true,
        [..] => candidates::is_free(known, stanza.name(), &stanza.version()),
    }
}

// Whether the candidate is of the version of the stanza.
fn is_candidate(candidate: Option<&Offer<'_>>, stanza: &OrderedEntry<'_, '_>) -> bool
    ensures { result
        ≡ option_map_or (is_version_of stanza.now) (option_copied candidate.entry) false }
{
    match candidate {
        None => false,
        Some(offer) => *offer.version() == stanza.version(),
    }
}

// The one of these versions, which ascend, that is the version of the stanza. A binary search.
fn offer_of<'k, 'a>(
    versions: &'k [Offer<'a>],
    stanza: &OrderedEntry<'_, '_>,
) -> Option<&'k Offer<'a>>
    requires { IsStrictlySortedBy offer_version_cmp versions.now }
    ensures { is_some result ≡ list_any (is_version_of stanza.now) versions.now }
{
    match versions.binary_search_by(|offer| offer.version().cmp(&stanza.version())) {
        Ok(place) => versions.get(place),
        Err(_) => None,
    }
}

// Whether the stanza is of the candidate's version, of one of these versions or of one that is asked for.
fn is_wanted(
    candidate: Option<&Offer<'_>>,
    versions: &[Offer<'_>],
    asked: &[Exact<'_>],
    stanza: &OrderedEntry<'_, '_>,
) -> bool
    requires versions { IsStrictlySortedBy offer_version_cmp versions.now }
    requires asked { IsSorted exact_cmp asked.now }
    ensures { result ≡ is_wanted (option_copied candidate.entry) versions.now asked.now stanza.now }
{
    is_candidate(candidate, stanza)
        || offer_of(versions, stanza).is_some()
        || is_asked(asked, stanza)
}

fn is_chosen(
    known: &[Recorded<'_, '_>],
    candidate: Option<&Offer<'_>>,
    versions: &[Offer<'_>],
    asked: &[Exact<'_>],
    stanza: &OrderedEntry<'_, '_>,
) -> bool
    requires known { IsStrictlySortedBy record_cmp known.now }
    requires versions { IsStrictlySortedBy offer_version_cmp versions.now }
    requires asked { IsSorted exact_cmp asked.now }
    ensures { result
        ≡ is_chosen known.now (option_copied candidate.entry) versions.now asked.now stanza.now }
{
    is_free(known, stanza) && is_wanted(candidate, versions, asked, stanza)
}

// The pair of a stanza, with the priority of its version where it is one of these versions.
fn listed_pair<'p, 'a>(versions: &[Offer<'_>], stanza: &OrderedEntry<'p, 'a>) -> Pair<'p, 'a>
    requires { IsStrictlySortedBy offer_version_cmp versions.now }
    ensures { result ≡ listed_pair stanza.now }
{
    let priority = match offer_of(versions, stanza) {
        None => None,
        Some(offer) => Some(offer.priority()),
    };
    Pair::listed_alone(stanza.entry()).with_priority(priority)
}

// The pairs of the stanzas that are chosen.
fn listed_pairs<'p, 'a>(
    alloc: Global,
    known: &[Recorded<'_, '_>],
    ordered: &[OrderedEntry<'p, 'a>],
    candidate: Option<&Offer<'_>>,
    versions: &[Offer<'_>],
    asked: &[Exact<'_>],
) -> Result<Vec<Pair<'p, 'a>>, AllocError>
    requires known { IsStrictlySortedBy record_cmp known.now }
    requires versions { IsStrictlySortedBy offer_version_cmp versions.now }
    requires asked { IsSorted exact_cmp asked.now }
    ensures { IfOk result (λ pairs. pairs.items
        ≡ listed_pairs known.now ordered.now
        (option_copied candidate.entry) versions.now asked.now) }
{
    let mut pairs = Vec::new(alloc);
    for stanza in ordered {
        if is_chosen(known, candidate, versions, asked, stanza) {
            pairs.push(listed_pair(versions, stanza))?;
        }
    }
    Ok(pairs)
}

// The stanza of the record's version in the indices, if there is one.
fn stanza_by<'p, 'a>(
    ordered: &[OrderedEntry<'p, 'a>],
    entry: &Recorded<'_, 'a>,
) -> Option<&'p IndexEntry<'a>>
    requires { IsStrictlySortedBy listed_cmp ordered.now }
    ensures { option_copied result ≡ standing_stanza ordered.now entry.now }
{
    let Some(version) = entry.standing() else {
        return None;
    };
    match stanza_of(ordered, entry.name(), &version) {
        None => None,
        Some(stanza) => Some(stanza.entry()),
    }
}

// The pair of the record, if its package stands.
fn standing_pair<'p, 'a>(
    alloc: Global,
    ordered: &[OrderedEntry<'p, 'a>],
    entry: &Recorded<'_, 'a>,
) -> Result<Option<Pair<'p, 'a>>, AllocError>
    requires { IsStrictlySortedBy listed_cmp ordered.now }
    ensures { IfOk result (λ pair. pair ≡ standing_pair ordered.now entry.now) }
{
    let listed = stanza_by(ordered, entry);
    match entry.standing_pkg(alloc)? {
        None => Ok(None),
        Some(pkg) => Ok(Some(Pair::standing(alloc, pkg, listed)?)),
    }
}

// The pairs of what stands.
fn standing_pairs<'p, 'a>(
    alloc: Global,
    known: &[Recorded<'_, 'a>],
    ordered: &[OrderedEntry<'p, 'a>],
) -> Result<Vec<Pair<'p, 'a>>, AllocError>
    requires { IsStrictlySortedBy listed_cmp ordered.now }
    ensures { IfOk result (λ pairs. pairs.items ≡ standing_pairs ordered.now known.now) }
{
    let mut pairs = Vec::new(alloc);
    for entry in known {
        if let Some(pair) = standing_pair(alloc, ordered, entry)? {
            pairs.push(pair)?;
        }
    }
    Ok(pairs)
}

fn in_order<'p, 'a>(pairs: Vec<Pair<'p, 'a>>) -> Result<Vec<Pair<'p, 'a>>, AllocError>
    ensures { IfOk result (λ ordered. ArePairs pairs.entry.items ordered.items) }
{
    let mut ordered = pairs;
    ordered.sort()?;
    // No two are of one version, so nothing is dropped: that each is before the next is seen from this call alone.
    ordered.dedup();
    Ok(ordered)
}

/// The pairs of the name, in order: that of what stands, and those of its free stanzas that are of the candidate's version, of
/// one of these versions, or asked for. The pair of one of these versions is told its priority. About n log n comparisons of
/// the n stanzas, and log m for each of m versions that are asked for.
pub fn pairs_of<'p, 'a>(
    alloc: Global,
    own: &OfName<'_, '_, 'p, 'a>,
    candidate: Option<&Offer<'_>>,
    versions: &[Offer<'_>],
    asked: &[Exact<'_>],
) -> Result<Vec<Pair<'p, 'a>>, AllocError>
    requires versions { IsStrictlySortedBy offer_version_cmp versions.now }
    requires asked { IsSorted exact_cmp asked.now }
    ensures { IfOk result (λ pairs. ArePairs
        (chosen_pairs own.now (option_copied candidate.entry) versions.now asked.now) pairs.items) }
{
    let mut pairs = standing_pairs(alloc, own.records(), own.stanzas())?;
    let mut listed = listed_pairs(
        alloc,
        own.records(),
        own.stanzas(),
        candidate,
        versions,
        asked,
    )?;
    pairs.append(&mut listed)?;
    in_order(pairs)
}
