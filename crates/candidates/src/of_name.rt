// The candidate of one name, and its versions that may be chosen.

ghost use Rattle.std.specs.Prelude.{◌≡◌, IfOk, map};
ghost use Rattle.std.specs.List.{filter};
ghost use Rattle.rules.specs.Available.{Request};
ghost use Rattle.rules.specs.Database.{HasDistinctNames};
ghost use Rattle.rules.specs.FileRecord.{records_of};
ghost use Rattle.rules.specs.Step.{is_named};
ghost use Rattle.candidates.specs.Candidates.{IsCandidateOf};
ghost use Rattle.candidates.specs.Eligible.{AreEligibleOf};
ghost use Rattle.candidates.specs.Inputs.{indices_of, inputs_of};

use crate::offer::{Offer, candidate_of};
use crate::order::in_order;
use crate::place::sorted_named_places;
use crate::rated::eligible_at;
use crate::recorded::{Recorded, by_name, records_in};
use index::Index;
use pins::Prefs;
use status_text::StatusRecord;
use std::alloc::{AllocError, Global};

// The records of the name.
fn records_named<'s, 'a>(recorded: Vec<Recorded<'s, 'a>>, name: &[u8]) -> Vec<Recorded<'s, 'a>>
    ensures { result.items ≡ filter (is_named name.now) recorded.entry.items }
{
    let mut named = recorded;
    named.retain(|entry| entry.name() == name);
    named
}

/// The versions of the name that may be chosen by themselves, ascending and each once, with their priorities, over these
/// records of the start, whose names are distinct, and these indices: those with a priority above 0 that aren't lower than
/// the one that stands with a priority below 1000 (apt_preferences(5)). Linear in the records and the stanzas, of which the
/// names alone are looked at, and for the n stanzas of the name about n log n comparisons, and for each of its versions what
/// `Prefs::priority` costs. Memory alone can fail.
pub fn eligible<'a>(
    alloc: Global,
    start: &[&StatusRecord<'a>],
    indices: &[Index<'a>],
    prefs: &Prefs,
    name: &[u8],
) -> Result<Vec<Offer<'a>>, AllocError>
    requires { HasDistinctNames (records_of (map (λ r. r.now) start.now)) }
    ensures { (request : Request) → IfOk result (λ offers. AreEligibleOf
        (inputs_of (records_of (map (λ r. r.now) start.now))
        (indices_of indices.now) prefs.now request) name.now offers.items) }
{
    let named = records_named(records_in(alloc, start)?, name);
    let known = by_name(named)?;
    let places = sorted_named_places(alloc, indices, name)?;
    let ordered = in_order(alloc, places.as_slice())?;
    let offers = eligible_at(
        alloc,
        prefs,
        known.as_slice(),
        places.as_slice(),
        ordered.as_slice(),
    )?;
    Ok(offers)
}

/// The candidate of the name with its priority, if it has one, over these records of the start, whose names are distinct,
/// and these indices (apt_preferences(5)): of the versions that `eligible` answers the one that is to be chosen first. It
/// costs what `eligible` costs. Memory alone can fail.
pub fn candidate<'a>(
    alloc: Global,
    start: &[&StatusRecord<'a>],
    indices: &[Index<'a>],
    prefs: &Prefs,
    name: &[u8],
) -> Result<Option<Offer<'a>>, AllocError>
    requires { HasDistinctNames (records_of (map (λ r. r.now) start.now)) }
    ensures { (request : Request) → IfOk result (λ offer. IsCandidateOf
        (inputs_of (records_of (map (λ r. r.now) start.now))
        (indices_of indices.now) prefs.now request) name.now offer) }
{
    let offers = eligible(alloc, start, indices, prefs, name)?;
    match candidate_of(offers.as_slice()) {
        None => Ok(None),
        Some(offer) => Ok(Some(offer.again())),
    }
}
