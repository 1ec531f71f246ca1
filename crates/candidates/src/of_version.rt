// The priority of one version of a name.

ghost use Rattle.std.specs.Prelude.{◌≡◌, IfOk, is_some, map};
ghost use Rattle.std.specs.List.{find};
ghost use Rattle.rules.specs.Available.{Request};
ghost use Rattle.rules.specs.Database.{HasDistinctNames};
ghost use Rattle.rules.specs.FileRecord.{records_of};
ghost use Rattle.rules.specs.Step.{is_named};
ghost use Rattle.candidates.specs.Candidates.{IsPriorityOf};
ghost use Rattle.candidates.specs.Inputs.{indices_of, inputs_of};
ghost use Rattle.candidates.specs.Rated.{IsPriorityFrom, kept_among, origins_with};
ghost use Rattle.candidates.specs.Recorded.{standing_version};

use crate::place::{Place, version_places};
use crate::rated::origins_with;
use crate::recorded::{Recorded, records_in};
use debversion::Version;
use index::Index;
use pins::Prefs;
use status_text::StatusRecord;
use std::alloc::{AllocError, Global};

// The first record of the name.
fn record_named<'s, 'a>(recorded: Vec<Recorded<'s, 'a>>, name: &[u8]) -> Option<Recorded<'s, 'a>>
    ensures { result ≡ find (is_named name.now) recorded.entry.items }
{
    recorded.into_iter().find(|entry| entry.name() == name)
}

// The version of the name that stands, where it is this one.
fn standing_version<'a>(
    recorded: Vec<Recorded<'_, 'a>>,
    name: &[u8],
    version: &Version<'_>,
) -> Option<Version<'a>>
    ensures { result ≡ standing_version recorded.entry.items name.now version.now }
{
    match record_named(recorded, name) {
        None => None,
        Some(entry) => entry.standing_as(version),
    }
}

// The text of a version that is kept: that of what stands, or else that of its first place.
fn kept_among<'a>(standing: Option<Version<'a>>, places: &[Place<'_, 'a>]) -> Option<Version<'a>>
    ensures { result ≡ kept_among standing.entry places.now }
{
    match (standing, places) {
        (Some(version), _) => Some(version),
        (None, [first, ..]) => Some(first.version()),
        (None, []) => None,
    }
}

// The priority of a version that stands in this text or has these places, and none where it has neither.
fn priority_from<'a>(
    alloc: Global,
    prefs: &Prefs,
    name: &[u8],
    standing: Option<Version<'a>>,
    places: &[Place<'_, 'a>],
) -> Result<Option<i32>, AllocError>
    ensures { IfOk result
        (λ priority. IsPriorityFrom prefs.now name.now standing.entry places.now priority) }
{
    let origins = origins_with(alloc, standing.is_some(), places)?;
    match kept_among(standing, places) {
        None => Ok(None),
        Some(version) => Ok(prefs.priority(name, &version, origins.as_slice())),
    }
}

/// The priority of the version of the name, or none where the version isn't available, over these records of the start, whose
/// names are distinct, and these indices (apt_preferences(5)). The text that a pin looks at is the one that is kept: of what
/// stands, or else of the earliest stanza. Linear in the records and the stanzas, of which the names alone are looked at, and
/// what `Prefs::priority` costs. Memory alone can fail.
pub fn priority<'a>(
    alloc: Global,
    start: &[&StatusRecord<'a>],
    indices: &[Index<'a>],
    prefs: &Prefs,
    name: &[u8],
    version: &Version<'_>,
) -> Result<Option<i32>, AllocError>
    requires { HasDistinctNames (records_of (map (λ r. r.now) start.now)) }
    ensures { (request : Request) → IfOk result (λ priority. IsPriorityOf
        (inputs_of (records_of (map (λ r. r.now) start.now))
        (indices_of indices.now) prefs.now request) name.now version.now priority) }
{
    let standing = standing_version(records_in(alloc, start)?, name, version);
    let places = version_places(alloc, indices, name, version)?;
    let priority = priority_from(alloc, prefs, name, standing, places.as_slice())?;
    Ok(priority)
}
