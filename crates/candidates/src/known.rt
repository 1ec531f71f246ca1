// What the record of a name says, among records in the order of their names.

ghost use Rattle.std.specs.Prelude.{◌≡◌, false};
ghost use Rattle.std.specs.List.{find};
ghost use Rattle.std.specs.List.Sorted.{IsStrictlySortedBy};
ghost use Rattle.std.specs.Option.{option_and_then, option_copied, option_map_or};
ghost use Rattle.rules.specs.Name.{name_cmp};
ghost use Rattle.rules.specs.Step.{is_named};
ghost use Rattle.candidates.specs.Recorded.{is_free, is_recorded, record_cmp, standing_as, stands_above};

use crate::recorded::Recorded;
use debversion::Version;
use rules::name_cmp;
use std::cmp::Ordering;

// How the name of the record compares with a name.
fn order_to(entry: &Recorded<'_, '_>, name: &[u8]) -> Ordering
    ensures { result ≡ name_cmp entry.now.name name.now }
{
    name_cmp(entry.name(), name)
}

/// The record of the name. A binary search.
pub fn record_of<'k, 's, 'a>(
    known: &'k [Recorded<'s, 'a>],
    name: &[u8],
) -> Option<&'k Recorded<'s, 'a>>
    requires { IsStrictlySortedBy record_cmp known.now }
    ensures { option_copied result ≡ find (is_named name.now) known.now }
{
    match known.binary_search_by(|entry| order_to(entry, name)) {
        Ok(place) => known.get(place),
        Err(_) => None,
    }
}

/// Whether the version of the name doesn't stand and the name isn't held.
pub fn is_free(known: &[Recorded<'_, '_>], name: &[u8], version: &Version<'_>) -> bool
    requires { IsStrictlySortedBy record_cmp known.now }
    ensures { result ≡ is_free known.now name.now version.now }
{
    match record_of(known, name) {
        None => true,
        Some(entry) => !entry.stands_as(version) && !entry.is_held(),
    }
}

/// Whether the name is in a state other than not-installed.
pub fn is_recorded(known: &[Recorded<'_, '_>], name: &[u8]) -> bool
    requires { IsStrictlySortedBy record_cmp known.now }
    ensures { result ≡ is_recorded known.now name.now }
{
    match record_of(known, name) {
        None => false,
        Some(entry) => entry.is_recorded(),
    }
}

/// The version that the record stands in, where it is this one: the text may be another.
pub fn standing_in<'a>(
    recorded: Option<&Recorded<'_, 'a>>,
    version: &Version<'_>,
) -> Option<Version<'a>>
    ensures { result ≡ option_and_then (standing_as version.now) (option_copied recorded.entry) }
{
    match recorded {
        None => None,
        Some(entry) => entry.standing_as(version),
    }
}

/// Whether the version is lower than the one that the record stands in.
pub fn is_below(recorded: Option<&Recorded<'_, '_>>, version: &Version<'_>) -> bool
    ensures { result
        ≡ option_map_or (stands_above version.now) (option_copied recorded.entry) false }
{
    match recorded {
        None => false,
        Some(entry) => entry.stands_above(version),
    }
}
