// Which version of a name is chosen first: what stands, else the candidate, else the one of the higher priority, and of
// several with one priority the later (apt_preferences(5)). This is advice, of which no contract speaks.

use reach::Part;
use std::alloc::{AllocError, Global};
use std::cmp::Ordering;
use universe::Pair;

/// Whether the pair is of the version that stands.
pub(crate) fn stands(pair: &Pair<'_, '_>) -> bool {
    pair.standing_pkg().is_some()
}

fn is_candidate(part: &Part<'_, '_, '_>, pair: &Pair<'_, '_>) -> bool {
    match part.candidate(pair.name()) {
        None => false,
        Some(version) => pair.version() == *version,
    }
}

// The order of two pairs of one name: the one to choose first is less.
fn choice_cmp(part: &Part<'_, '_, '_>, pair: &Pair<'_, '_>, other: &Pair<'_, '_>) -> Ordering {
    let by_standing = stands(other).cmp(&stands(pair));
    let by_candidate = is_candidate(part, other).cmp(&is_candidate(part, pair));
    let by_priority = other.priority().cmp(&pair.priority());
    let by_version = other.version().cmp(&pair.version());
    by_standing
        .then(by_candidate)
        .then(by_priority)
        .then(by_version)
}

// The order of the pairs at two places: by name, and of one name the one to choose first is less.
fn place_cmp(part: &Part<'_, '_, '_>, place: usize, other: usize) -> Ordering {
    match (part.pairs().get(place), part.pairs().get(other)) {
        (Some(pair), Some(beside)) => match pair.name().cmp(beside.name()) {
            Ordering::Equal => choice_cmp(part, pair, beside),
            decided => decided,
        },
        _ => place.cmp(&other),
    }
}

/// The places of the pairs of a part in the order of their names, and of one name the one to choose first in front. Memory
/// alone can fail. About n log n comparisons of n pairs, and about n where no name has several versions that don't stand.
pub(crate) fn in_order_of_choice(
    alloc: Global,
    part: &Part<'_, '_, '_>,
) -> Result<Vec<usize>, AllocError> {
    let mut places: Vec<usize> = (0..part.pairs().len()).collect(alloc)?;
    places.sort_by(|place, other| place_cmp(part, *place, *other))?;
    Ok(places)
}
