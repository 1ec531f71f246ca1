// The priority of a version of a name, and the record of the preferences that gives it (apt_preferences(5)).

use crate::versions::{Listed, Place, Rated, deciding_record, general_record, priority_of};
use debversion::Version;
use index::Index;
use pins::Prefs;
use std::alloc::{AllocError, Global};

/// The priority of a version, and the record of the preferences that gives it, counted from 1, if one does.
#[derive(Clone, Copy)]
pub struct Rating {
    /// The priority.
    pub priority: i32,
    /// The number of the record.
    pub record: Option<usize>,
}

// The places that the version of the name comes from, beside the one that stands, if there is one.
fn places_of<'p, 'v>(
    alloc: Global,
    indices: &'p [Index<'_>],
    standing: Option<&Version<'_>>,
    name: &[u8],
    version: &Version<'v>,
) -> Result<Vec<Listed<'p, 'v>>, AllocError> {
    let mut places = Vec::new(alloc);
    if let Some(standing) = standing {
        if *standing == *version {
            let place = Place::StatusFile;
            places.push(Listed {
                version: version.again(),
                place,
            })?;
        }
    }
    for (number, index) in indices.iter().enumerate() {
        let place = Place::Index(number.saturating_add(1), index.release());
        for entry in index.packages() {
            if entry.name() == name && entry.version() == *version {
                places.push(Listed {
                    version: version.again(),
                    place,
                })?;
            }
        }
    }
    Ok(places)
}

// Whether the place by itself gives the version of the entry this priority.
fn gives(prefs: &Prefs, it: &Listed<'_, '_>, priority: i32) -> bool {
    match prefs.priority(b"", &it.version, &[it.place.origin()]) {
        Some(own) => own == priority,
        None => false,
    }
}

// The place of the record for every name by which the version has its priority, if it has it by one.
fn general_record_of(prefs: &Prefs, rated: &Rated<'_, '_, '_>) -> Option<usize> {
    let it = rated
        .places
        .iter()
        .find(|it| gives(prefs, *it, rated.priority))?;
    if it.place.is_of_target(prefs.target()) {
        return None;
    }
    general_record(prefs, &rated.version, &it.place)
}

// The number of the record by which the version has its priority, if it has it by one.
fn record_of(prefs: &Prefs, name: &[u8], rated: &Rated<'_, '_, '_>) -> Option<usize> {
    let place = match deciding_record(prefs, name, rated) {
        Some(place) => place,
        None => general_record_of(prefs, rated)?,
    };
    Some(place.saturating_add(1))
}

/// The priority of this version of the name, of which that one stands, if one does, and the record of the preferences that gives it: the
/// one for the name that decides, or else the one for every name by which a place gives the greatest priority. Memory alone can fail.
/// Linear in the stanzas of the indices, of which the names alone are looked at, and in the preferences for each place of the version.
pub fn rating_of(
    alloc: Global,
    indices: &[Index<'_>],
    prefs: &Prefs,
    standing: Option<&Version<'_>>,
    name: &[u8],
    version: &Version<'_>,
) -> Result<Rating, AllocError> {
    let places = places_of(alloc, indices, standing, name, version)?;
    let priority = priority_of(alloc, prefs, name, version, places.as_slice())?;
    let rated = Rated {
        version: version.again(),
        places: places.as_slice(),
        priority,
    };
    let record = record_of(prefs, name, &rated);
    Ok(Rating { priority, record })
}
