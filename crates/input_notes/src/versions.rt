// The versions of a name as a table: each with its priority, what gives it that, and where it comes from (apt_preferences(5)). It has
// the form of that of `apt-cache policy`.

use crate::pinned::{is_among, is_of_target, takes_release, takes_status, takes_version};
use crate::words::push_word;
use debversion::Version;
use index::Index;
use phrases::{push_count, push_priority};
use pins::{Origin, Prefs};
use rules::{Pin, PinnedNames, Preference, Release, Text};
use status_text::StatusRecord;
use std::alloc::{AllocError, Global};

// A place that a version comes from: the status file, or the index of a number, counted from 1.
#[derive(Clone, Copy)]
pub(crate) enum Place<'p> {
    StatusFile,
    Index(usize, &'p Release),
}

impl<'p> Place<'p> {
    pub(crate) fn origin(&self) -> Origin<'p> {
        match self {
            Place::StatusFile => Origin::status_file(),
            Place::Index(_, release) => Origin::index(*release),
        }
    }

    fn is_status_file(&self) -> bool {
        match self {
            Place::StatusFile => true,
            Place::Index(..) => false,
        }
    }

    // Whether the pin may speak of versions that come from here.
    fn is_taken_by(&self, pin: &Pin) -> bool {
        match self {
            Place::StatusFile => takes_status(pin),
            Place::Index(_, release) => takes_release(pin, *release),
        }
    }

    pub(crate) fn is_of_target(&self, target: Option<&[u8]>) -> bool {
        match (self, target) {
            (Place::Index(_, release), Some(target)) => is_of_target(*release, target),
            _ => false,
        }
    }
}

// A version, at one of the places that it comes from.
#[derive(Drop)]
pub(crate) struct Listed<'p, 'a> {
    pub(crate) version: Version<'a>,
    pub(crate) place: Place<'p>,
}

// The versions of the name at all places that they come from, ascending; of one version the status file is first, and then the indices
// in their order.
fn listed_of<'p, 'a>(
    alloc: Global,
    records: &[&StatusRecord<'a>],
    indices: &'p [Index<'a>],
    name: &[u8],
) -> Result<Vec<Listed<'p, 'a>>, AllocError> {
    let mut listed = Vec::new(alloc);
    for record in records {
        if let (true, Some(version)) = (
            record.stands() && record.name() == name,
            record.version(),
        ) {
            let version = version.again();
            let place = Place::StatusFile;
            listed.push(Listed { version, place })?;
        }
    }
    for (number, index) in indices.iter().enumerate() {
        let place = Place::Index(number.saturating_add(1), index.release());
        for entry in index.packages() {
            if entry.name() == name {
                let version = entry.version();
                listed.push(Listed { version, place })?;
            }
        }
    }
    listed.sort_by_key(|it| it.version.again())?;
    Ok(listed)
}

// A version with all places that it comes from, and its priority.
#[derive(Drop)]
pub(crate) struct Rated<'l, 'p, 'a> {
    pub(crate) version: Version<'a>,
    pub(crate) places: &'l [Listed<'p, 'a>],
    pub(crate) priority: i32,
}

impl<'l, 'p, 'a> Rated<'l, 'p, 'a> {
    fn stands(&self) -> bool {
        self.places.iter().any(|it| it.place.is_status_file())
    }
}

// The priority of the version that comes from these places.
pub(crate) fn priority_of(
    alloc: Global,
    prefs: &Prefs,
    name: &[u8],
    version: &Version<'_>,
    places: &[Listed<'_, '_>],
) -> Result<i32, AllocError> {
    let mut origins = Vec::new(alloc);
    for it in places {
        origins.push(it.place.origin())?;
    }
    match prefs.priority(name, version, origins.as_slice()) {
        Some(priority) => Ok(priority),
        None => Ok(0),
    }
}

// The versions with their priorities, ascending.
fn rated_of<'l, 'p, 'a>(
    alloc: Global,
    prefs: &Prefs,
    name: &[u8],
    listed: &'l [Listed<'p, 'a>],
) -> Result<Vec<Rated<'l, 'p, 'a>>, AllocError> {
    let mut rated = Vec::new(alloc);
    for places in listed.chunk_by(|one, next| one.version == next.version) {
        if let [first, ..] = places {
            let version = first.version.again();
            let priority = priority_of(alloc, prefs, name, &version, places)?;
            rated.push(Rated {
                version,
                places,
                priority,
            })?;
        }
    }
    Ok(rated)
}

fn names_it(preference: &Preference, name: &[u8]) -> bool {
    match &preference.names {
        PinnedNames::Every => false,
        PinnedNames::Listed(names) => is_among(names.as_slice(), name),
    }
}

fn names_all(preference: &Preference) -> bool {
    match preference.names {
        PinnedNames::Every => true,
        PinnedNames::Listed(_) => false,
    }
}

// The place of the first record for the name that matches the version at one of the places.
pub(crate) fn deciding_record(
    prefs: &Prefs,
    name: &[u8],
    rated: &Rated<'_, '_, '_>,
) -> Option<usize> {
    prefs.records().iter().position(|preference| {
        names_it(preference, name)
            && takes_version(&preference.pin, &rated.version)
            && rated
                .places
                .iter()
                .any(|it| it.place.is_taken_by(&preference.pin))
    })
}

// The place of the first record for every name that matches the version at the place.
pub(crate) fn general_record(
    prefs: &Prefs,
    version: &Version<'_>,
    place: &Place<'_>,
) -> Option<usize> {
    prefs.records().iter().position(|preference| {
        names_all(preference)
            && takes_version(&preference.pin, version)
            && place.is_taken_by(&preference.pin)
    })
}

fn push_record(text: &mut Vec<u8>, place: usize) -> Result<(), AllocError> {
    text.extend_from_slice(b", by record ")?;
    push_count(text, place.saturating_add(1))?;
    text.extend_from_slice(b" of the preferences")
}

// The first of these values that is there.
fn first_of<'t>(values: [&'t Option<Text>; 3]) -> Option<&'t Text> {
    let [one, two, three] = values;
    match (one, two, three) {
        (Some(value), _, _) => Some(value),
        (None, Some(value), _) => Some(value),
        (None, None, Some(value)) => Some(value),
        (None, None, None) => None,
    }
}

// Writes of what release the index is, and what site it came from, as far as that is known.
fn push_release(text: &mut Vec<u8>, release: &Release) -> Result<(), AllocError> {
    if let Some(suite) = first_of([&release.suite, &release.archive, &release.codename]) {
        text.extend_from_slice(b", ")?;
        push_word(text, suite.as_bytes())?;
        if let Some(component) = &release.component {
            text.extend_from_slice(b"/")?;
            push_word(text, component.as_bytes())?;
        }
    }
    if !release.host.as_bytes().is_empty() {
        text.extend_from_slice(b", of ")?;
        push_word(text, release.host.as_bytes())?;
    }
    Ok(())
}

// Writes the place, with the priority that it gives the version, unless a record for the name decides.
fn push_place(
    text: &mut Vec<u8>,
    prefs: &Prefs,
    version: &Version<'_>,
    place: &Place<'_>,
) -> Result<(), AllocError> {
    text.extend_from_slice(b"        ")?;
    if let Some(priority) = prefs.priority(b"", version, &[place.origin()]) {
        push_priority(text, priority)?;
    }
    match place {
        Place::StatusFile => text.extend_from_slice(b" status file")?,
        Place::Index(number, release) => {
            text.extend_from_slice(b" index ")?;
            push_count(text, *number)?;
            push_release(text, *release)?;
        }
    }
    if place.is_of_target(prefs.target()) {
        text.extend_from_slice(b", of the target release")?;
    } else if let Some(record) = general_record(prefs, version, place) {
        push_record(text, record)?;
    }
    text.extend_from_slice(b"\n")
}

// Why the version may not be chosen, beside the one that stands, if there is one (apt_preferences(5)).
fn hindrance(rated: &Rated<'_, '_, '_>, standing: Option<&Version<'_>>) -> Option<&'static [u8]> {
    if rated.priority <= 0 {
        return Some(b": not chosen, since its priority is 0 or less");
    }
    match standing {
        Some(standing) if rated.priority < 1000 && rated.version < *standing => {
            Some(b": not chosen, since it is a downgrade with a priority below 1000")
        }
        _ => None,
    }
}

// Writes the version and its places.
fn push_version(
    text: &mut Vec<u8>,
    prefs: &Prefs,
    name: &[u8],
    rated: &Rated<'_, '_, '_>,
    standing: Option<&Version<'_>>,
) -> Result<(), AllocError> {
    text.extend_from_slice(if rated.stands() { b" *** " } else { b"     " })?;
    text.extend_from_slice(rated.version.text())?;
    text.extend_from_slice(b" ")?;
    push_priority(text, rated.priority)?;
    if let Some(record) = deciding_record(prefs, name, rated) {
        push_record(text, record)?;
    }
    if let Some(words) = hindrance(rated, standing) {
        text.extend_from_slice(words)?;
    }
    text.extend_from_slice(b"\n")?;
    for it in rated.places {
        push_place(text, prefs, &rated.version, &it.place)?;
    }
    Ok(())
}

// The versions that may be chosen beside the one that stands: how many there are, and how many have this priority.
fn counts_of(
    rated: &[Rated<'_, '_, '_>],
    standing: Option<&Version<'_>>,
    priority: i32,
) -> (usize, usize) {
    let mut all = 0usize;
    let mut with = 0usize;
    for it in rated {
        if hindrance(it, standing).is_none() {
            all = all.saturating_add(1);
            if it.priority == priority {
                with = with.saturating_add(1);
            }
        }
    }
    (all, with)
}

// Writes why the version is the candidate.
fn push_why(
    text: &mut Vec<u8>,
    rated: &[Rated<'_, '_, '_>],
    standing: Option<&Version<'_>>,
    candidate: &Rated<'_, '_, '_>,
) -> Result<(), AllocError> {
    text.extend_from_slice(b"  The candidate is ")?;
    text.extend_from_slice(candidate.version.text())?;
    let (all, with) = counts_of(rated, standing, candidate.priority);
    text.extend_from_slice(if all == 1 {
        b": no other version may be chosen.\n"
    } else if with == 1 {
        b": of the versions that may be chosen it has the greatest priority.\n"
    } else {
        b": of the versions with the greatest priority it is the highest.\n"
    })
}

fn standing_in<'r, 'l, 'p, 'a>(rated: &'r [Rated<'l, 'p, 'a>]) -> Option<&'r Rated<'l, 'p, 'a>> {
    rated.iter().find(|it| it.stands())
}

fn push_or_none(text: &mut Vec<u8>, version: Option<&[u8]>) -> Result<(), AllocError> {
    match version {
        Some(version) => text.extend_from_slice(version),
        None => text.extend_from_slice(b"(none)"),
    }
}

// Writes the table of these versions, of which the one with this text is the candidate.
fn push_table(
    text: &mut Vec<u8>,
    prefs: &Prefs,
    name: &[u8],
    rated: &[Rated<'_, '_, '_>],
    candidate: Option<&[u8]>,
) -> Result<(), AllocError> {
    let standing = standing_in(rated).map(|it| &it.version);
    push_word(text, name)?;
    text.extend_from_slice(b":\n  Installed: ")?;
    push_or_none(text, standing.map(|version| version.text()))?;
    text.extend_from_slice(b"\n  Candidate: ")?;
    push_or_none(text, candidate)?;
    text.extend_from_slice(b"\n  Version table:\n")?;
    for it in rated.iter().rev() {
        push_version(text, prefs, name, it, standing)?;
    }
    let Some(candidate) = candidate else {
        return Ok(());
    };
    match rated.iter().find(|it| it.version.text() == candidate) {
        Some(chosen) => push_why(text, rated, standing, chosen),
        None => Ok(()),
    }
}

/// The versions of the name as a table, highest first, or nothing where there is none: which is installed, which is the candidate (the
/// version with this text, if there is one) and why, and of each version its priority, the record of the preferences for its name that
/// gives it that, why it may not be chosen where that is so, and the places that it comes from, each with the priority that it gives by
/// itself. Memory alone can fail. Linear in the records of the status file and the stanzas of the indices, of which the names alone are
/// looked at; the n stanzas of the name are sorted, and each version costs a walk over the preferences for each of its places.
pub fn versions_of(
    alloc: Global,
    records: &[&StatusRecord<'_>],
    indices: &[Index<'_>],
    prefs: &Prefs,
    name: &[u8],
    candidate: Option<&[u8]>,
) -> Result<Vec<u8>, AllocError> {
    let mut text = Vec::new(alloc);
    let listed = listed_of(alloc, records, indices, name)?;
    let rated = rated_of(alloc, prefs, name, listed.as_slice())?;
    if !rated.as_slice().is_empty() {
        push_table(&mut text, prefs, name, rated.as_slice(), candidate)?;
    }
    Ok(text)
}
