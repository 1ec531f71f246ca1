// Whether a record of the preferences matches a version that there is (apt_preferences(5)).
ghost use Rattle.std.specs.Prelude.{◌≡◌, ◌&&◌, Some, bytes_eq, true};
ghost use Rattle.std.specs.List.{list_all, list_any};
ghost use Rattle.rules.specs.Available.{same_version};
ghost use Rattle.rules.specs.Database.{stands};
ghost use Rattle.rules.specs.Priority as Priority;
ghost use Rattle.rules.specs.Priority.{status_origin};
ghost use Rattle.input_notes.specs.Idle as Spec;
ghost use Rattle.input_notes.specs.Pinned.{takes_place, takes_version};

use debversion::Version;
use index::{Index, IndexEntry};
use rules::{
    Name, Pin, PinnedNames, Preference, Release, ReleaseItem, ReleaseKey, Text, VersionText,
};
use status_text::StatusRecord;

// Whether the key is there with this value.
fn has_value(key: &Option<Text>, value: &[u8]) -> bool
    ensures { result ≡ Priority.has_value key.now value.now }
{
    match key {
        Some(text) => text.as_bytes() == value,
        None => false,
    }
}

// Whether the release has the value for the key.
fn has_key(release: &Release, key: ReleaseKey, value: &[u8]) -> bool
    ensures { result ≡ Priority.has_key release.now key value.now }
{
    match key {
        ReleaseKey::Archive => {
            has_value(&release.archive, value) || has_value(&release.suite, value)
        }
        ReleaseKey::Codename => has_value(&release.codename, value),
        ReleaseKey::Version => has_value(&release.version, value),
        ReleaseKey::Component => has_value(&release.component, value),
        ReleaseKey::Origin => has_value(&release.origin, value),
        ReleaseKey::Label => has_value(&release.label, value),
    }
}

// Whether the release has what all of the items ask for.
fn has_items(release: &Release, items: &[ReleaseItem]) -> bool
    ensures { result
        ≡ list_all (λ item. Priority.has_key release.now item.key item.value) items.now }
{
    items
        .iter()
        .all(|item| has_key(release, item.key, item.value.as_bytes()))
}

fn is_host(release: &Release, host: &[u8]) -> bool
    ensures { result ≡ bytes_eq release.now.host host.now }
{
    release.host.as_bytes() == host
}

/// Whether the pin may match versions in an index with these release keys.
pub(crate) fn takes_release(pin: &Pin, release: &Release) -> bool
    ensures { result ≡ takes_place pin.now release.now }
{
    match pin {
        Pin::VersionBeginning(_) => true,
        Pin::Version(_) => true,
        Pin::Release(items) => has_items(release, items.as_slice()),
        Pin::Origin(host) => is_host(release, host.as_bytes()),
    }
}

// Whether the status file, which has no release keys, has what all of the items ask for: there are none then.
#[tactic(auto, using(crate::proofs::PinLemmas::status_lacks_some))]
fn are_none(items: &[ReleaseItem]) -> bool
    ensures { result ≡ list_all
        (λ item. Priority.has_key status_origin.release item.key item.value) items.now }
{
    match items {
        [] => true,
        _ => false,
    }
}

/// Whether the pin may match versions of the status file, which has the empty host and no other key.
pub(crate) fn takes_status(pin: &Pin) -> bool
    ensures { result ≡ takes_place pin.now status_origin.release }
{
    match pin {
        Pin::VersionBeginning(_) => true,
        Pin::Version(_) => true,
        Pin::Release(items) => are_none(items.as_slice()),
        Pin::Origin(host) => host.as_bytes().is_empty(),
    }
}

fn is_version(version: &Version<'_>, pinned: &VersionText) -> bool
    ensures { result ≡ same_version version.now pinned.now }
{
    match Version::parse(pinned.as_bytes()) {
        Ok(pinned) => *version == pinned,
        Err(_) => unreachable!(),
    }
}

/// Whether the pin matches this version in each place that it takes versions from.
pub(crate) fn takes_version(pin: &Pin, version: &Version<'_>) -> bool
    ensures { result ≡ takes_version pin.now version.now }
{
    match pin {
        Pin::VersionBeginning(beginning) => version.text().starts_with(beginning.as_bytes()),
        Pin::Version(pinned) => is_version(version, pinned),
        Pin::Release(_) => true,
        Pin::Origin(_) => true,
    }
}

fn is_text(text: &[u8], other: &[u8]) -> bool
    ensures { result ≡ bytes_eq text.now other.now }
{
    text == other
}

/// Whether the name is one of these.
pub(crate) fn is_among(names: &[Name], name: &[u8]) -> bool
    ensures { result ≡ list_any (bytes_eq name.now) names.now }
{
    names.iter().any(|listed| is_text(name, listed.as_bytes()))
}

// Whether the name is one of them.
fn takes_name(names: &PinnedNames, name: &[u8]) -> bool
    ensures { result ≡ Spec.is_for names.now name.now }
{
    match names {
        PinnedNames::Every => true,
        PinnedNames::Listed(names) => is_among(names.as_slice(), name),
    }
}

// Whether the record matches the version of this stanza, as far as its name and its version say.
fn takes_entry(preference: &Preference, entry: &IndexEntry<'_>) -> bool
    ensures { result ≡ (Spec.is_for preference.now.names entry.now.pkg.name
        && takes_version preference.now.pin entry.now.pkg.version) }
{
    takes_name(&preference.names, entry.name()) && takes_version(&preference.pin, &entry.version())
}

// Whether it does so of one of these stanzas.
fn takes_entries(preference: &Preference, entries: &[IndexEntry<'_>]) -> bool
    ensures { result ≡ list_any (λ listed. Spec.is_for preference.now.names listed.pkg.name
        && takes_version preference.now.pin listed.pkg.version) entries.now }
{
    entries.iter().any(|entry| takes_entry(preference, entry))
}

// Whether the record matches a version in the index.
#[tactic(auto, using(crate::proofs::PinLemmas::stanzas_parts))]
fn takes_index(preference: &Preference, index: &Index<'_>) -> bool
    ensures { result
        ≡ list_any (Spec.matches_stanza preference.now index.now.index.release)
        index.now.index.listed }
{
    takes_release(&preference.pin, index.release()) && takes_entries(preference, index.packages())
}

// Whether the record matches a version in one of the indices.
fn takes_indices(preference: &Preference, indices: &[Index<'_>]) -> bool
    ensures { result ≡ list_any (λ read.
        list_any (Spec.matches_stanza preference.now read.index.release) read.index.listed)
        indices.now }
{
    indices.iter().any(|index| takes_index(preference, index))
}

// Whether the pin matches this version in the status file.
#[tactic(auto, using(crate::proofs::PinLemmas::pin_parts))]
fn takes_installed(pin: &Pin, version: &Version<'_>) -> bool
    ensures { result ≡ Priority.pin_matches pin.now version.now status_origin.release }
{
    takes_status(pin) && takes_version(pin, version)
}

// The version of the package, which stands.
fn standing_version<'r, 'a>(entry: &'r StatusRecord<'a>) -> &'r Version<'a>
    requires { stands entry.now.status ≡ true }
    ensures { result.now ≡ entry.now.status.version }
{
    // What stands has a version, as its stanza was read.
    let _origin = entry.origin();
    match entry.version() {
        Some(version) => version,
        None => unreachable!(),
    }
}

// Whether the record of the preferences matches the version of the package, which stands.
fn takes_standing(preference: &Preference, entry: &StatusRecord<'_>) -> bool
    requires { stands entry.now.status ≡ true }
    ensures { result ≡ Spec.matches_record preference.now entry.now.status }
{
    takes_name(&preference.names, entry.name())
        && takes_installed(&preference.pin, standing_version(entry))
}

// Whether the record of the preferences matches the version that stands of this package, if one does.
fn takes_record(preference: &Preference, entry: &StatusRecord<'_>) -> bool
    ensures { result ≡ (stands entry.now.status
        && Spec.matches_record preference.now entry.now.status) }
{
    entry.stands() && takes_standing(preference, entry)
}

// Whether the record of the preferences matches a version that stands.
fn takes_records(preference: &Preference, records: &[&StatusRecord<'_>]) -> bool
    ensures { result ≡ list_any (λ entry. stands entry.now.status
        && Spec.matches_record preference.now entry.now.status) records.now }
{
    records
        .iter()
        .any(|record| takes_record(preference, record))
}

/// Whether the record of the preferences matches a version that stands or that an index has. Linear in the records and in the
/// stanzas, for each name of the record.
pub(crate) fn has_effect(
    preference: &Preference,
    records: &[&StatusRecord<'_>],
    indices: &[Index<'_>],
) -> bool
    ensures { result ≡ Spec.matches_some records.now indices.now preference.now }
{
    takes_records(preference, records) || takes_indices(preference, indices)
}

// Whether a package of one of the names stands.
fn is_standing(names: &PinnedNames, records: &[&StatusRecord<'_>]) -> bool
    ensures { result ≡ list_any (λ entry. stands entry.now.status
        && Spec.is_for names.now entry.now.status.name) records.now }
{
    records.iter().any(|record| record.stands() && takes_name(names, record.name()))
}

// Whether a stanza of the index has one of the names.
fn index_has(names: &PinnedNames, index: &Index<'_>) -> bool
    ensures { result ≡ list_any (λ listed. Spec.is_for names.now listed.pkg.name)
        index.now.index.listed }
{
    index
        .packages()
        .iter()
        .any(|entry| takes_name(names, entry.name()))
}

// Whether a stanza of one of the indices has one of the names.
fn is_listed(names: &PinnedNames, indices: &[Index<'_>]) -> bool
    ensures { result ≡ list_any (λ read.
        list_any (λ listed. Spec.is_for names.now listed.pkg.name) read.index.listed) indices.now }
{
    indices.iter().any(|index| index_has(names, index))
}

/// Whether a stanza of the indices has one of the names, or a package of one of them stands. Linear as `has_effect` is.
pub(crate) fn is_known(
    names: &PinnedNames,
    records: &[&StatusRecord<'_>],
    indices: &[Index<'_>],
) -> bool
    ensures { result ≡ Spec.is_known records.now indices.now names.now }
{
    is_standing(names, records) || is_listed(names, indices)
}

/// Whether the target release is one that the index is of.
pub(crate) fn is_of_target(release: &Release, target: &[u8]) -> bool
    ensures { result ≡ Priority.is_target (Some target.now) release.now }
{
    has_value(&release.archive, target)
        || has_value(&release.suite, target)
        || has_value(&release.codename, target)
        || has_value(&release.version, target)
}
