// Which records speak of a version.

ghost use Rattle.std.specs.Prelude.{◌≡◌, ◌&&◌};
ghost use Rattle.std.specs.List.{list_all, list_any};
ghost use Rattle.std.specs.Option.{option_copied};
ghost use Rattle.std.specs.Str.{bytes_eq};
ghost use Rattle.rules.specs.Available.{same_version};
ghost use Rattle.rules.specs.Priority as Priority;

use crate::origin::Origin;
use crate::words::same_text;
use debversion::Version;
use rules::{Name, Pin, PinnedNames, Preference, ReleaseItem, VersionText};

fn is_version(version: &Version<'_>, pinned: &VersionText) -> bool
    ensures { result ≡ same_version version.now pinned.now }
{
    match Version::parse(pinned.as_bytes()) {
        Ok(pinned) => *version == pinned,
        Err(_) => unreachable!(),
    }
}

fn has_items(origin: &Origin<'_>, items: &[ReleaseItem]) -> bool
    ensures { result
        ≡ list_all (λ item. Priority.has_key origin.now.release item.key item.value) items.now }
{
    items
        .iter()
        .all(|item| origin.has_key(item.key, item.value.as_bytes()))
}

fn pin_matches(pin: &Pin, version: &Version<'_>, origin: &Origin<'_>) -> bool
    ensures { result ≡ Priority.pin_matches pin.now version.now origin.now.release }
{
    match pin {
        Pin::VersionBeginning(beginning) => version.text().starts_with(beginning.as_bytes()),
        Pin::Version(pinned) => is_version(version, pinned),
        Pin::Release(items) => has_items(origin, items.as_slice()),
        Pin::Origin(host) => origin.has_host(host.as_bytes()),
    }
}

fn is_listed(name: &[u8], names: &[Name]) -> bool
    ensures { result ≡ list_any (bytes_eq name.now) names.now }
{
    names
        .iter()
        .any(|listed| same_text(name, listed.as_bytes()))
}

fn names_it(name: &[u8], names: &PinnedNames) -> bool
    ensures { result ≡ Priority.names_it name.now names.now }
{
    match names {
        PinnedNames::Every => false,
        PinnedNames::Listed(names) => is_listed(name, names.as_slice()),
    }
}

fn names_all(names: &PinnedNames) -> bool
    ensures { result ≡ Priority.names_all names.now }
{
    match names {
        PinnedNames::Every => true,
        PinnedNames::Listed(_) => false,
    }
}

fn matches_one(pin: &Pin, version: &Version<'_>, origins: &[Origin<'_>]) -> bool
    ensures { result
        ≡ list_any (λ origin. Priority.pin_matches pin.now version.now origin.release) origins.now }
{
    origins
        .iter()
        .any(|origin| pin_matches(pin, version, origin))
}

fn decides(
    preference: &Preference,
    name: &[u8],
    version: &Version<'_>,
    origins: &[Origin<'_>],
) -> bool
    ensures { result ≡ (Priority.names_it name.now preference.now.names
        && list_any (λ origin.
        Priority.pin_matches preference.now.pin version.now origin.release) origins.now) }
{
    names_it(name, &preference.names) && matches_one(&preference.pin, version, origins)
}

fn is_general(preference: &Preference, version: &Version<'_>, origin: &Origin<'_>) -> bool
    ensures { result ≡ (Priority.names_all preference.now.names
        && Priority.pin_matches preference.now.pin version.now origin.now.release) }
{
    names_all(&preference.names) && pin_matches(&preference.pin, version, origin)
}

/// The first record that names the package and matches the version in one of its origins.
pub fn deciding_among<'r>(
    records: &'r [Preference],
    name: &[u8],
    version: &Version<'_>,
    origins: &[Origin<'_>],
) -> Option<&'r Preference>
    ensures { option_copied result
        ≡ Priority.deciding_among records.now name.now version.now origins.now }
{
    records
        .iter()
        .find(|preference| decides(preference, name, version, origins))
}

/// The first record for every name that matches the version in this origin.
pub fn general_among<'r>(
    records: &'r [Preference],
    version: &Version<'_>,
    origin: &Origin<'_>,
) -> Option<&'r Preference>
    ensures { option_copied result ≡ Priority.general_among records.now version.now origin.now }
{
    records
        .iter()
        .find(|preference| is_general(preference, version, origin))
}
