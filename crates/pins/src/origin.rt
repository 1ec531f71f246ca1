// A place that a version comes from, and what it has.

ghost use Rattle.std.specs.Prelude.{◌≡◌};
ghost use Rattle.std.specs.Option.{option_copied};
ghost use Rattle.std.specs.Str.{bytes_eq};
ghost use Rattle.rules.specs.Priority as Priority;
ghost use Rattle.rules.specs.Priority.{has_value, status_origin};
ghost use Rattle.pins.specs.Origin.{release_origin};

use crate::words::same_text;
use rules::{Release, ReleaseKey, Text};
use std::marker::Model;

#[derive(Clone, Copy)]
enum Place<'p> {
    StatusFile,
    Index(&'p Release),
}

/// A place that a version comes from: the status file or an index.
#[derive(Drop)]
pub struct Origin<'p> {
    place: Place<'p>,
}

impl<'p> Model for Origin<'p> {
    ghost use Rattle.rules.specs.Priority.{Origin as OriginValue};
    ghost use Rattle.pins.specs.Origin.{origin_at};

    ghost Value = { OriginValue };

    ghost view = { λ origin. origin_at origin.place };
}

fn has_value(value: &Option<Text>, text: &[u8]) -> bool
    ensures { result ≡ has_value value.now text.now }
{
    match value {
        None => false,
        Some(value) => same_text(value.as_bytes(), text),
    }
}

fn has_key(release: &Release, key: ReleaseKey, value: &[u8]) -> bool
    ensures { result ≡ Priority.has_key release.now key value.now }
{
    match key {
        ReleaseKey::Archive => {
            has_value(&release.archive, value) || has_value(&release.suite, value)
        }
        ReleaseKey::Codename => has_value(&release.codename, value),
        ReleaseKey::Version => has_value(&release.version, value),
        ReleaseKey::Component => has_value(&release.component, value),
        ReleaseKey::Origin => has_value(&release.origin, value),
        ReleaseKey::Label => has_value(&release.label, value),
    }
}

fn is_target(target: Option<&[u8]>, release: &Release) -> bool
    ensures { result ≡ Priority.is_target (option_copied target.entry) release.now }
{
    match target {
        None => false,
        Some(target) => {
            has_value(&release.archive, target)
                || has_value(&release.suite, target)
                || has_value(&release.codename, target)
                || has_value(&release.version, target)
        }
    }
}

// The priority that an index gives the versions that no record speaks of, unless it is of the target release.
fn default_priority(release: &Release) -> i32
    ensures { result ≡ Priority.default_priority release.now }
{
    if !release.not_automatic {
        500
    } else if release.but_automatic_upgrades {
        100
    } else {
        1
    }
}

impl<'p> Origin<'p> {
    /// The status file. A version comes from it where it stands.
    pub fn status_file() -> Origin<'p>
        ensures { result ≡ status_origin }
    {
        Origin {
            place: Place::StatusFile,
        }
    }

    /// An index with these release keys.
    pub fn index(release: &'p Release) -> Origin<'p>
        ensures { result ≡ release_origin release.now }
    {
        Origin {
            place: Place::Index(release),
        }
    }

    /// Whether it has this value for the key of a release pin. The status file has no keys.
    pub(crate) fn has_key(&self, key: ReleaseKey, value: &[u8]) -> bool
        ensures { result ≡ Priority.has_key self.now.release key value.now }
    {
        match self.place {
            Place::StatusFile => false,
            Place::Index(release) => has_key(release, key, value),
        }
    }

    /// Whether it came from this site. The status file came from the empty one.
    pub(crate) fn has_host(&self, host: &[u8]) -> bool
        ensures { result ≡ bytes_eq self.now.release.host host.now }
    {
        match self.place {
            Place::StatusFile => host.is_empty(),
            Place::Index(release) => same_text(release.host.as_bytes(), host),
        }
    }

    /// Whether it is of the target release.
    pub(crate) fn is_target(&self, target: Option<&[u8]>) -> bool
        ensures { result ≡ Priority.is_target (option_copied target.entry) self.now.release }
    {
        match self.place {
            Place::StatusFile => false,
            Place::Index(release) => is_target(target, release),
        }
    }

    /// The priority that it gives by default.
    pub(crate) fn by_default(&self) -> i32
        ensures { result ≡ self.now.by_default }
    {
        match self.place {
            Place::StatusFile => 100,
            Place::Index(release) => default_priority(release),
        }
    }
}
