// What is known of an index and of the preferences of the administrator (apt_preferences(5)).
ghost use Rattle.std.specs.Prelude.{◌≡◌, None, false};

use crate::name::Name;
use crate::text::{Items, Text};
use crate::version_text::VersionText;

/// The release keys of an index. A key that is absent is matched by no release pin.
#[derive(Drop)]
pub struct Release {
    /// `Archive`
    pub archive: Option<Text>,
    /// `Suite`
    pub suite: Option<Text>,
    /// `Codename`
    pub codename: Option<Text>,
    /// `Version`
    pub version: Option<Text>,
    /// `Component`
    pub component: Option<Text>,
    /// `Origin`
    pub origin: Option<Text>,
    /// `Label`
    pub label: Option<Text>,
    /// The site that the index came from; empty where none is known.
    pub host: Text,
    /// `NotAutomatic: yes`
    pub not_automatic: bool,
    /// `ButAutomaticUpgrades: yes`
    pub but_automatic_upgrades: bool,
}

impl Release {
    /// The release keys of an index of which no more is known than the site that it came from. Takes no memory.
    pub fn without_keys(host: Text) -> Release
        ensures { result ≡ record {
          archive = None;
          suite = None;
          codename = None;
          version = None;
          component = None;
          origin = None;
          label = None;
          host = host;
          not_automatic = false;
          but_automatic_upgrades = false;
        } }
    {
        Release {
            archive: None,
            suite: None,
            codename: None,
            version: None,
            component: None,
            origin: None,
            label: None,
            host,
            not_automatic: false,
            but_automatic_upgrades: false,
        }
    }
}

/// A key of a release pin.
#[derive(Clone, Copy, Eq, PartialEq)]
pub enum ReleaseKey {
    /// `a`: the archive or the suite.
    Archive,
    /// `n`: the codename.
    Codename,
    /// `v`: the version of the release.
    Version,
    /// `c`: the component.
    Component,
    /// `o`: the origin.
    Origin,
    /// `l`: the label.
    Label,
}

/// One `key=value` of a release pin.
#[derive(Drop)]
pub struct ReleaseItem {
    /// The key that is compared.
    pub key: ReleaseKey,
    /// The whole value that the key has to have.
    pub value: Text,
}

/// What the versions of a preferences record have in common.
#[derive(Drop)]
pub enum Pin {
    /// `version W*`: the text of the version begins so.
    VersionBeginning(Text),
    /// `version W`: the version equals this one.
    Version(VersionText),
    /// `release ..`: an index of the version has all of these.
    Release(Items<ReleaseItem>),
    /// `origin HOST`: an index of the version came from this site.
    Origin(Text),
}

/// The names that a preferences record speaks of.
#[derive(Drop)]
pub enum PinnedNames {
    /// `*`: every name that no record decides by itself.
    Every,
    /// These names.
    Listed(Items<Name>),
}

/// A record of the preferences file.
#[derive(Drop)]
pub struct Preference {
    /// The names that it speaks of.
    pub names: PinnedNames,
    /// The versions that it speaks of.
    pub pin: Pin,
    /// The priority that it gives them.
    pub priority: i32,
}
