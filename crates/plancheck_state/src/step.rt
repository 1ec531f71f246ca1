// What an action leaves of the record of its package (dpkg(1)).

ghost use Rattle.std.specs.Prelude.{◌≡◌, true};
ghost use Rattle.rules.specs.Database.{IsPresent};
ghost use Rattle.rules.specs.State.{is_present_state};
ghost use Rattle.rules.specs.Step.{configured, deconfigured, is_named, kept_config_version, last_configured, removed};

use crate::package_record::StateRecord;
use debversion::Version;
use rules::{State, Want};

impl<'p, 'a> StateRecord<'p, 'a> {
    // The record in this state, with its version as the one configured last.
    fn with_state(&self, state: State) -> StateRecord<'p, 'a>
        requires present { IsPresent self.now }
        requires settled { is_present_state state ≡ true }
        ensures { result
            ≡ record self.now { state = state; config_version = Some self.now.version } }
    {
        match self.present_pkg() {
            Some(pkg) => StateRecord::present(
                pkg,
                state,
                self.want(),
                self.flag(),
                Some(pkg.version().again()),
                self.is_essential(),
            ),
            None => unreachable!(),
        }
    }

    /// The record once its package is configured.
    pub(crate) fn after_configure(&self) -> StateRecord<'p, 'a>
        requires { IsPresent self.now }
        ensures { result ≡ configured self.now }
    {
        self.with_state(State::Installed)
    }

    /// The record once its package is deconfigured.
    pub(crate) fn after_deconfigure(&self) -> StateRecord<'p, 'a>
        requires { IsPresent self.now }
        ensures { result ≡ deconfigured self.now }
    {
        self.with_state(State::HalfConfigured)
    }

    /// The version that was configured last: of an installed package, and of one in a trigger state, its version.
    pub fn last_configured(&self) -> Option<Version<'a>>
        requires { IsPresent self.now }
        ensures { result ≡ last_configured self.now }
    {
        match (self.present_pkg(), self.config_version()) {
            (Some(pkg), _) if self.state().has_configured_version() => Some(pkg.version().again()),
            (_, Some(version)) => Some(version.again()),
            (_, None) => None,
        }
    }

    /// The config version of what is unpacked over the record.
    pub(crate) fn kept_config_version(&self) -> Option<Version<'a>>
        ensures { result ≡ kept_config_version self.now }
    {
        if self.state().is_unconfigured() || self.state().is_installed() {
            self.last_configured()
        } else {
            None
        }
    }

    /// The record once its package is removed.
    pub(crate) fn after_remove(&self) -> StateRecord<'p, 'a>
        requires { IsPresent self.now }
        ensures { result ≡ removed self.now }
    {
        match self.present_pkg() {
            Some(pkg) => StateRecord::absent(
                pkg.name(),
                State::ConfigFiles,
                Want::Deinstall,
                self.flag(),
                Some(pkg.version().again()),
                self.last_configured(),
                self.is_essential(),
            ),
            None => unreachable!(),
        }
    }
}

/// Whether the record is of the name.
pub(crate) fn is_named(name: &[u8], entry: &StateRecord<'_, '_>) -> bool
    ensures { result ≡ is_named name.now entry.now }
{
    entry.name() == name
}
