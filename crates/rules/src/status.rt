// The words of a status record (dpkg(1), "Package states").

/// What is wanted of a package: the first word of `Status`.
#[derive(Clone, Copy, Debug, Eq, PartialEq)]
pub enum Want {
    /// `unknown`
    Unknown,
    /// `install`
    Install,
    /// `hold`
    Hold,
    /// `deinstall`
    Deinstall,
    /// `purge`
    Purge,
}

/// Whether a package is to be installed again: the second word of `Status`.
#[derive(Clone, Copy, Debug, Eq, PartialEq)]
pub enum Flag {
    /// `ok`
    Ok,
    /// `reinstreq`
    ReinstallRequired,
}

/// How far a package is: the third word of `Status`.
#[derive(Clone, Copy, Debug, Eq, PartialEq)]
pub enum State {
    /// `not-installed`
    NotInstalled,
    /// `config-files`
    ConfigFiles,
    /// `half-installed`
    HalfInstalled,
    /// `unpacked`
    Unpacked,
    /// `half-configured`
    HalfConfigured,
    /// `triggers-awaited`
    TriggersAwaited,
    /// `triggers-pending`
    TriggersPending,
    /// `installed`
    Installed,
}

impl Want {
    ghost use Rattle.std.specs.Prelude.{◌≡◌};
    ghost use Rattle.rules.specs.State.{is_hold};

    /// Whether the package is held.
    pub fn is_hold(self) -> bool
        ensures { result ≡ is_hold self }
    {
        matches!(self, Want::Hold)
    }
}

impl Flag {
    ghost use Rattle.std.specs.Prelude.{◌≡◌};
    ghost use Rattle.rules.specs.State.{is_sound_flag};

    /// Whether the flag is ok.
    pub fn is_sound(self) -> bool
        ensures { result ≡ is_sound_flag self }
    {
        matches!(self, Flag::Ok)
    }
}

impl State {
    ghost use Rattle.std.specs.Prelude.{◌≡◌};
    ghost use Rattle.rules.specs.State.{has_configured_version, is_config_files_state, is_installed_state, is_not_installed_state, is_present_state, is_trigger_state, is_unconfigured_state, is_unfinished_state};

    /// Whether files of the package are there.
    pub fn is_present(self) -> bool
        ensures { result ≡ is_present_state self }
    {
        !matches!(self, State::NotInstalled | State::ConfigFiles)
    }

    /// Whether triggers are left to be processed: the package's own, or those of another that it awaits.
    pub fn is_trigger_state(self) -> bool
        ensures { result ≡ is_trigger_state self }
    {
        matches!(self, State::TriggersAwaited | State::TriggersPending)
    }

    /// Whether all files of the package are there and it isn't configured, or triggers are left to be processed.
    pub fn is_unconfigured(self) -> bool
        ensures { result ≡ is_unconfigured_state self }
    {
        matches!(self, State::Unpacked | State::HalfConfigured) || self.is_trigger_state()
    }

    /// Whether the package is installed.
    pub fn is_installed(self) -> bool
        ensures { result ≡ is_installed_state self }
    {
        matches!(self, State::Installed)
    }

    /// Whether the version is the one that was configured last.
    pub fn has_configured_version(self) -> bool
        ensures { result ≡ has_configured_version self }
    {
        self.is_installed() || self.is_trigger_state()
    }

    /// Whether something is left to be done.
    pub fn is_unfinished(self) -> bool
        ensures { result ≡ is_unfinished_state self }
    {
        matches!(self, State::HalfInstalled) || self.is_unconfigured()
    }

    /// Whether configuration files alone are left.
    pub fn is_removed(self) -> bool
        ensures { result ≡ is_config_files_state self }
    {
        matches!(self, State::ConfigFiles)
    }

    /// Whether nothing of the package is there.
    pub fn is_not_installed(self) -> bool
        ensures { result ≡ is_not_installed_state self }
    {
        matches!(self, State::NotInstalled)
    }
}
