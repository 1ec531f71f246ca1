//! The words of the field Status (dpkg(1), "Package states").
ghost use Rattle.std.specs.Prelude.{◌≡◌};
ghost use Rattle.rules.specs.Stanza as Spec;

use rules::{Flag, State, Want};

/// The word of a want.
pub fn want_word(want: Want) -> &'static [u8]
    ensures { result.now ≡ Spec.want_word want }
{
    match want {
        Want::Unknown => b"unknown",
        Want::Install => b"install",
        Want::Hold => b"hold",
        Want::Deinstall => b"deinstall",
        Want::Purge => b"purge",
    }
}

/// The word of a flag.
pub fn flag_word(flag: Flag) -> &'static [u8]
    ensures { result.now ≡ Spec.flag_word flag }
{
    match flag {
        Flag::Ok => b"ok",
        Flag::ReinstallRequired => b"reinstreq",
    }
}

/// The word of a state.
pub fn state_word(state: State) -> &'static [u8]
    ensures { result.now ≡ Spec.state_word state }
{
    match state {
        State::NotInstalled => b"not-installed",
        State::ConfigFiles => b"config-files",
        State::HalfInstalled => b"half-installed",
        State::Unpacked => b"unpacked",
        State::HalfConfigured => b"half-configured",
        State::TriggersAwaited => b"triggers-awaited",
        State::TriggersPending => b"triggers-pending",
        State::Installed => b"installed",
    }
}
