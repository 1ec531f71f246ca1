//! The actions on a package that is there, by the text of its stanza (dpkg(1)).
ghost use Rattle.std.specs.Prelude.{◌≡◌, Some, true, IfOk, if◌then◌else◌};
ghost use Rattle.rules.specs.Database.{IsPresent};
ghost use Rattle.rules.specs.FileRecord.{touched_entry, written_config_version};
ghost use Rattle.rules.specs.Stanza.{lasting_fields, status_field, touched_fields};
ghost use Rattle.rules.specs.State.{is_trigger_state};
ghost use Rattle.rules.specs.Step.{last_configured, removed};
ghost use Rattle.status.specs.Action as Spec;
ghost use Rattle.status.specs.Action.{left_of};
ghost use Rattle.status.specs.declared.fields.LeftOut.TheVariants as left_outs;
ghost use Rattle.status_text.specs.Spelling.{fields_text, stanza_text};

use crate::fields::LeftOut;
use crate::write::push_fields;
use debversion::Version;
use rules::{State, Want};
use status_text::{Mark, StatusRecord};
use std::alloc::{AllocError, Global};

/// An action that changes the stanza of a package that is there.
#[derive(Clone, Copy)]
pub enum Action {
    /// The configuring is taken back.
    Deconfigure,
    /// The package is configured.
    Configure,
    /// The package is removed: its configuration files are left.
    Remove,
}

/// Whether the action starts from the record.
pub fn starts_from(action: Action, old: &StatusRecord<'_>) -> bool
    ensures { result ≡ Spec.starts_from action old.now.status }
{
    match action {
        Action::Deconfigure => old.is_installed(),
        Action::Configure => old.state().is_unconfigured() && old.flag().is_sound(),
        Action::Remove => old.state().is_present() && old.flag().is_sound(),
    }
}

// The version of a present record.
fn present_version<'a>(old: &StatusRecord<'a>) -> Version<'a>
    requires { IsPresent old.now.status }
    ensures { result ≡ old.now.status.version }
{
    // (what a present package is read from has a version)
    let _origin = old.origin();
    match old.version() {
        Some(version) => version.again(),
        None => unreachable!(),
    }
}

/// The version that was configured last: of an installed package, and of one in a trigger state, its version.
pub fn last_configured<'a>(old: &StatusRecord<'a>) -> Option<Version<'a>>
    requires { IsPresent old.now.status }
    ensures { result ≡ last_configured old.now.status }
{
    if old.state().has_configured_version() {
        return Some(present_version(old));
    }
    match old.config_version() {
        Some(version) => Some(version.again()),
        None => None,
    }
}

// The config version that the stanza of a package in this state says.
fn written_config_version<'a>(state: State, version: Option<Version<'a>>) -> Option<Version<'a>>
    ensures { result ≡ written_config_version state version.entry }
{
    match state {
        State::NotInstalled | State::TriggersAwaited | State::TriggersPending | State::Installed =>
            None,
        State::ConfigFiles | State::HalfInstalled | State::Unpacked | State::HalfConfigured =>
            version,
    }
}

// Which fields an action leaves out of the stanza of a package in this state.
fn left_out(state: State) -> LeftOut
    ensures { result
        ≡ (if is_trigger_state state then left_outs.OfTriggers else left_outs.Nothing) }
{
    if state.is_trigger_state() {
        LeftOut::OfTriggers
    } else {
        LeftOut::Nothing
    }
}

// The stanza of the record with these words and this config version.
fn touched_text(
    alloc: Global,
    old: &StatusRecord<'_>,
    mark: Mark,
    config_version: Option<Version<'_>>,
) -> Result<Vec<u8>, AllocError>
    ensures { IfOk result
        (λ text. text.items
        ≡ fields_text (touched_fields (status_field mark.want mark.flag mark.state)
        (written_config_version mark.state config_version.entry)
        (lasting_fields old.now.status.state old.now.stanza.fields))) }
{
    let mut text = Vec::new(alloc);
    let written = written_config_version(mark.state, config_version);
    push_fields(
        &mut text,
        old.stanza(),
        left_out(old.state()),
        mark,
        &written,
    )?;
    Ok(text)
}

// The stanza of the record in this state, with its version as the one configured last.
fn settled_text(alloc: Global, old: &StatusRecord<'_>, state: State) -> Result<Vec<u8>, AllocError>
    requires { IsPresent old.now.status }
    ensures { IfOk result (λ text. text.items ≡ stanza_text
        (touched_entry
        (λ was. record was { state = state; config_version = Some was.version }) old.now).stanza) }
{
    let mark = Mark {
        want: old.want(),
        flag: old.flag(),
        state,
    };
    touched_text(alloc, old, mark, Some(present_version(old)))
}

// The stanza of the record once its package is removed.
fn removed_text(alloc: Global, old: &StatusRecord<'_>) -> Result<Vec<u8>, AllocError>
    requires { IsPresent old.now.status }
    ensures { IfOk result
        (λ text. text.items ≡ stanza_text (touched_entry removed old.now).stanza) }
{
    let mark = Mark {
        want: Want::Deinstall,
        flag: old.flag(),
        state: State::ConfigFiles,
    };
    touched_text(alloc, old, mark, last_configured(old))
}

/// The stanza of what the action leaves of a record from which it starts.
pub fn text_after(
    alloc: Global,
    action: Action,
    old: &StatusRecord<'_>,
) -> Result<Vec<u8>, AllocError>
    requires { Spec.starts_from action old.now.status ≡ true }
    ensures { IfOk result
        (λ text. text.items ≡ stanza_text (touched_entry (left_of action) old.now).stanza) }
{
    match action {
        Action::Deconfigure => settled_text(alloc, old, State::HalfConfigured),
        Action::Configure => settled_text(alloc, old, State::Installed),
        Action::Remove => removed_text(alloc, old),
    }
}
