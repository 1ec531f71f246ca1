// What the administrator prefers.

ghost use Rattle.std.specs.Prelude.{◌≡◌, ◌<◌, [], Err, IfErr, IfOk, Ok, length};
ghost use Rattle.std.specs.Option.{option_copied};
ghost use Rattle.rules.specs.declared.limits.TheConstants.{TEXT_BYTES};
ghost use Rattle.stanza.specs.declared.form.Form.TheVariants.{Commented};
ghost use Rattle.stanza.specs.Stanza.{items_of};
ghost use Rattle.pins.specs.Error.{IsPrefsFault};
ghost use Rattle.pins.specs.Prefs.{read_preferences, records_in};
ghost use Rattle.pins.specs.declared.error.PrefsError.TheVariants as error;
ghost use Rattle.pins.specs.declared.error.PrefsFault.TheVariants as fault;

use crate::error::{PrefsError, PrefsFault};
use crate::record::read_item;
use rules::{Preference, TEXT_BYTES, Text};
use stanza::Stanzas;
use std::alloc::{AllocError, Global};
use std::marker::Model;

/// What the administrator prefers: the records of a preferences file, and the target release. It owns both.
#[derive(Drop)]
pub struct Prefs {
    records: Vec<Preference>,
    target: Option<Text>,
}

impl Model for Prefs {
    ghost use Rattle.pins.specs.Prefs.{Preferences};

    ghost Value = { Preferences };

    ghost view = { λ prefs. record { preferences = prefs.records.items; target = prefs.target } };
}

// The records of a text that isn't too long.
fn records_in(alloc: Global, text: &[u8]) -> Result<Vec<Preference>, PrefsError>
    ensures ok { IfOk result
        (λ records. records_in (items_of Commented text.now) ≡ Ok records.items) }
    ensures err { IfErr result (λ e. IsPrefsFault e (records_in (items_of Commented text.now))) }
{
    let mut records = Vec::new(alloc);
    for item in Stanzas::with_comments(text) {
        records.push(read_item(alloc, &item)?)?;
    }
    Ok(records)
}

fn owned_target(alloc: Global, target: Option<&[u8]>) -> Result<Option<Text>, AllocError>
    ensures { IfOk result (λ owned. owned ≡ option_copied target.entry) }
{
    match target {
        None => Ok(None),
        Some(target) => Ok(Some(Text::copied_from(alloc, target)?)),
    }
}

impl Prefs {
    /// Reads a preferences file (apt_preferences(5)), beside the target release, if there is one. Each stanza is a
    /// record. The first refusal is answered: of a text that is too long, or else of the first stanza that has one: of
    /// its lines, then that Package, Pin or Pin-Priority is missing, then of their values in this order. Linear in
    /// the text.
    pub fn read(alloc: Global, text: &[u8], target: Option<&[u8]>) -> Result<Prefs, PrefsError>
        ensures ok { IfOk result (λ prefs. (read_preferences text.now ≡ Ok prefs.preferences)
            × (prefs.target ≡ option_copied target.entry)) }
        ensures err { IfErr result (λ e. IsPrefsFault e (read_preferences text.now)) }
        ensures too_long { TEXT_BYTES < length text.now → result
            ≡ Err (error.Refused fault.TooLarge) }
    {
        if text.len() > TEXT_BYTES {
            return Err(PrefsFault::TooLarge.into());
        }
        Ok(Prefs {
            records: records_in(alloc, text)?,
            target: owned_target(alloc, target)?,
        })
    }

    /// What holds where there is no preferences file: a target release at most. Memory alone can fail.
    pub fn without_records(alloc: Global, target: Option<&[u8]>) -> Result<Prefs, AllocError>
        ensures { IfOk result
            (λ prefs. prefs ≡ record { preferences = []; target = option_copied target.entry }) }
    {
        let kept = owned_target(alloc, target)?;
        Ok(Prefs {
            records: Vec::new(alloc),
            target: kept,
        })
    }

    /// The records, in order.
    pub fn records(&self) -> &[Preference]
        ensures { result.now ≡ self.now.preferences }
    {
        self.records.as_slice()
    }

    /// The target release, if there is one.
    pub fn target(&self) -> Option<&[u8]>
        ensures { option_copied result ≡ self.now.target }
    {
        match &self.target {
            None => None,
            Some(target) => Some(target.as_bytes()),
        }
    }
}
