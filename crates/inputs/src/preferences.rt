//! The preferences, and the target release.
ghost use Rattle.std.specs.Prelude.{◌≡◌, ◌≢◌, IfErr, IfOk, List, None, Ok, Some};
ghost use Rattle.std.specs.Option.{option_copied, option_map};
ghost use Rattle.rules.specs.Available.{Index as IndexValue};
ghost use Rattle.rules.specs.Database.{Record};
ghost use Rattle.inputs.specs.Before.{AreListed, AreRead, IsRefusalBefore};
ghost use Rattle.inputs.specs.ReadBy.{IsReadBy};
ghost use Rattle.inputs.specs.Reading.{IsFaultOf};
ghost use Rattle.inputs.specs.Texts.{Shelved, records_in, texts_of, with_target};
ghost use Rattle.inputs.specs.declared.refusal.Fault.TheVariants as fault;

use crate::refusal::{Fault, Input, Refusal, refused_at};
use crate::settings::Settings;
use crate::shelf::Shelf;
use crate::texts::read_preferences_text;
use pins::{Prefs, PrefsError};
use std::alloc::{AllocError, Global};

fn prefs_in(alloc: Global, text: &[u8], target: Option<&[u8]>) -> Result<Prefs, Fault>
    ensures ok { IfOk result
        (λ prefs. with_target (option_copied target.entry) (records_in (Some (Some text.now)))
        ≡ Ok prefs) }
    ensures err { IfErr result
        (λ f. IsFaultOf
        (with_target (option_copied target.entry) (records_in (Some (Some text.now)))) f) }
    ensures known { IfErr result (λ f. f ≢ fault.Read) }
{
    match Prefs::read(alloc, text, target) {
        Ok(prefs) => Ok(prefs),
        Err(PrefsError::Refused(refused)) => Err(Fault::Preferences(refused)),
        Err(PrefsError::OutOfMemory) => Err(Fault::OutOfMemory),
    }
}

fn prefs_without_records(alloc: Global, target: Option<&[u8]>) -> Result<Prefs, Fault>
    ensures ok { IfOk result
        (λ prefs. with_target (option_copied target.entry) (records_in None) ≡ Ok prefs) }
    ensures err { IfErr result
        (λ f. IsFaultOf (with_target (option_copied target.entry) (records_in None)) f) }
    ensures known { IfErr result (λ f. f ≢ fault.Read) }
{
    match Prefs::without_records(alloc, target) {
        Ok(prefs) => Ok(prefs),
        Err(AllocError) => Err(Fault::OutOfMemory),
    }
}

// What the administrator prefers, by the text of the preferences, if there is one.
fn prefs_of(alloc: Global, text: &Option<Vec<u8>>, target: Option<&[u8]>) -> Result<Prefs, Fault>
    ensures ok { IfOk result (λ prefs.
        with_target (option_copied target.entry)
        (records_in (option_map (λ text. Some text.items) text.now)) ≡ Ok prefs) }
    ensures err { IfErr result (λ f.
        IsFaultOf (with_target (option_copied target.entry)
        (records_in (option_map (λ text. Some text.items) text.now))) f) }
    ensures known { IfErr result (λ f. f ≢ fault.Read) }
{
    match text {
        None => prefs_without_records(alloc, target),
        Some(text) => prefs_in(alloc, text.as_slice(), target),
    }
}

/// What the administrator prefers: the records of the preferences, if there are any, and the target release. Linear in both
/// texts.
pub fn read_preferences<S: Shelf>(
    alloc: Global,
    shelf: &mut S,
    settings: &Settings<'_>,
) -> Result<Prefs, Refusal>
    ensures ok { (at : Shelved) (start : List Record) (indices : List IndexValue)
        → S.known_texts shelf.old ≡ Some at
        → AreListed (texts_of settings.now at) start indices
        → IfOk result (λ prefs. AreRead (texts_of settings.now at) start indices prefs) }
    ensures refused { (at : Shelved) (start : List Record) (indices : List IndexValue)
        → S.known_texts shelf.old ≡ Some at
        → AreListed (texts_of settings.now at) start indices
        → IfErr result (λ refused. IsRefusalBefore (texts_of settings.now at) refused) }
    ensures read { IsReadBy S.Shelf shelf.old result shelf.new }
{
    let text = read_preferences_text(alloc, shelf)?;
    match prefs_of(alloc, &text, settings.target) {
        Ok(prefs) => Ok(prefs),
        Err(fault) => Err(refused_at(Input::Preferences, fault)),
    }
}
