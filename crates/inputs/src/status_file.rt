//! The status file.
ghost use Rattle.std.specs.Prelude.{◌≡◌, ◌≢◌, IfErr, IfOk, Ok, Some};
ghost use Rattle.status_text.specs.Slot.{slot_records};
ghost use Rattle.inputs.specs.Before.{HasStart, IsRefusalBefore};
ghost use Rattle.inputs.specs.ReadBy.{IsReadBy};
ghost use Rattle.inputs.specs.StatusText.{IsStatusText};
ghost use Rattle.inputs.specs.Reading.{IsFaultOf, OrMemory};
ghost use Rattle.inputs.specs.Texts.{Shelved, Texts, status_in, status_file_of, status_refusal, texts_of};
ghost use Rattle.inputs.specs.declared.refusal.Fault.TheVariants as fault;

use crate::refusal::{Fault, Input, Refusal, refused_at};
use crate::settings::Settings;
use crate::shelf::{Shelf, WholeText};
use crate::status_refusal::owned_refusal;
use crate::texts::read_part;
use status_text::{StatusError, StatusFault, StatusFile};
use std::alloc::{AllocError, Global};

fn fault_of(alloc: Global, refused: &StatusFault<'_>) -> Fault
    ensures { OrMemory (λ reason. reason ≡ fault.Status (status_refusal refused.now)) result }
{
    match owned_refusal(alloc, refused) {
        Ok(refused) => Fault::Status(refused),
        Err(AllocError) => Fault::OutOfMemory,
    }
}

// What the status file is read as, for the configured architecture. Linear in the text.
fn file_in<'a>(alloc: Global, text: &'a [u8], arch: &'a [u8]) -> Result<StatusFile<'a>, Fault>
    ensures ok { IfOk result (λ file. status_in arch.now text.now ≡ Ok file.slots) }
    ensures err { IfErr result (λ f. IsFaultOf (status_in arch.now text.now) f) }
    ensures known { IfErr result (λ f. f ≢ fault.Read) }
{
    match StatusFile::read(alloc, text, arch) {
        Ok(file) => Ok(file),
        Err(StatusError::Refused(refused)) => Err(fault_of(alloc, &refused)),
        Err(StatusError::OutOfMemory) => Err(Fault::OutOfMemory),
    }
}

/// The text of a status file, and the configured architecture.
#[derive(Drop)]
pub struct StatusText {
    text: Vec<u8>,
    arch: Vec<u8>,
}

/// The text of the status file, with the architecture of these settings.
pub fn read_status<S: Shelf>(
    alloc: Global,
    shelf: &mut S,
    settings: &Settings<'_>,
) -> Result<StatusText, Refusal>
    ensures text { (at : Shelved) → S.known_texts shelf.old ≡ Some at
        → IfOk result (λ status. IsStatusText (texts_of settings.now at) status) }
    ensures refused { (at : Shelved) → S.known_texts shelf.old ≡ Some at
        → IfErr result (λ refused. IsRefusalBefore (texts_of settings.now at) refused) }
    ensures read { IsReadBy S.Shelf shelf.old result shelf.new }
{
    match read_part(alloc, shelf, WholeText::Status, Input::Status) {
        Ok(text) => Ok(StatusText {
            text,
            arch: settings.arch.to_vec(alloc)?,
        }),
        Err(refused) => Err(refused),
    }
}

/// What the text of the status file is read as. Linear in the text.
pub fn read_status_file<'a>(
    alloc: Global,
    status: &'a StatusText,
) -> Result<StatusFile<'a>, Refusal>
    ensures ok { (texts : Texts) → IsStatusText texts status.now
        → IfOk result (λ file. HasStart texts (slot_records file.slots)) }
    ensures slots { (texts : Texts) → IsStatusText texts status.now
        → IfOk result (λ file. status_file_of texts ≡ Ok file.slots) }
    ensures refused { (texts : Texts) → IsStatusText texts status.now
        → IfErr result (λ refused. IsRefusalBefore texts refused) }
    ensures known { IfErr result (λ refused. refused.fault ≢ fault.Read) }
{
    match file_in(alloc, status.text.as_slice(), status.arch.as_slice()) {
        Ok(file) => Ok(file),
        Err(fault) => Err(refused_at(Input::Status, fault)),
    }
}
