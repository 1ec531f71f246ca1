//! The slots of a status file.
ghost use Rattle.std.specs.Prelude.{◌≡◌, ◌<◌, [], Err, IfErr, IfOk, Ok, length};
ghost use Rattle.rules.specs.Database.{HasDistinctNames};
ghost use Rattle.rules.specs.FileRecord.{records_of};
ghost use Rattle.rules.specs.declared.limits.TheConstants.{TEXT_BYTES};
ghost use Rattle.stanza.specs.declared.form.Form.TheVariants.{Plain};
ghost use Rattle.stanza.specs.Stanza.{items_of};
ghost use Rattle.status_text.specs.Error.{IsStatusFault};
ghost use Rattle.status_text.specs.Slot.{entries_of, names_with};
ghost use Rattle.status_text.specs.Status as Spec;
ghost use Rattle.status_text.specs.declared.error.StatusError.TheVariants as error;
ghost use Rattle.status_text.specs.declared.error.StatusFault.TheVariants as fault;

use crate::entry::read_slot;
use crate::error::{StatusError, StatusFault};
use crate::record::StatusRecord;
use crate::seen::SeenNames;
use crate::slot::Slot;
use relation::Acceptor;
use rules::TEXT_BYTES;
use stanza::{Stanza, StanzaError, Stanzas};
use std::alloc::Global;

fn read_item<'a>(
    seen: &mut SeenNames<'a>,
    item: &Result<Stanza<'a>, StanzaError>,
    arch: &'a [u8],
    acceptor: &Acceptor,
) -> Result<Slot<'a, StatusRecord<'a>>, StatusError<'a>>
    ensures ok { IfOk result
        (λ slot. (Spec.read_item arch.now seen.old item.now ≡ Ok slot)
        × (seen.new ≡ names_with seen.old slot)) }
    ensures err { IfErr result (λ e. IsStatusFault e (Spec.read_item arch.now seen.old item.now)) }
{
    match item {
        Ok(stanza) => read_slot(seen, stanza, arch, acceptor),
        Err(refused) => Err(StatusFault::Stanza(*refused).into()),
    }
}

// The slots of a text that isn't too long.
fn slots_in<'a>(
    alloc: Global,
    text: &'a [u8],
    arch: &'a [u8],
) -> Result<Vec<Slot<'a, StatusRecord<'a>>>, StatusError<'a>>
    ensures ok { IfOk result
        (λ slots. Spec.slots_in arch.now (items_of Plain text.now) [] ≡ Ok slots.items) }
    ensures distinct { IfOk result
        (λ slots. HasDistinctNames (records_of (entries_of slots.items))) }
    ensures err { IfErr result
        (λ e. IsStatusFault e (Spec.slots_in arch.now (items_of Plain text.now) [])) }
{
    let acceptor = Acceptor::new(alloc)?;
    let mut slots = Vec::new(alloc);
    let mut seen = SeenNames::new(alloc);
    for item in Stanzas::new(text) {
        let slot = read_item(&mut seen, &item, arch, &acceptor)?;
        slots.push(slot)?;
    }
    Ok(slots)
}

/// The stanzas of a status file, in the order of the text, each with its record for the configured architecture `arch`.
/// The first refusal is answered: of a text that is too long, or else of the first stanza that has one: of its lines,
/// then of Package, Status and Architecture, then that its name has a record before, then of Version, of Config-Version
/// and of the relation fields. A not-installed stanza of another architecture has no record. What was read borrows the
/// text and `arch`. Linear in the text; the memory is that of the slots and of the names of the records.
pub fn read_status<'a>(
    alloc: Global,
    text: &'a [u8],
    arch: &'a [u8],
) -> Result<Vec<Slot<'a, StatusRecord<'a>>>, StatusError<'a>>
    ensures ok { IfOk result (λ slots. Spec.read_status arch.now text.now ≡ Ok slots.items) }
    ensures distinct { IfOk result
        (λ slots. HasDistinctNames (records_of (entries_of slots.items))) }
    ensures err { IfErr result (λ e. IsStatusFault e (Spec.read_status arch.now text.now)) }
    ensures too_long { TEXT_BYTES < length text.now → result ≡ Err (error.Refused fault.TooLarge) }
{
    if text.len() > TEXT_BYTES {
        return Err(StatusFault::TooLarge.into());
    }
    slots_in(alloc, text, arch)
}
