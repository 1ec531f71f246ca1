//! The whole status file, as it was read.
ghost use Rattle.std.specs.Prelude.{◌≡◌, ◌++◌, ◌<◌, Err, IfErr, IfOk, Ok, OnOk, length, map};
ghost use Rattle.rules.specs.Database.{HasDistinctNames};
ghost use Rattle.rules.specs.declared.limits.TheConstants.{TEXT_BYTES};
ghost use Rattle.status_text.specs.Error.{IsStatusFault};
ghost use Rattle.status_text.specs.Slot.{entries_of, entry_in, slot_records};
ghost use Rattle.status_text.specs.Status as Spec;
ghost use Rattle.status_text.specs.Status.{WereRead};
ghost use Rattle.status_text.specs.declared.error.StatusError.TheVariants as error;
ghost use Rattle.status_text.specs.declared.error.StatusFault.TheVariants as fault;

use crate::error::StatusError;
use crate::read::read_status;
use crate::record::StatusRecord;
use crate::slot::Slot;
use std::alloc::{AllocError, Global};
use std::marker::Model;

/// A status file: its stanzas in their order, whose records have distinct names, and the configured architecture. It borrows
/// both texts.
#[derive(Drop)]
pub struct StatusFile<'a> {
    arch: &'a [u8],
    slots: Vec<Slot<'a, StatusRecord<'a>>>,
}

impl<'a> Model for StatusFile<'a> {
    ghost use Rattle.rules.specs.Database.{HasDistinctNames};
    ghost use Rattle.status_text.specs.Slot.{Store, slot_records};
    ghost use Rattle.status_text.specs.Status.{WereRead};

    ghost Value = { Store };

    ghost view = { λ f. record { arch = f.arch.now; slots = f.slots.items } };

    ghost invariant = { λ f. WereRead f.arch.now f.slots.items × HasDistinctNames (slot_records f.slots.items) };
}

// Adds the record of the slot, if it has one, behind the others.
fn push_record<'s, 'a>(
    records: &mut Vec<&'s StatusRecord<'a>>,
    slot: &'s Slot<'a, StatusRecord<'a>>,
) -> Result<(), AllocError>
    ensures { OnOk result
        (map (λ r. r.now) records.new.items ≡ map (λ r. r.now) records.old.items
        ++ entry_in slot.now) }
{
    match slot {
        Slot::Recorded(record) => {
            records.push(record)?;
            Ok(())
        }
        Slot::Foreign(_) => Ok(()),
    }
}

// The records of the slots.
fn records_in<'s, 'a>(
    alloc: Global,
    slots: &'s [Slot<'a, StatusRecord<'a>>],
) -> Result<Vec<&'s StatusRecord<'a>>, AllocError>
    ensures { IfOk result (λ records. map (λ r. r.now) records.items ≡ entries_of slots.now) }
{
    let mut records = Vec::new(alloc);
    for slot in slots {
        push_record(&mut records, slot)?;
    }
    Ok(records)
}

impl<'a> StatusFile<'a> {
    /// What a status file is read as for the configured architecture `arch`, or its first refusal, as `read_status` says.
    /// Linear in the text; the memory is that of the stanzas and of the names of the records.
    pub fn read(
        alloc: Global,
        text: &'a [u8],
        arch: &'a [u8],
    ) -> Result<StatusFile<'a>, StatusError<'a>>
        ensures arch { IfOk result (λ file. file.arch ≡ arch.now) }
        ensures ok { IfOk result (λ file. Spec.read_status arch.now text.now ≡ Ok file.slots) }
        ensures err { IfErr result (λ e. IsStatusFault e (Spec.read_status arch.now text.now)) }
        ensures too_long { TEXT_BYTES < length text.now → result
            ≡ Err (error.Refused fault.TooLarge) }
    {
        let slots = read_status(alloc, text, arch)?;
        Ok(StatusFile { arch, slots })
    }

    /// The configured architecture.
    pub fn arch(&self) -> &'a [u8]
        ensures { result.now ≡ self.now.arch }
    {
        self.arch
    }

    /// The stanzas in the order of the file.
    pub fn slots(&self) -> &[Slot<'a, StatusRecord<'a>>]
        ensures slots { result.now ≡ self.now.slots }
        ensures read { WereRead self.now.arch self.now.slots }
        ensures distinct { HasDistinctNames (slot_records self.now.slots) }
    {
        self.slots.as_slice()
    }

    /// The records, in the order of the file. No two have the same name. Memory alone can fail. Linear in the stanzas.
    pub fn records(&self, alloc: Global) -> Result<Vec<&StatusRecord<'a>>, AllocError>
        ensures records { IfOk result
            (λ records. map (λ r. r.now) records.items ≡ entries_of self.now.slots) }
        ensures read { WereRead self.now.arch self.now.slots }
        ensures distinct { HasDistinctNames (slot_records self.now.slots) }
    {
        records_in(alloc, self.slots.as_slice())
    }
}
