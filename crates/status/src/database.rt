//! The status file as it is stored.
ghost use Rattle.std.specs.Prelude.{◌≡◌, ◌<◌, ◌∷◌, ◌++◌, [], None, Ok, Err, IfErr, IfOk, OnErr, OnOk, length, map};
ghost use Rattle.rules.specs.declared.limits.TheConstants.{TEXT_BYTES};
ghost use Rattle.std.specs.Arc.{arc_slice_items};
ghost use Rattle.std.specs.Option.{option_copied};
ghost use Rattle.rules.specs.Database.{HasDistinctNames};
ghost use Rattle.status_text.specs.Error.{IsStatusFault};
ghost use Rattle.status_text.specs.Slot.{entries_of, slot_records};
ghost use Rattle.status_text.specs.declared.error.StatusError.TheVariants as error;
ghost use Rattle.status_text.specs.declared.error.StatusFault.TheVariants as fault;
ghost use Rattle.status.specs.Applicable.{handed_in, refused_name};
ghost use Rattle.status.specs.Error.{IsApplyFault};
ghost use Rattle.status.specs.Faithful.{IsFaithfulSlot, ReadsAsIfShort};
ghost use Rattle.status.specs.Left.{stored_after};
ghost use Rattle.status.specs.Slots.{IsNew, entry_named, names_of};
ghost use Rattle.status_text.specs.Spelling.{closed};
ghost use Rattle.status.specs.Stored.{as_stored, read_stored};
ghost use Rattle.status.specs.Text.{slots_text};

use crate::apply::take;
use crate::error::ApplyError;
use crate::table::Table;
use rules::Step;
use stanza::Stanza;
use status_text::{Slot, StatusError, StatusFile, StatusRecord, write_bytes};
use std::alloc::{AllocError, Global};
use std::marker::Model;
use std::sync::ArcSlice;

/// The status file: its stanzas in their order, each as its text, and the configured architecture. It owns them.
#[derive(Drop)]
pub struct Database {
    table: Table,
}

impl Model for Database {
    ghost use Rattle.status_text.specs.Slot.{Store};

    ghost Value = { Store };

    ghost view = { λ d. d.table };
}

// The bytes of a stanza, with the last newline.
fn text_of(alloc: Global, stanza: &Stanza<'_>) -> Result<ArcSlice<u8>, AllocError>
    ensures { IfOk result (λ text. arc_slice_items text ≡ closed stanza.now.raw) }
{
    let mut text = Vec::new(alloc);
    write_bytes(&mut text, stanza.raw())?;
    ArcSlice::from_vec(text)
}

// Adds a slot that was read behind the others.
fn push_slot<'a>(
    alloc: Global,
    table: &mut Table,
    slot: &Slot<'a, StatusRecord<'a>>,
) -> Result<(), AllocError>
    requires faithful { IsFaithfulSlot table.old.arch slot.now }
    requires new { IsNew slot.now table.old.slots }
    ensures { OnOk result
        (table.new ≡ record table.old { slots = table.old.slots ++ as_stored slot.now ∷ [] }) }
{
    match slot {
        Slot::Recorded(entry) => {
            let name = Vec::from_slice(alloc, entry.name())?;
            table.push_recorded(name, text_of(alloc, entry.stanza())?)
        }
        Slot::Foreign(stanza) => table.push_foreign(text_of(alloc, stanza)?),
    }
}

impl Database {
    /// The database that a status file is for the configured architecture `arch`, or its first refusal, which borrows the text.
    /// Linear in the text; the memory is that of the stanzas and of the names of the records.
    pub fn read<'a>(
        alloc: Global,
        text: &'a [u8],
        arch: &'a [u8],
    ) -> Result<Database, StatusError<'a>>
        ensures arch { IfOk result (λ db. db.arch ≡ arch.now) }
        ensures ok { IfOk result (λ db. read_stored arch.now text.now ≡ Ok db.slots) }
        ensures err { IfErr result (λ e. IsStatusFault e (read_stored arch.now text.now)) }
        ensures too_long { TEXT_BYTES < length text.now → result
            ≡ Err (error.Refused fault.TooLarge) }
    {
        let file = StatusFile::read(alloc, text, arch)?;
        Ok(Database::of(alloc, &file)?)
    }

    /// The database that this status file is. Memory alone can fail. Linear in the text of the stanzas.
    pub fn of(alloc: Global, file: &StatusFile<'_>) -> Result<Database, AllocError>
        ensures stored { IfOk result
            (λ db. db ≡ record file.now { slots = map as_stored file.now.slots }) }
        ensures text { IfOk result (λ db. slots_text db.slots ≡ slots_text file.now.slots) }
    {
        let arch = Vec::from_slice(alloc, file.arch())?;
        let mut table = Table::new(alloc, arch);
        for slot in file.slots() {
            push_slot(alloc, &mut table, slot)?;
        }
        Ok(Database { table })
    }

    /// The configured architecture.
    pub fn arch(&self) -> &[u8]
        ensures { result.now ≡ self.now.arch }
    {
        self.table.arch()
    }

    /// The names of the records, in the order of the file. No two are the same.
    pub fn names(&self) -> &[Vec<u8>]
        ensures names { map (λ name. name.items) result.now ≡ names_of self.now.slots }
        ensures distinct { HasDistinctNames (slot_records self.now.slots) }
    {
        self.table.is_sound();
        self.table.names()
    }

    /// The record of the name, if there is one. No memory; linear in the name and in the stanza.
    pub fn record(&self, name: &[u8]) -> Option<StatusRecord<'_>>
        ensures { result ≡ entry_named name.now self.now.slots }
    {
        self.table.find(name)
    }

    /// The records, in the order of the file. Memory alone can fail. Linear in the stanzas.
    pub fn records(&self, alloc: Global) -> Result<Vec<StatusRecord<'_>>, AllocError>
        ensures { IfOk result (λ records. records.items ≡ entries_of self.now.slots) }
    {
        self.table.records(alloc)
    }

    /// The text of the status file: each stanza, followed by an empty line. One that no action has touched keeps its
    /// bytes. Where it is within the limit it reads as this database, whatever was read and done before. Memory alone can
    /// fail. Linear in it.
    pub fn text(&self, alloc: Global) -> Result<Vec<u8>, AllocError>
        ensures text { IfOk result (λ text. text.items ≡ slots_text self.now.slots) }
        ensures reads_back { IfOk result
            (λ text. ReadsAsIfShort self.now.arch text.items self.now.slots) }
    {
        self.table.is_sound();
        let text = self.table.text(alloc)?;
        Ok(text)
    }

    /// An equal database, which shares the texts. Memory alone can fail. Linear in the number of stanzas and in the names.
    pub fn try_copy(&self, alloc: Global) -> Result<Database, AllocError>
        ensures { IfOk result (λ copy. copy ≡ self.now) }
    {
        let table = self.table.try_copy(alloc)?;
        Ok(Database { table })
    }

    /// Takes a step. What an unpacking unpacks is handed in as the text of its stanza in an index; of another step
    /// nothing is. It is applicable where the records of its names are in a state from which the action starts, and
    /// where what is handed in is one readable stanza, for this architecture, of that name and version. Where it isn't,
    /// or memory is refused, the database stays as it was. Linear in the stanzas of the names and in what is handed in; a
    /// purge moves the numbers of the names behind its own.
    pub fn apply<'s>(
        &mut self,
        alloc: Global,
        taken: &'s Step,
        given: Option<&[u8]>,
    ) -> Result<(), ApplyError<'s>>
        ensures taken { OnOk result
            (refused_name (handed_in self.old.arch (option_copied given.entry)) taken.now
            (slot_records self.old.slots) ≡ None) }
        ensures left { OnOk result
            (self.new ≡ record self.old {
              slots = stored_after
                  (handed_in self.old.arch (option_copied given.entry)) taken.now self.old.slots;
            }) }
        ensures err { IfErr result
            (λ e. IsApplyFault e
            (handed_in self.old.arch (option_copied given.entry)) taken.now self.old.slots) }
        ensures unchanged { OnErr result (self.new ≡ self.old) }
    {
        take(alloc, &mut self.table, taken, given)
    }
}
