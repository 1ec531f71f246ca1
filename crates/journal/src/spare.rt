//! The status file that a journal leads to, with a spare: a step is taken in the spare before it is written, and where it is
//! acknowledged the two are exchanged. So a step costs what it touches, and the first alone the copy of the whole.
ghost use Rattle.std.specs.Prelude.{◌≡◌, IfErr, IfOk, OnErr, OnOk};
ghost use Rattle.std.specs.Option.{option_copied};
ghost use Rattle.journal.specs.Adding.{IsLeftFault};
ghost use Rattle.journal.specs.History.{IsApplicable};
ghost use Rattle.journal.specs.Spare.{store_left};
ghost use Rattle.status.specs.Applicable.{handed_in, refused_name};
ghost use Rattle.status.specs.Error.{IsApplyFault};
ghost use Rattle.status.specs.Left.{stored_after};
ghost use Rattle.status_text.specs.Slot.{slot_records};

use crate::error::AppendError;
use rules::Step;
use status::{ApplyError, Database};
use std::alloc::Global;
use std::marker::Model;
use std::mem;

/// A database, and where there is a spare one, an equal one.
#[derive(Drop)]
pub struct WithSpare {
    database: Database,
    spare: Option<Database>,
}

impl Model for WithSpare {
    ghost use Rattle.std.specs.Prelude.{◌≡◌, IfSome};
    ghost use Rattle.status_text.specs.Slot.{Store};

    ghost Value = { Store };

    ghost view = { λ w. w.database };

    ghost invariant = { λ w. IfSome w.spare (λ spare. spare ≡ w.database) };
}

impl WithSpare {
    /// This database, without a spare.
    pub fn new(database: Database) -> WithSpare
        ensures { result ≡ database }
    {
        WithSpare {
            database,
            spare: None,
        }
    }

    /// The database.
    pub fn database(&self) -> &Database
        ensures { result.now ≡ self.now }
    {
        &self.database
    }

    /// Takes a step as `Database::apply` does, and leaves no spare.
    pub fn apply<'s>(
        &mut self,
        alloc: Global,
        taken: &'s Step,
        given: Option<&[u8]>,
    ) -> Result<(), ApplyError<'s>>
        ensures taken { OnOk result
            (refused_name (handed_in self.old.arch (option_copied given.entry)) taken.now
            (slot_records self.old.slots) ≡ None) }
        ensures left { OnOk result
            (self.new ≡ record self.old {
              slots = stored_after
                  (handed_in self.old.arch (option_copied given.entry)) taken.now self.old.slots;
            }) }
        ensures err { IfErr result
            (λ e. IsApplyFault e
            (handed_in self.old.arch (option_copied given.entry)) taken.now self.old.slots) }
        ensures unchanged { OnErr result (self.new ≡ self.old) }
    {
        self.spare = None;
        self.database.apply(alloc, taken, given)
    }

    /// The database that the step leaves, which is the spare, or a copy where there is none. Where the step can't be taken or
    /// memory is refused the spare is kept.
    pub fn left_by<'s>(
        &mut self,
        alloc: Global,
        step: &'s Step,
        text: Option<&[u8]>,
    ) -> Result<Database, AppendError<'s>>
        ensures unchanged { self.new ≡ self.old }
        ensures taken { OnOk result
            (IsApplicable self.old.arch
            (record { step = step.now; stanza = option_copied text.entry }) self.old.slots) }
        ensures left { IfOk result
            (λ left. left
            ≡ store_left self.old
            (record { step = step.now; stanza = option_copied text.entry })) }
        ensures fault { IfErr result
            (IsLeftFault self.old (record { step = step.now; stanza = option_copied text.entry })) }
    {
        let mut spare = match self.spare.take() {
            Some(spare) => spare,
            None => self.database.try_copy(alloc)?,
        };
        match spare.apply(alloc, step, text) {
            Ok(()) => Ok(spare),
            Err(ApplyError::NotApplicable(name)) => {
                self.spare = Some(spare);
                Err(AppendError::NotApplicable(name))
            }
            Err(ApplyError::OutOfMemory) => {
                self.spare = Some(spare);
                Err(AppendError::OutOfMemory)
            }
        }
    }

    /// Takes the database that the step leaves in place of this one, in which the step is taken once more: it is the spare from
    /// then on, unless memory is refused.
    pub fn exchange(&mut self, alloc: Global, left: Database, step: &Step, text: Option<&[u8]>)
        requires { left
            ≡ store_left self.old (record { step = step.now; stanza = option_copied text }) }
        ensures { self.new ≡ left }
    {
        let mut behind = mem::replace(&mut self.database, left);
        self.spare = match behind.apply(alloc, step, text) {
            Ok(()) => Some(behind),
            Err(_) => None,
        };
    }
}
