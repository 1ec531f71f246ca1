//! The steps of a plan, taken in the status file.
ghost use Rattle.std.specs.Prelude.{◌≡◌, Err, None, true, false, not, if◌then◌else◌};
ghost use Rattle.std.specs.List.{filter};
ghost use Rattle.std.specs.Option.{option_copied};
ghost use Rattle.rules.specs.declared.step.Step.TheVariants as step;
ghost use Rattle.status.specs.Applicable as Spec;
ghost use Rattle.status.specs.Applicable.{handed_in, has_record};
ghost use Rattle.status.specs.Error.{IsTaken};
ghost use Rattle.status.specs.Slots.{is_slot_named};
ghost use Rattle.status.specs.declared.error.ApplyError.TheVariants as error;
ghost use Rattle.status_text.specs.Slot.{slot_records};

use crate::action::Action;
use crate::error::{ApplyError, StepName};
use crate::table::Table;
use crate::touch::touch;
use crate::unpack::text_unpacked;
use rules::{Name, Names, Step, VersionText};
use std::alloc::Global;
use std::slice::from_ref;

fn not_applicable<'s>(name: &'s Name) -> Result<(), ApplyError<'s>>
    ensures { result ≡ Err (error.NotApplicable name.now) }
{
    Err(ApplyError::NotApplicable(StepName::new(name)))
}

fn unpack<'s>(
    alloc: Global,
    table: &mut Table,
    name: &'s Name,
    version: &VersionText,
    given: Option<&[u8]>,
) -> Result<(), ApplyError<'s>>
    ensures { IsTaken result (handed_in table.old.arch (option_copied given.entry))
        (step.Unpack name.now version.now) table.old table.new }
{
    match text_unpacked(alloc, table, name, version, given)? {
        Some(text) => {
            table.is_sound();
            table.put(alloc, name.as_bytes(), text)?;
            Ok(())
        }
        None => not_applicable(name),
    }
}

fn deconfigure<'s>(alloc: Global, table: &mut Table, name: &'s Name) -> Result<(), ApplyError<'s>>
    ensures { IsTaken result None (step.Deconfigure name.now) table.old table.new }
{
    touch(alloc, table, Action::Deconfigure, from_ref(name))
}

fn configure<'s>(alloc: Global, table: &mut Table, names: &'s Names) -> Result<(), ApplyError<'s>>
    ensures { IsTaken result None (step.Configure names.now) table.old table.new }
{
    touch(alloc, table, Action::Configure, names.as_slice())
}

fn remove<'s>(alloc: Global, table: &mut Table, name: &'s Name) -> Result<(), ApplyError<'s>>
    ensures { IsTaken result None (step.Remove name.now) table.old table.new }
{
    touch(alloc, table, Action::Remove, from_ref(name))
}

// Whether configuration files alone are left of the package of the name.
fn is_purgeable(table: &Table, name: &[u8]) -> bool
    ensures { result ≡ has_record Spec.is_purgeable name.now (slot_records table.now.slots) }
{
    table.is_sound();
    match table.find(name) {
        Some(entry) => entry.state().is_removed(),
        None => false,
    }
}

fn purge<'s>(table: &mut Table, name: &'s Name) -> Result<(), ApplyError<'s>>
    ensures { IsTaken result None (step.Purge name.now) table.old table.new }
{
    if is_purgeable(table, name.as_bytes()) {
        table.is_sound();
        table.delete(name.as_bytes());
        Ok(())
    } else {
        not_applicable(name)
    }
}

/// Takes the step, where what it unpacks is handed in. Where it isn't applicable, or memory is refused, all stays as it
/// was.
pub fn take<'s>(
    alloc: Global,
    table: &mut Table,
    taken: &'s Step,
    given: Option<&[u8]>,
) -> Result<(), ApplyError<'s>>
    ensures { IsTaken result
        (handed_in table.old.arch (option_copied given.entry)) taken.now table.old table.new }
{
    match taken {
        Step::Unpack(name, version) => unpack(alloc, table, name, version, given),
        Step::Deconfigure(name) => deconfigure(alloc, table, name),
        Step::Configure(names) => configure(alloc, table, names),
        Step::Remove(name) => remove(alloc, table, name),
        Step::Purge(name) => purge(table, name),
    }
}
