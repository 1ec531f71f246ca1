//! The actions on packages that are there (dpkg(1)), on the texts of their stanzas.
ghost use Rattle.std.specs.Prelude.{◌≡◌, None, Some, true, map, IfErr, IfOk, OnErr, OnOk};
ghost use Rattle.std.specs.Arc.{arc_slice_items};
ghost use Rattle.std.specs.List.{AllByRecursion};
ghost use Rattle.std.specs.Option.{option_copied};
ghost use Rattle.rules.specs.FileRecord.{touched_entry};
ghost use Rattle.rules.specs.Step.{is_among};
ghost use Rattle.status.specs.Action as Spec;
ghost use Rattle.status.specs.Action.{left_of};
ghost use Rattle.status.specs.Applicable.{first_unready, has_record};
ghost use Rattle.status.specs.Change.{IsTextAfter};
ghost use Rattle.status.specs.Error.{IsTouchFault};
ghost use Rattle.status.specs.Slots.{changed_slots};
ghost use Rattle.status.specs.Stored.{as_stored};
ghost use Rattle.status_text.specs.Slot.{slot_records};

use crate::action::{Action, starts_from, text_after};
use crate::error::{ApplyError, StepName};
use crate::table::Table;
use rules::Name;
use std::alloc::{AllocError, Global};
use std::sync::ArcSlice;

// A name, and the text of what an action leaves of its record.
#[derive(Drop)]
struct Rewritten<'s> {
    name: &'s Name,
    text: ArcSlice<u8>,
}

fn is_ready(table: &Table, action: Action, name: &[u8]) -> bool
    ensures { result
        ≡ has_record (Spec.starts_from action) name.now (slot_records table.now.slots) }
{
    table.is_sound();
    match table.find(name) {
        Some(entry) => starts_from(action, &entry),
        None => false,
    }
}

// The first of the names that has no record from which the action starts.
fn first_unready<'s>(table: &Table, action: Action, names: &'s [Name]) -> Option<&'s Name>
    ensures { option_copied result
        ≡ first_unready (Spec.starts_from action) names.now (slot_records table.now.slots) }
{
    for name in names {
        if !is_ready(table, action, name.as_bytes()) {
            return Some(name);
        }
    }
    None
}

// The text of what the action leaves of the record of the name, from which it starts.
fn text_of_name(
    alloc: Global,
    table: &Table,
    action: Action,
    name: &[u8],
) -> Result<ArcSlice<u8>, AllocError>
    requires { has_record (Spec.starts_from action) name.now (slot_records table.now.slots) ≡ true }
    ensures { IfOk result (λ text. IsTextAfter action table.now name.now (arc_slice_items text)) }
{
    table.is_sound();
    match table.find(name) {
        Some(entry) => ArcSlice::from_vec(text_after(alloc, action, &entry)?),
        None => unreachable!(),
    }
}

// What the action leaves of the records of the names.
fn texts_of_names<'s>(
    alloc: Global,
    table: &Table,
    action: Action,
    names: &'s [Name],
) -> Result<Vec<Rewritten<'s>>, AllocError>
    requires { first_unready (Spec.starts_from action) names.now (slot_records table.now.slots)
        ≡ None }
    ensures names { IfOk result (λ left. map (λ one. one.name.now) left.items ≡ names.now) }
    ensures texts { IfOk result
        (λ left. AllByRecursion
        (λ one. IsTextAfter action table.now one.name.now
        (arc_slice_items one.text)) left.items) }
{
    let mut left = Vec::new(alloc);
    for name in names {
        let text = text_of_name(alloc, table, action, name.as_bytes())?;
        left.push(Rewritten { name, text })?;
    }
    Ok(left)
}

// Writes what the action leaves over the records of the names.
fn write_all(table: &mut Table, action: Action, left: Vec<Rewritten<'_>>)
    requires { AllByRecursion
        (λ one. IsTextAfter action table.old one.name.now (arc_slice_items one.text)) left.items }
    ensures { table.new ≡ record table.old {
      slots = map as_stored
          (changed_slots (is_among (map (λ one. one.name.now) left.entry.items))
          (touched_entry (left_of action)) table.old.slots);
    } }
{
    table.is_sound();
    for one in left {
        table.write(one.name.as_bytes(), one.text);
    }
}

/// Takes the action on the packages of the names. Where it doesn't start from the record of one of them, or memory is refused,
/// all stays as it was.
pub fn touch<'s>(
    alloc: Global,
    table: &mut Table,
    action: Action,
    names: &'s [Name],
) -> Result<(), ApplyError<'s>>
    ensures taken { OnOk result
        (first_unready (Spec.starts_from action) names.now (slot_records table.old.slots) ≡ None) }
    ensures left { OnOk result
        (table.new ≡ record table.old {
          slots = map as_stored
              (changed_slots (is_among names.now)
              (touched_entry (left_of action)) table.old.slots);
        }) }
    ensures fault { IfErr result
        (λ e. IsTouchFault e
        (first_unready (Spec.starts_from action) names.now (slot_records table.old.slots))) }
    ensures unchanged { OnErr result (table.new ≡ table.old) }
{
    if let Some(name) = first_unready(table, action, names) {
        return Err(ApplyError::NotApplicable(StepName::new(name)));
    }
    let left = texts_of_names(alloc, table, action, names)?;
    write_all(table, action, left);
    Ok(())
}
