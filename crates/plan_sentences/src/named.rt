// What the database knows of a name, in words.

ghost use Rattle.std.specs.Prelude.{◌≡◌, ◌++◌, IfOk, IfSome, OnOk, map};
ghost use Rattle.std.specs.List.{All, Contains, find};
ghost use Rattle.std.specs.Option.{option_copied};
ghost use Rattle.rules.specs.Database.{HasDistinctNames};
ghost use Rattle.rules.specs.Step.{is_named};
ghost use Rattle.plan_sentences.specs.Changes.{record_in};
ghost use Rattle.plan_sentences.specs.No as Spec;

use crate::words::push_record;
use plancheck_state::{Holders, Records, StateRecord};
use relation::{Atom, Pkg};
use std::alloc::{AllocError, Global};

// The first of the records that has the name.
fn record_among<'v, 'p, 'a>(
    mut holders: Holders<'v, 'p, 'a>,
    name: &[u8],
) -> Option<&'v StateRecord<'p, 'a>>
    ensures { option_copied result ≡ find (is_named name.now) holders.entry }
{
    holders.find(|entry| entry.name() == name)
}

/// The record of the name, if there is one.
pub(crate) fn record_of<'v, 'p, 'a>(
    db: &'v Records<'p, 'a>,
    name: &[u8],
) -> Option<&'v StateRecord<'p, 'a>>
    ensures { HasDistinctNames db.now → option_copied result ≡ record_in db.now name.now }
{
    record_among(db.holders(name), name)
}

/// The package of the name, if it is present.
pub(crate) fn pkg_of<'p, 'a>(db: &Records<'p, 'a>, name: &[u8]) -> Option<&'p Pkg<'a>> {
    record_of(db, name)?.present_pkg()
}

/// Writes in which state the name is: `foo 1 is installed`, or `foo is not installed`.
pub(crate) fn push_named(
    text: &mut Vec<u8>,
    db: &Records<'_, '_>,
    name: &[u8],
) -> Result<(), AllocError>
    ensures { HasDistinctNames db.now → OnOk result (text.new.items
        ≡ text.old.items ++ Spec.standing_of name.now (record_in db.now name.now)) }
{
    match record_of(db, name) {
        None => {
            text.extend_from_slice(name)?;
            text.extend_from_slice(b" is not installed")
        }
        Some(entry) => push_record(text, entry),
    }
}

// In which state the record is.
fn record_text(alloc: Global, entry: &StateRecord<'_, '_>) -> Result<Vec<u8>, AllocError>
    ensures { IfOk result (λ text. text.items ≡ Spec.record_words entry.now) }
{
    let mut text = Vec::new(alloc);
    push_record(&mut text, entry)?;
    Ok(text)
}

// In which state the package is that has the name of the atom, if it is present.
fn there_by(
    alloc: Global,
    db: &Records<'_, '_>,
    atom: &Atom<'_>,
) -> Result<Option<Vec<u8>>, AllocError>
    ensures { (atoms : _) → HasDistinctNames db.now → Contains atoms atom.now → IfOk result
        (λ item. IfSome item (λ text. Spec.IsThere db.now atoms text.items)) }
{
    match record_of(db, atom.name()) {
        Some(entry) if entry.state().is_present() => Ok(Some(record_text(alloc, entry)?)),
        _ => Ok(None),
    }
}

// Whether the item is one of these.
fn is_among(items: &[Vec<u8>], item: &[u8]) -> bool {
    items.iter().any(|other| other.as_slice() == item)
}

/// In which state the present packages are that have a name of the clause, an item for each.
pub(crate) fn there_of(
    alloc: Global,
    db: &Records<'_, '_>,
    atoms: &[Atom<'_>],
) -> Result<Vec<Vec<u8>>, AllocError>
    ensures { HasDistinctNames db.now → IfOk result
        (λ items. All (Spec.IsThere db.now atoms.now) (map (λ item. item.items) items.items)) }
{
    let mut items = Vec::new(alloc);
    for atom in atoms {
        if let Some(item) = there_by(alloc, db, atom)? {
            if !is_among(items.as_slice(), item.as_slice()) {
                items.push(item)?;
            }
        }
    }
    Ok(items)
}

/// Writes the items in brackets: ` (foo 1 is unpacked)`; nothing of none.
pub(crate) fn push_bracketed(text: &mut Vec<u8>, items: &[Vec<u8>]) -> Result<(), AllocError>
    ensures { OnOk result (text.new.items
        ≡ text.old.items ++ Spec.bracketed (map (λ item. item.items) items.now)) }
{
    let Some((first, others)) = items.split_first() else {
        return Ok(());
    };
    text.extend_from_slice(b" (")?;
    text.extend_from_slice(first.as_slice())?;
    for item in others {
        text.extend_from_slice(b", ")?;
        text.extend_from_slice(item.as_slice())?;
    }
    text.push(b')')?;
    Ok(())
}
