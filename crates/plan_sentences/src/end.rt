// What is against the end of a plan, in words.

ghost use Rattle.std.specs.Prelude.{◌≡◌, ◌++◌, IfOk, OnOk, codes};
ghost use Rattle.rules.specs.Database.{HasDistinctNames};
ghost use Rattle.plan_sentences.specs.Changes.{record_in};
ghost use Rattle.plan_sentences.specs.No as Spec;

use crate::against::against;
use crate::goals::push_unfulfilled;
use crate::named::{pkg_of, push_named, record_of};
use crate::shown::{NOT_MET, unmet};
use plancheck_state::Records;
use relation::Pkg;
use rules::Reason;
use std::alloc::{AllocError, Global};
use universe::Universe;
use witness::{ClauseField, first_broken, first_unmet, own_conflict};

// Which other the package conflicts with or breaks.
fn at_odds(alloc: Global, db: &Records<'_, '_>, pkg: &Pkg<'_>) -> Result<Vec<u8>, AllocError> {
    if let Some(name) = own_conflict(db, pkg) {
        if let Some(other) = record_of(db, name) {
            return against(alloc, b" conflicts with ", pkg, pkg.conflicts(), other);
        }
    }
    if let Some(name) = first_broken(db, pkg) {
        if let Some(other) = record_of(db, name) {
            return against(alloc, b" breaks ", pkg, pkg.breaks(), other);
        }
    }
    Ok(Vec::new(alloc))
}

// Which clause of the package isn't met, or which other it conflicts with or breaks.
fn discontent(alloc: Global, db: &Records<'_, '_>, pkg: &Pkg<'_>) -> Result<Vec<u8>, AllocError> {
    if let Some(place) = first_unmet(db, pkg.pre_depends()) {
        return unmet(alloc, db, pkg, ClauseField::PreDepends, place, NOT_MET);
    }
    if let Some(place) = first_unmet(db, pkg.depends()) {
        return unmet(alloc, db, pkg, ClauseField::Depends, place, NOT_MET);
    }
    at_odds(alloc, db, pkg)
}

// What the package of the name isn't content with.
fn discontent_of(alloc: Global, db: &Records<'_, '_>, name: &[u8]) -> Result<Vec<u8>, AllocError> {
    match pkg_of(db, name) {
        None => Ok(Vec::new(alloc)),
        Some(pkg) => discontent(alloc, db, pkg),
    }
}

// The name of the reason, as a verdict is printed.
fn word_of(reason: &Reason) -> &'static [u8]
    ensures { result.now ≡ Spec.reason_word reason.now }
{
    match reason {
        Reason::Unfinished(_) => b"Unfinished",
        Reason::Relation(_) => b"Relation",
        Reason::Essential(_) => b"Essential",
        Reason::Goal(_) => b"Goal",
    }
}

// What is said of an essential package that is missing.
fn essential_text(alloc: Global, name: &[u8]) -> Result<Vec<u8>, AllocError>
    ensures { IfOk result (λ text. text.items ≡ Spec.essential_words name.now) }
{
    let mut text = name.to_vec(alloc)?;
    text.extend_from_slice(b" is essential, was there at the start and isn't installed")?;
    Ok(text)
}

// In which state the name is.
fn named_text(alloc: Global, db: &Records<'_, '_>, name: &[u8]) -> Result<Vec<u8>, AllocError>
    ensures { HasDistinctNames db.now → IfOk result
        (λ text. text.items ≡ Spec.standing_of name.now (record_in db.now name.now)) }
{
    let mut text = Vec::new(alloc);
    push_named(&mut text, db, name)?;
    Ok(text)
}

// What is so at the end of what the goal of this number asks for.
fn goal_text(
    alloc: Global,
    db: &Records<'_, '_>,
    universe: &Universe<'_, '_>,
    number: usize,
) -> Result<Vec<u8>, AllocError> {
    let mut text = Vec::new(alloc);
    push_unfulfilled(&mut text, db, universe, number)?;
    Ok(text)
}

// The reason against the end.
fn reason_text(
    alloc: Global,
    db: &Records<'_, '_>,
    universe: &Universe<'_, '_>,
    reason: &Reason,
) -> Result<Vec<u8>, AllocError>
    ensures { HasDistinctNames db.now → IfOk result
        (λ text. Spec.IsReasonTold db.now reason.now text.items) }
{
    match reason {
        Reason::Unfinished(name) => named_text(alloc, db, name.as_bytes()),
        Reason::Relation(name) => discontent_of(alloc, db, name.as_bytes()),
        Reason::Essential(name) => essential_text(alloc, name.as_bytes()),
        Reason::Goal(number) => goal_text(alloc, db, universe, *number),
    }
}

/// What is against the end.
pub(crate) fn end_text(
    alloc: Global,
    db: &Records<'_, '_>,
    universe: &Universe<'_, '_>,
    reason: &Reason,
) -> Result<Vec<u8>, AllocError>
    ensures { HasDistinctNames db.now → IfOk result
        (λ text. Spec.IsEndTold db.now reason.now text.items) }
{
    let said = reason_text(alloc, db, universe, reason)?;
    let mut text = Vec::new(alloc);
    text.extend_from_slice(b"The end isn't good (F11 ")?;
    text.extend_from_slice(word_of(reason))?;
    text.extend_from_slice(b"): ")?;
    text.extend_from_slice(said.as_slice())?;
    text.extend_from_slice(b".\n")?;
    Ok(text)
}
