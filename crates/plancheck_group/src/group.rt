// The greatest part of a group that could be configured by itself, and whether a proper part could (Policy 7.2
// and 7.3).

ghost use Rattle.std.specs.Prelude.{◌≡◌, ◌≢◌, ◌↔◌, ℕ, List, true, IfOk, IsTrue, OnOk};
ghost use Rattle.std.specs.List.{All, Any, Contains};
ghost use Rattle.rules.specs.Configure.{IsGreatestPart, IsIndivisible};
ghost use Rattle.plancheck_group.specs.Part.{HasNoPartWithout, HaveSameNames, IsNarrowed, IsPartWith, IsReady, IsSupplied, NothingWithout};

use crate::lacking::{drop_after, is_met_in, keep_supplied};
use crate::needs::Needs;
use crate::part::NameSet;
use crate::ready::{keep_ready, names_left, ready_of};
use plancheck_state::Records;
use rules::{Name, indivisible_by_others};
use std::alloc::{AllocError, Global};

/// The names of the greatest part of the group that passes the tests of a configuring together, but for the one of its
/// parts: it has each name of every part that does. A name's Depends are tested once, and again when a name that it needs has
/// gone; for what is left then the other tests cost what `keep_ready` says. Memory alone can fail.
pub fn greatest_part(
    alloc: Global,
    db: &Records<'_, '_>,
    names: &[Name],
) -> Result<Vec<Name>, AllocError>
    ensures { IfOk result (λ part. IsGreatestPart db.now names.now part.items) }
{
    let needs = Needs::read(alloc, db, names)?;
    let mut part = NameSet::of(alloc, names)?;
    keep_supplied(alloc, db, names, &needs, &mut part)?;
    keep_ready(db, names, &mut part);
    keep_supplied(alloc, db, names, &needs, &mut part)?;
    let left = names_left(alloc, names, &part)?;
    Ok(left)
}

// The ready names but for this one.
fn others<'n>(alloc: Global, ready: &'n [Name], name: &[u8]) -> Result<NameSet<'n>, AllocError>
    ensures { IfOk result (λ others. IsPartWith (λ other. other ≢ name.now) ready.now others) }
{
    let mut others = NameSet::of(alloc, ready)?;
    others.leave_out(name);
    Ok(others)
}

// Drops what is lacking since the name went, up to one of the lost ones. Answers whether one of them is gone.
fn drop_without<'n>(
    alloc: Global,
    db: &Records<'_, '_>,
    needs: &Needs<'n>,
    lost: &NameSet<'_>,
    part: &mut NameSet<'n>,
    name: &'n [u8],
) -> Result<bool, AllocError>
    ensures narrowed { OnOk result (IsNarrowed db.now part.old part.new) }
    ensures lost { IfOk result
        (λ hit. hit ≡ true → Any (λ name. ¬ Contains part.new name) lost.now) }
{
    let mut gone = Vec::new(alloc);
    gone.push(name)?;
    let hit = drop_after(alloc, db, needs, lost, part, gone)?;
    Ok(hit)
}

// Whether nothing passes of the ready names without this one, where nothing does without one of the lost ones.
fn is_lost_without<'n>(
    alloc: Global,
    db: &Records<'_, '_>,
    ready: &'n [Name],
    needs: &Needs<'n>,
    lost: &NameSet<'_>,
    name: &'n [u8],
) -> Result<bool, AllocError>
    requires ready { All (IsReady db.now) ready.now }
    requires lost { All (NothingWithout db.now ready.now) lost.now }
    ensures { IfOk result (λ answer. IsTrue answer ↔ NothingWithout db.now ready.now name.now) }
{
    let mut part = others(alloc, ready, name)?;
    let hit = drop_without(alloc, db, needs, lost, &mut part, name)?;
    if hit {
        return Ok(true);
    }
    keep_supplied(alloc, db, ready, needs, &mut part)?;
    Ok(part.is_empty())
}

// Whether the name is one of the lost ones and its Depends aren't met among the others.
fn is_stranded(db: &Records<'_, '_>, lost: &NameSet<'_>, others: &NameSet<'_>, name: &[u8]) -> bool
    ensures { IsTrue result
        ↔ (Contains lost.now name.now × (¬ IsSupplied db.now others.now name.now)) }
{
    lost.has(name) && !is_met_in(db, others, name)
}

fn some_is_stranded(
    db: &Records<'_, '_>,
    lost: &NameSet<'_>,
    others: &NameSet<'_>,
    names: &[&[u8]],
) -> bool
    ensures { IsTrue result
        ↔ Any (λ name. Contains lost.now name.now
        × (¬ IsSupplied db.now others.now name.now)) names.now }
{
    names.iter().any(|name| is_stranded(db, lost, others, name))
}

// Whether one of the lost names asks for this one, and lacks it among the others.
fn is_asked_by_lost(
    db: &Records<'_, '_>,
    needs: &Needs<'_>,
    lost: &NameSet<'_>,
    others: &NameSet<'_>,
    name: &[u8],
) -> bool
    ensures { result ≡ true → Any (λ name. ¬ IsSupplied db.now others.now name) lost.now }
{
    match needs.asking_for(name) {
        Some(asking) => some_is_stranded(db, lost, others, asking.as_slice()),
        None => false,
    }
}

// Whether nothing passes of the names without this one, as far as the lost names that ask for it tell: that takes no copy of the
// names, which have the same as before.
fn is_missed<'n>(
    db: &Records<'_, '_>,
    needs: &Needs<'n>,
    lost: &NameSet<'_>,
    whole: &mut NameSet<'n>,
    name: &'n [u8],
) -> Result<bool, AllocError>
    ensures missed { IfOk result
        (λ missed. missed ≡ true → (ready : List (List ℕ)) → HaveSameNames whole.old ready
        → All (NothingWithout db.now ready) lost.now → NothingWithout db.now ready name.now) }
    ensures same { OnOk result (HaveSameNames whole.new whole.old) }
{
    if !whole.has(name) {
        return Ok(false);
    }
    whole.leave_out(name);
    let missed = is_asked_by_lost(db, needs, lost, whole, name);
    whole.insert(name)?;
    Ok(missed)
}

// Adds the name to the lost ones, if nothing passes without it. Answers whether.
fn lose_one<'n>(
    alloc: Global,
    db: &Records<'_, '_>,
    ready: &'n [Name],
    needs: &Needs<'n>,
    lost: &mut NameSet<'n>,
    name: &'n [u8],
) -> Result<bool, AllocError>
    requires ready { All (IsReady db.now) ready.now }
    requires lost { All (NothingWithout db.now ready.now) lost.old }
    ensures { OnOk result (All (NothingWithout db.now ready.now) lost.new) }
{
    let known = is_lost_without(alloc, db, ready, needs, lost, name)?;
    if !known {
        return Ok(false);
    }
    lost.insert(name)?;
    Ok(true)
}

// The same of a name for which lost ones may ask; all ready names are left in the whole.
fn lose_next<'n>(
    alloc: Global,
    db: &Records<'_, '_>,
    ready: &'n [Name],
    needs: &Needs<'n>,
    lost: &mut NameSet<'n>,
    whole: &mut NameSet<'n>,
    name: &'n [u8],
) -> Result<bool, AllocError>
    requires ready { All (IsReady db.now) ready.now }
    requires lost { All (NothingWithout db.now ready.now) lost.old }
    requires whole { HaveSameNames whole.old ready.now }
    ensures lost { OnOk result (All (NothingWithout db.now ready.now) lost.new) }
    ensures whole { OnOk result (HaveSameNames whole.new ready.now) }
{
    let missed = is_missed(db, needs, lost, whole, name)?;
    if !missed {
        let known = lose_one(alloc, db, ready, needs, lost, name)?;
        return Ok(known);
    }
    lost.insert(name)?;
    Ok(true)
}

// Adds the names to the lost ones, one after another, up to the first that isn't lost.
fn lose<'n>(
    alloc: Global,
    db: &Records<'_, '_>,
    ready: &'n [Name],
    needs: &Needs<'n>,
    turn: &[&'n [u8]],
    lost: &mut NameSet<'n>,
) -> Result<(), AllocError>
    requires ready { All (IsReady db.now) ready.now }
    requires lost { All (NothingWithout db.now ready.now) lost.old }
    ensures { OnOk result (All (NothingWithout db.now ready.now) lost.new) }
{
    let mut whole = NameSet::of(alloc, ready)?;
    for name in turn {
        let known = lose_next(alloc, db, ready, needs, lost, &mut whole, *name)?;
        if !known {
            return Ok(());
        }
    }
    Ok(())
}

// The same of a name that may be one of the lost ones.
fn is_lost_name<'n>(
    alloc: Global,
    db: &Records<'_, '_>,
    ready: &'n [Name],
    needs: &Needs<'n>,
    lost: &NameSet<'_>,
    name: &'n Name,
) -> Result<bool, AllocError>
    requires ready { All (IsReady db.now) ready.now }
    requires lost { All (NothingWithout db.now ready.now) lost.now }
    ensures { IfOk result (λ answer. IsTrue answer ↔ NothingWithout db.now ready.now name.now) }
{
    let text = name.as_bytes();
    if lost.has(text) {
        return Ok(true);
    }
    let answer = is_lost_without(alloc, db, ready, needs, lost, text)?;
    Ok(answer)
}

// Whether nothing passes of the ready names without any one of these.
fn are_lost<'n>(
    alloc: Global,
    db: &Records<'_, '_>,
    names: &'n [Name],
    ready: &'n [Name],
    needs: &Needs<'n>,
    lost: &NameSet<'_>,
) -> Result<bool, AllocError>
    requires ready { All (IsReady db.now) ready.now }
    requires lost { All (NothingWithout db.now ready.now) lost.now }
    ensures { IfOk result
        (λ answer. IsTrue answer ↔ All (NothingWithout db.now ready.now) names.now) }
{
    for name in names {
        let known = is_lost_name(alloc, db, ready, needs, lost, name)?;
        if !known {
            return Ok(false);
        }
    }
    Ok(true)
}

// Whether for each of these names the greatest part of the others that passes is empty. The names are left out in the order in
// which one asks for the next, so that the one before it is soon dropped.
fn has_no_part(
    alloc: Global,
    db: &Records<'_, '_>,
    names: &[Name],
    ready: &[Name],
) -> Result<bool, AllocError>
    requires { IsPartWith (IsReady db.now) names.now ready.now }
    ensures { IfOk result
        (λ answer. IsTrue answer ↔ All (HasNoPartWithout db.now names.now) names.now) }
{
    let needs = Needs::read(alloc, db, ready)?;
    let turn = needs.in_turn(alloc)?;
    let mut lost = NameSet::new(alloc);
    lose(alloc, db, ready, &needs, turn.as_slice(), &mut lost)?;
    let answer = are_lost(alloc, db, names, ready, &needs, &lost)?;
    Ok(answer)
}

/// Whether no proper part of the group could be configured by itself. A group of one name needs no test; in another each name
/// is left out in turn, and what is lacking then is dropped, until a name is gone without which nothing passes. So a group
/// whose names need each other is linear in what they ask for, and no group costs more than that for each name. Memory alone
/// can fail.
pub fn is_indivisible(
    alloc: Global,
    db: &Records<'_, '_>,
    names: &[Name],
) -> Result<bool, AllocError>
    ensures { IfOk result (λ answer. IsTrue answer ↔ IsIndivisible db.now names.now) }
{
    indivisible_by_others();
    if names.len() == 1 {
        return Ok(true);
    }
    let ready = ready_of(alloc, db, names)?;
    has_no_part(alloc, db, names, ready.as_slice())
}
