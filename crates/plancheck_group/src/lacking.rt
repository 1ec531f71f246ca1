// Names are dropped from a group whose Depends what is left doesn't meet: what such a name lacks is lacking in every part of what
// is left, so no part that passes has it (Policy 7.2).

ghost use Rattle.std.specs.Prelude.{◌≡◌, ◌↔◌, ◌<◌, true, false, length, IfOk, IsTrue, OnOk};
ghost use Rattle.std.specs.List.{All, Any, Contains};
ghost use Rattle.plancheck_group.specs.Part.{IsDroppedTo, IsLookedAt, IsNarrowed, IsSupplied, IsSuppliedPart, IsWalked};

use crate::configure::is_supplied;
use crate::needs::Needs;
use crate::part::{Among, NameSet};
use plancheck_state::Records;
use rules::Name;
use std::alloc::{AllocError, Global};

/// Whether the Depends of the name's package are met by installed packages and what is left.
pub fn is_met_in(db: &Records<'_, '_>, part: &NameSet<'_>, name: &[u8]) -> bool
    ensures { IsTrue result ↔ IsSupplied db.now part.now name.now }
{
    is_supplied(db, &Among::of_set(part), name)
}

// Whether the name is one of the part's whose Depends aren't met there.
fn is_lacking(db: &Records<'_, '_>, part: &NameSet<'_>, name: &[u8]) -> bool
    ensures lacks { result ≡ true → Contains part.now name.now
        × ¬ IsSupplied db.now part.now name.now }
    ensures supplied { result ≡ false → Contains part.now name.now
        → IsSupplied db.now part.now name.now }
{
    if !part.has(name) {
        return false;
    }
    !is_met_in(db, part, name)
}

// Drops the name, if it is lacking. Answers whether.
fn drop_lacking(db: &Records<'_, '_>, part: &mut NameSet<'_>, name: &[u8]) -> bool
    ensures narrowed { IsNarrowed db.now part.old part.new }
    ensures dropped { result ≡ true → length part.new < length part.old }
    ensures same { result ≡ false → part.new ≡ part.old }
    ensures supplied { result ≡ false → Contains part.new name.now
        → IsSupplied db.now part.new name.now }
{
    if !is_lacking(db, part, name) {
        return false;
    }
    part.leave_out(name);
    true
}

// The same, and adds the name to those that went.
fn move_lacking<'n>(
    db: &Records<'_, '_>,
    part: &mut NameSet<'_>,
    name: &'n [u8],
    gone: &mut Vec<&'n [u8]>,
) -> Result<(), AllocError>
    ensures { OnOk result
        (IsLookedAt db.now name.now part.old part.new (length gone.old.items)
        (length gone.new.items)) }
{
    if !drop_lacking(db, part, name) {
        return Ok(());
    }
    gone.push(name)?;
    Ok(())
}

// Drops those of the names that are lacking, in one walk over them, and answers them.
fn drop_each<'n>(
    alloc: Global,
    db: &Records<'_, '_>,
    names: &'n [Name],
    part: &mut NameSet<'n>,
) -> Result<Vec<&'n [u8]>, AllocError>
    ensures { IfOk result
        (λ gone. IsWalked db.now names.now part.old part.new (length gone.items)) }
{
    let mut gone = Vec::new(alloc);
    for name in names {
        move_lacking(db, part, name.as_bytes(), &mut gone)?;
    }
    Ok(gone)
}

// Drops those that are lacking of the names that ask for this one, and adds them to the next.
fn drop_asking<'n>(
    db: &Records<'_, '_>,
    needs: &Needs<'n>,
    part: &mut NameSet<'n>,
    name: &[u8],
    next: &mut Vec<&'n [u8]>,
) -> Result<(), AllocError>
    ensures { OnOk result
        (IsDroppedTo db.now part.old part.new (length next.old.items) (length next.new.items)) }
{
    let Some(asked) = needs.asking_for(name) else {
        return Ok(());
    };
    for asking in asked.as_slice() {
        move_lacking(db, part, *asking, next)?;
    }
    Ok(())
}

// The same for each of the names that went, and answers the next.
fn drop_next<'n>(
    alloc: Global,
    db: &Records<'_, '_>,
    needs: &Needs<'n>,
    part: &mut NameSet<'n>,
    gone: &[&'n [u8]],
) -> Result<Vec<&'n [u8]>, AllocError>
    ensures { IfOk result (λ next. IsDroppedTo db.now part.old part.new 0 (length next.items)) }
{
    let mut next = Vec::new(alloc);
    for name in gone {
        drop_asking(db, needs, part, name, &mut next)?;
    }
    Ok(next)
}

// Whether the name is one of the lost ones and isn't left.
fn is_lost(lost: &NameSet<'_>, part: &NameSet<'_>, name: &[u8]) -> bool
    ensures { IsTrue result ↔ (Contains lost.now name.now × (¬ Contains part.now name.now)) }
{
    lost.has(name) && !part.has(name)
}

fn some_is_lost(lost: &NameSet<'_>, part: &NameSet<'_>, gone: &[&[u8]]) -> bool
    ensures { IsTrue result
        ↔ Any (λ name. Contains lost.now name.now × (¬ Contains part.now name.now)) gone.now }
{
    gone.iter().any(|name| is_lost(lost, part, name))
}

/// Drops what is lacking since these names went, and what is lacking since that went, until nothing more of it is or one of the
/// lost names is gone. Answers whether one is. A name is looked at again only when a name that it needs has gone. Memory alone
/// can fail.
pub fn drop_after<'n>(
    alloc: Global,
    db: &Records<'_, '_>,
    needs: &Needs<'n>,
    lost: &NameSet<'_>,
    part: &mut NameSet<'n>,
    gone: Vec<&'n [u8]>,
) -> Result<bool, AllocError>
    ensures narrowed { OnOk result (IsNarrowed db.now part.old part.new) }
    ensures lost { IfOk result
        (λ hit. hit ≡ true → Any (λ name. ¬ Contains part.new name) lost.now) }
{
    let mut gone = gone;
    'turns: while !gone.is_empty() {
        if some_is_lost(lost, part, gone.as_slice()) {
            return Ok(true);
        }
        let next = drop_next(alloc, db, needs, part, gone.as_slice())?;
        gone = next;
    }
    Ok(false)
}

/// Drops what is lacking, until nothing is: each name is looked at, then what needs those that went, and so on; a walk over the
/// names that drops nothing is the last. Memory alone can fail.
pub fn keep_supplied<'n>(
    alloc: Global,
    db: &Records<'_, '_>,
    names: &'n [Name],
    needs: &Needs<'n>,
    part: &mut NameSet<'n>,
) -> Result<(), AllocError>
    requires { All (Contains names.now) part.old }
    ensures { OnOk result (IsSuppliedPart db.now part.old part.new) }
{
    let none = NameSet::new(alloc);
    let mut gone = drop_each(alloc, db, names, part)?;
    'turns: while !gone.is_empty() {
        let _hit = drop_after(alloc, db, needs, &none, part, gone)?;
        let next = drop_each(alloc, db, names, part)?;
        gone = next;
    }
    Ok(())
}
