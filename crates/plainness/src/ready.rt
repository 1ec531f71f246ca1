// Whether the members that don't stay have their Pre-Depends among those that do (Policy 7.2).

ghost use Rattle.std.specs.Prelude.{◌≡◌, ◌↔◌, ◌⊎◌, Contains, IfOk, IsTrue, OnOk, map};
ghost use Rattle.std.specs.List.{All};
ghost use Rattle.rules.specs.Database.{HasRecord, HasSoundFlag, IsInstalled};
ghost use Rattle.rules.specs.Package.{Pkg as PkgValue};
ghost use Rattle.rules.specs.Version.{SameVersion};
ghost use Rattle.plain.specs.Change.{IsReady, Stays};
ghost use Rattle.plainness.specs.Parts.{AreStaying, IsMatchedByOther, IsReadyBy};

use crate::packages::Packages;
use debversion::Version;
use plancheck_state::{Holders, Records, StateRecord, is_same};
use relation::{Clause, Pkg};
use std::alloc::{AllocError, Global};

// Whether the package of the record is installed with flag ok in this version.
fn is_version(entry: &StateRecord<'_, '_>, version: &Version<'_>) -> bool
    ensures { IsTrue result
        ↔ (IsInstalled entry.now × HasSoundFlag entry.now
        × SameVersion entry.now.version version.now) }
{
    match entry.present_pkg() {
        Some(there) if entry.state().is_installed() => {
            entry.flag().is_sound() && there.version() == version
        }
        _ => false,
    }
}

fn is_named_version(entry: &StateRecord<'_, '_>, name: &[u8], version: &Version<'_>) -> bool
    ensures { IsTrue result ↔ ((entry.now.name ≡ name.now)
        × (IsInstalled entry.now × HasSoundFlag entry.now
        × SameVersion entry.now.version version.now)) }
{
    is_same(entry.name(), name) && is_version(entry, version)
}

fn some_is_version(mut holders: Holders<'_, '_, '_>, name: &[u8], version: &Version<'_>) -> bool
    ensures { IsTrue result
        ↔ HasRecord (λ entry. IsInstalled entry × HasSoundFlag entry
        × SameVersion entry.version version.now) name.now holders.entry }
{
    holders.any(|entry| is_named_version(entry, name, version))
}

fn is_staying(start: &Records<'_, '_>, name: &[u8], version: &Version<'_>) -> bool
    ensures { IsTrue result
        ↔ HasRecord (λ entry. IsInstalled entry × HasSoundFlag entry
        × SameVersion entry.version version.now) name.now start.now }
{
    some_is_version(start.holders(name), name, version)
}

// Whether the member's version is installed with flag ok at the start.
#[tactic(auto, unfolding(plain::specs::Change::Stays))]
fn stays(start: &Records<'_, '_>, member: &Pkg<'_>) -> bool
    ensures { IsTrue result ↔ Stays start.now member.now }
{
    is_staying(start, member.name(), member.version())
}

// Puts the member behind those that stay, if it stays.
fn push_staying<'k, 'a>(
    start: &Records<'_, '_>,
    staying: &mut Vec<&'k Pkg<'a>>,
    member: &'k Pkg<'a>,
) -> Result<(), AllocError>
    ensures { OnOk result ((pkg : PkgValue) → Contains (map (λ pkg. pkg.now) staying.new.items) pkg
        ↔ (Contains (map (λ pkg. pkg.now) staying.old.items) pkg
        ⊎ ((pkg ≡ member.now) × Stays start.now pkg))) }
{
    if !stays(start, member) {
        return Ok(());
    }
    staying.push(member)?;
    Ok(())
}

// The members that stay.
fn staying_of<'k, 'a>(
    alloc: Global,
    start: &Records<'_, '_>,
    members: &[&'k Pkg<'a>],
) -> Result<Vec<&'k Pkg<'a>>, AllocError>
    ensures { IfOk result
        (λ staying. AreStaying start.now (map (λ pkg. pkg.now) members.now)
        (map (λ pkg. pkg.now) staying.items)) }
{
    let mut staying = Vec::new(alloc);
    for member in members {
        push_staying(start, &mut staying, member)?;
    }
    Ok(staying)
}

// Whether each of the clauses is matched by one of the packages of another name than this.
fn are_matched(
    packages: &Packages<'_, '_>,
    name: &[u8],
    clauses: &[Clause<'_>],
) -> Result<bool, AllocError>
    ensures { IfOk result
        (λ answer. IsTrue answer ↔ All (IsMatchedByOther packages.now name.now) clauses.now) }
{
    for clause in clauses {
        let met = packages.have_match(name, clause.as_slice())?;
        if !met {
            return Ok(false);
        }
    }
    Ok(true)
}

// Whether the member stays, or has each Pre-Depends clause matched by one of those that do.
fn is_ready(
    start: &Records<'_, '_>,
    staying: &Packages<'_, '_>,
    member: &Pkg<'_>,
) -> Result<bool, AllocError>
    ensures { IfOk result (λ answer. IsTrue answer ↔ IsReadyBy start.now staying.now member.now) }
{
    if stays(start, member) {
        return Ok(true);
    }
    let answer = are_matched(staying, member.name(), member.pre_depends())?;
    Ok(answer)
}

// The same of each member.
fn all_are_ready(
    start: &Records<'_, '_>,
    staying: &Packages<'_, '_>,
    members: &[&Pkg<'_>],
) -> Result<bool, AllocError>
    ensures { IfOk result
        (λ answer. IsTrue answer
        ↔ All (λ member. IsReadyBy start.now staying.now member.now) members.now) }
{
    for member in members {
        let ready = is_ready(start, staying, member)?;
        if !ready {
            return Ok(false);
        }
    }
    Ok(true)
}

/// Whether each member that doesn't stay has each Pre-Depends clause matched by another that does. Memory alone can fail. For
/// each member linear in the records that have or provide its name, and for each atom in the members that have or provide
/// its name.
pub(crate) fn are_ready(
    alloc: Global,
    start: &Records<'_, '_>,
    members: &[&Pkg<'_>],
) -> Result<bool, AllocError>
    ensures { IfOk result
        (λ answer. IsTrue answer
        ↔ All (IsReady start.now (map (λ member. member.now) members.now))
        (map (λ member. member.now) members.now)) }
{
    let lent = staying_of(alloc, start, members)?;
    let staying = Packages::new(alloc, lent.as_slice())?;
    let answer = all_are_ready(start, &staying, members)?;
    Ok(answer)
}
