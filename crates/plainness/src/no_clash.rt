// Whether what was present and what is selected have no relation against each other (Policy 7.3 and 7.4).

ghost use Rattle.std.specs.Prelude.{◌≡◌, ◌↔◌, ◌++◌, IfOk, IsTrue, OnOk, map};
ghost use Rattle.std.specs.List.{All, filter};
ghost use Rattle.rules.specs.Database.{pkg_of};
ghost use Rattle.rules.specs.State.{is_present_state};
ghost use Rattle.plain.specs.Change.{HaveNoClash, old_and_new};
ghost use Rattle.plainness.specs.Parts.{ClashesWithNone, NoneClash};

use crate::packages::Packages;
use plancheck_state::{Records, StateRecord};
use relation::Pkg;
use std::alloc::{AllocError, Global};

// The packages of the present records.
fn present_of<'p, 'a>(
    alloc: Global,
    records: &[StateRecord<'p, 'a>],
) -> Result<Vec<&'p Pkg<'a>>, AllocError>
    ensures { IfOk result (λ present. map (λ pkg. pkg.now) present.items
        ≡ map pkg_of (filter (λ entry. is_present_state entry.state) records.now)) }
{
    let mut present = Vec::new(alloc);
    for entry in records {
        if let Some(pkg) = entry.present_pkg() {
            present.push(pkg)?;
        }
    }
    Ok(present)
}

// Puts the members behind the packages.
fn push_members<'k, 'a>(
    packages: &mut Vec<&'k Pkg<'a>>,
    members: &[&'k Pkg<'a>],
) -> Result<(), AllocError>
    ensures { OnOk result (map (λ pkg. pkg.now) packages.new.items
        ≡ map (λ pkg. pkg.now) packages.old.items ++ map (λ pkg. pkg.now) members.now) }
{
    for member in members {
        packages.push(*member)?;
    }
    Ok(())
}

// The packages that are present at the start, and the members.
fn old_and_new<'k, 'a>(
    alloc: Global,
    start: &Records<'k, 'a>,
    members: &[&'k Pkg<'a>],
) -> Result<Vec<&'k Pkg<'a>>, AllocError>
    ensures { IfOk result (λ packages. map (λ pkg. pkg.now) packages.items
        ≡ old_and_new start.now (map (λ member. member.now) members.now)) }
{
    let mut packages = present_of(alloc, start.as_slice())?;
    push_members(&mut packages, members)?;
    Ok(packages)
}

// Whether the package conflicts with and breaks none of the packages of another name.
fn clashes_with_none(packages: &Packages<'_, '_>, pkg: &Pkg<'_>) -> Result<bool, AllocError>
    ensures { IfOk result (λ answer. IsTrue answer ↔ ClashesWithNone packages.now pkg.now) }
{
    let conflicts = packages.have_match(pkg.name(), pkg.conflicts())?;
    let breaks = packages.have_match(pkg.name(), pkg.breaks())?;
    Ok(!conflicts && !breaks)
}

// The same of each of these packages.
fn all_clash_with_none(packages: &Packages<'_, '_>, each: &[&Pkg<'_>]) -> Result<bool, AllocError>
    ensures { IfOk result
        (λ answer. IsTrue answer ↔ All (λ pkg. ClashesWithNone packages.now pkg.now) each.now) }
{
    for pkg in each {
        let free = clashes_with_none(packages, pkg)?;
        if !free {
            return Ok(false);
        }
    }
    Ok(true)
}

// Whether no package conflicts with or breaks another of another name.
fn none_clash(packages: &Packages<'_, '_>) -> Result<bool, AllocError>
    ensures { IfOk result (λ answer. IsTrue answer ↔ NoneClash packages.now) }
{
    let answer = all_clash_with_none(packages, packages.as_slice())?;
    Ok(answer)
}

/// Whether no package that is present at the start or a member conflicts with or breaks another of these of another name.
/// Memory alone can fail. For each atom linear in those that have or provide its name.
pub(crate) fn have_no_clash<'k, 'a>(
    alloc: Global,
    start: &Records<'k, 'a>,
    members: &[&'k Pkg<'a>],
) -> Result<bool, AllocError>
    ensures { IfOk result
        (λ answer. IsTrue answer ↔ HaveNoClash start.now (map (λ member. member.now) members.now)) }
{
    let lent = old_and_new(alloc, start, members)?;
    let packages = Packages::new(alloc, lent.as_slice())?;
    let answer = none_clash(&packages)?;
    Ok(answer)
}
