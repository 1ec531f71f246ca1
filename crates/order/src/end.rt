// Whether an end is the one that is wanted: good, and with just the selection installed.

ghost use Rattle.std.specs.Prelude.{◌≡◌, ◌↔◌, true, IfOk, IsTrue};
ghost use Rattle.std.specs.List.{All, Any};
ghost use Rattle.rules.specs.Database.{IsInstalled, installed_of, pkg_of};
ghost use Rattle.rules.specs.Sound.{HasVersion};
ghost use Rattle.rules.specs.Universe.{IsOf};
ghost use Rattle.universe_parts.specs.Parts.{packages_of};
ghost use Rattle.forward_steps.specs.PartialPlan.{IsProblem, IsReached, selected_in};
ghost use Rattle.order.specs.Order.{InstalledAreSelected, IsWantedEnd};
ghost use Rattle.forward_steps.specs.Selection.{IsOneEach, is_member_version};

use debversion::Version;
use forward_steps::{Member, MemberTable, PartialPlan, Problem};
use plancheck_end::first_against;
use plancheck_state::{Holders, Records, StateRecord, is_same};
use relation::Pkg;
use rules::{good_plan_has_yes, good_where_nothing_is_against};
use std::alloc::AllocError;

// Whether the record isn't installed, or its version is a member.
fn is_selected(members: &MemberTable<'_>, entry: &StateRecord<'_, '_>) -> bool
    ensures { IsTrue result
        ↔ (IsInstalled entry.now → is_member_version members.now entry.now.name entry.now.version
        ≡ true) }
{
    match entry.present_pkg() {
        Some(there) if entry.state().is_installed() => {
            members.has_version(entry.name(), there.version())
        }
        _ => true,
    }
}

// Whether the version of each installed record is a member.
fn are_selected(db: &Records<'_, '_>, members: &MemberTable<'_>) -> bool
    ensures { IsTrue result
        ↔ All (λ entry. IsInstalled entry → is_member_version members.now entry.name entry.version
        ≡ true) db.now }
{
    db.as_slice()
        .iter()
        .all(|entry| is_selected(members, entry))
}

fn is_of(pkg: &Pkg<'_>, name: &[u8], version: &Version<'_>) -> bool
    ensures { IsTrue result ↔ IsOf name.now version.now pkg.now }
{
    is_same(pkg.name(), name) && pkg.version() == version
}

fn is_installed_version(entry: &StateRecord<'_, '_>, name: &[u8], version: &Version<'_>) -> bool
    ensures { IsTrue result
        ↔ (IsInstalled entry.now × IsOf name.now version.now (pkg_of entry.now)) }
{
    match entry.present_pkg() {
        Some(there) if entry.state().is_installed() => is_of(there, name, version),
        _ => false,
    }
}

fn some_is_version(mut holders: Holders<'_, '_, '_>, name: &[u8], version: &Version<'_>) -> bool
    ensures { IsTrue result
        ↔ Any (λ entry. IsInstalled entry
        × IsOf name.now version.now (pkg_of entry)) holders.entry }
{
    holders.any(|entry| is_installed_version(entry, name, version))
}

// Whether this version of the name is installed.
fn has_version(db: &Records<'_, '_>, name: &[u8], version: &Version<'_>) -> bool
    ensures { IsTrue result ↔ HasVersion name.now version.now (installed_of db.now) }
{
    some_is_version(db.holders(name), name, version)
}

// Whether the member is installed.
fn is_installed(db: &Records<'_, '_>, member: &Member<'_>) -> bool
    ensures { IsTrue result
        ↔ HasVersion member.now.pkg.name member.now.pkg.version (installed_of db.now) }
{
    has_version(db, member.name(), member.version())
}

// Whether each member is installed.
fn are_installed(db: &Records<'_, '_>, members: &[Member<'_>]) -> bool
    ensures { IsTrue result
        ↔ All (λ member.
        HasVersion member.pkg.name member.pkg.version (installed_of db.now)) members.now }
{
    members.iter().all(|member| is_installed(db, member))
}

// Whether just the members are installed.
fn is_exact(db: &Records<'_, '_>, members: &MemberTable<'_>) -> bool
    requires { IsOneEach (packages_of members.now) }
    ensures { IsTrue result ↔ InstalledAreSelected (packages_of members.now) db.now }
{
    are_selected(db, members) && are_installed(db, members.as_slice())
}

/// Whether the end reached is good, and just the selection is installed. It costs what `plancheck_end::first_against` does,
/// and a look for each record and each member. Memory alone can fail.
pub(crate) fn is_wanted<'p, 'a>(
    problem: &Problem<'_, '_, 'p, 'a>,
    plan: &PartialPlan<'p, 'a>,
) -> Result<bool, AllocError>
    requires problem { IsProblem problem.now }
    requires reached { IsReached problem.now plan.now }
    ensures { IfOk result
        (λ answer. IsTrue answer
        ↔ IsWantedEnd problem.now.universe.now (selected_in problem.now) plan.now.db) }
{
    good_where_nothing_is_against();
    good_plan_has_yes();
    let against = first_against(problem.alloc, problem.universe, &plan.db)?;
    if against.is_some() {
        return Ok(false);
    }
    let exact = is_exact(&plan.db, problem.members);
    Ok(exact)
}
