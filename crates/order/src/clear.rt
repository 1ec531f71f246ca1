// How the way is made free: what needs a package that goes, and what a package breaks, is deconfigured before. The judge alone
// decides what is taken.

ghost use Rattle.std.specs.Prelude.{IfOk};
ghost use Rattle.forward_steps.specs.PartialPlan.{IsReached};

use forward_steps::{PartialPlan, Problem, take};
use plancheck::remove_failing;
use plancheck_state::{Records, StateRecord, breaks_other, conflicts_with, matches_some};
use relation::{Clause, Pkg};
use rules::{Name, Rule, Step, is_name};
use std::alloc::{AllocError, Global};

// Whether a package of another name that stands matches the clause.
fn is_met_by_another(db: &Records<'_, '_>, name: &[u8], clause: &Clause<'_>) -> bool {
    for atom in clause.as_slice() {
        for entry in db.holders(atom.name()) {
            if entry.stands() && entry.name() != name {
                if let Some(pkg) = entry.present_pkg() {
                    if atom.matched_by(pkg) {
                        return true;
                    }
                }
            }
        }
    }
    false
}

/// Whether the clause needs the package: it matches, and no other that stands does.
pub(crate) fn is_needed_by(db: &Records<'_, '_>, pkg: &Pkg<'_>, clause: &Clause<'_>) -> bool {
    matches_some(pkg, clause.as_slice()) && !is_met_by_another(db, pkg.name(), clause)
}

// Whether one of the clauses needs the package.
fn some_needs(db: &Records<'_, '_>, pkg: &Pkg<'_>, clauses: &[Clause<'_>]) -> bool {
    clauses.iter().any(|clause| is_needed_by(db, pkg, clause))
}

// Whether the record is installed and needs the package.
fn needs(db: &Records<'_, '_>, pkg: &Pkg<'_>, entry: &StateRecord<'_, '_>) -> bool {
    entry.state().is_installed()
        && entry.name() != pkg.name()
        && (some_needs(db, pkg, entry.pre_depends()) || some_needs(db, pkg, entry.depends()))
}

/// The package of the name, if it is present.
pub(crate) fn present<'p, 'a>(db: &Records<'p, 'a>, name: &[u8]) -> Option<&'p Pkg<'a>> {
    for entry in db.holders(name) {
        if entry.name() == name {
            return entry.present_pkg();
        }
    }
    None
}

// The names of the installed packages that need the one of this name.
fn needing(alloc: Global, db: &Records<'_, '_>, name: &[u8]) -> Result<Vec<Name>, AllocError> {
    let mut names = Vec::new(alloc);
    if let Some(pkg) = present(db, name) {
        for entry in db.as_slice() {
            if is_name(entry.name()) && needs(db, pkg, entry) {
                names.push(Name::copied_from(alloc, entry.name())?)?;
            }
        }
    }
    Ok(names)
}

/// The names of the installed packages that the package breaks.
pub(crate) fn broken_by(
    alloc: Global,
    db: &Records<'_, '_>,
    pkg: &Pkg<'_>,
) -> Result<Vec<Name>, AllocError> {
    let mut names = Vec::new(alloc);
    for entry in db.as_slice() {
        if let Some(other) = entry.present_pkg() {
            if entry.state().is_installed()
                && is_name(entry.name())
                && entry.name() != pkg.name()
                && breaks_other(pkg, other)
            {
                names.push(Name::copied_from(alloc, entry.name())?)?;
            }
        }
    }
    Ok(names)
}

/// The names of the present packages of other names that break the one of this name.
pub(crate) fn breaking(
    alloc: Global,
    db: &Records<'_, '_>,
    name: &[u8],
) -> Result<Vec<Name>, AllocError> {
    let mut names = Vec::new(alloc);
    if let Some(pkg) = present(db, name) {
        for entry in db.as_slice() {
            if let Some(other) = entry.present_pkg() {
                if is_name(entry.name()) && entry.name() != name && breaks_other(other, pkg) {
                    names.push(Name::copied_from(alloc, entry.name())?)?;
                }
            }
        }
    }
    Ok(names)
}

/// The names of the present packages of other names that conflict with the package, either way.
pub(crate) fn conflicting(
    alloc: Global,
    db: &Records<'_, '_>,
    pkg: &Pkg<'_>,
) -> Result<Vec<Name>, AllocError> {
    let mut names = Vec::new(alloc);
    for entry in db.as_slice() {
        if let Some(other) = entry.present_pkg() {
            if is_name(entry.name())
                && entry.name() != pkg.name()
                && (conflicts_with(pkg, other) || conflicts_with(other, pkg))
            {
                names.push(Name::copied_from(alloc, entry.name())?)?;
            }
        }
    }
    Ok(names)
}

/// Deconfigures each of the names that is installed.
pub(crate) fn deconfigure_each<'p, 'a>(
    problem: &Problem<'_, '_, 'p, 'a>,
    plan: &mut PartialPlan<'p, 'a>,
    names: &[Name],
) -> Result<(), AllocError>
    requires reached { IsReached problem.now plan.old }
    ensures reached { IfOk result (λ _. IsReached problem.now plan.new) }
{
    for name in names {
        let step = Step::Deconfigure(name.try_copy(problem.alloc)?);
        let _taken = take(problem, plan, None, step)?;
    }
    Ok(())
}

/// Removes the package of the name, if what needs it alone stands in the way: that is deconfigured before. Answers whether it
/// was removed.
pub(crate) fn cut<'p, 'a>(
    problem: &Problem<'_, '_, 'p, 'a>,
    plan: &mut PartialPlan<'p, 'a>,
    name: &Name,
) -> Result<bool, AllocError>
    requires reached { IsReached problem.now plan.old }
    ensures reached { IfOk result (λ _. IsReached problem.now plan.new) }
{
    match remove_failing(&plan.db, name.as_bytes()) {
        None => {}
        Some(Rule::NeededBy) => {
            let names = needing(problem.alloc, &plan.db, name.as_bytes())?;
            deconfigure_each(problem, plan, names.as_slice())?;
        }
        Some(_) => return Ok(false),
    }
    let step = Step::Remove(name.try_copy(problem.alloc)?);
    let taken = take(problem, plan, None, step)?;
    Ok(taken)
}

/// Removes the first of the names that can be, whatever needs it. Answers whether one was.
pub(crate) fn cut_first<'p, 'a>(
    problem: &Problem<'_, '_, 'p, 'a>,
    plan: &mut PartialPlan<'p, 'a>,
    names: &[Name],
) -> Result<bool, AllocError>
    requires reached { IsReached problem.now plan.old }
    ensures reached { IfOk result (λ _. IsReached problem.now plan.new) }
{
    for name in names {
        let taken = cut(problem, plan, name)?;
        if taken {
            return Ok(true);
        }
    }
    Ok(false)
}
