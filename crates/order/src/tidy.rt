// What is done as soon as it can be: what waits is configured, and what was deconfigured to go is removed. Nothing here needs a
// proof beside that of `take`, since a step that isn't allowed isn't taken.

ghost use Rattle.std.specs.Prelude.{IfOk};
ghost use Rattle.forward_steps.specs.PartialPlan.{IsProblem, IsReached};

use crate::hindrance::{Hindrance, Hindrances};
use crate::needed::{Needs, remove_unneeded};
use crate::ring::fewest_in_need;
use crate::tried::Tried;
use forward_steps::{PartialPlan, Problem, group_of, in_order, leaving, take, waiting};
use plancheck_state::Records;
use rules::{Name, Step};
use std::alloc::{AllocError, Global};
use std::slice::from_ref;

/// Configures the name alone, if it is allowed.
pub(crate) fn configure_alone<'p, 'a>(
    problem: &Problem<'_, '_, 'p, 'a>,
    plan: &mut PartialPlan<'p, 'a>,
    name: &Name,
) -> Result<bool, AllocError>
    requires reached { IsReached problem.now plan.old }
    ensures reached { IfOk result (λ _. IsReached problem.now plan.new) }
{
    let names = in_order(problem.alloc, from_ref(name))?;
    let taken = take(problem, plan, None, Step::Configure(names))?;
    Ok(taken)
}

// Whether something is known to hinder the waiting name from being configured alone.
fn is_hindered<'a>(
    plan: &PartialPlan<'_, 'a>,
    hindrances: &mut Hindrances<'a>,
    name: &Name,
) -> Result<bool, AllocError> {
    let lacks = hindrances.has_present(plan, name.as_bytes(), Hindrance::Lack)?;
    if lacks {
        return Ok(true);
    }
    let broken = hindrances.has_present(plan, name.as_bytes(), Hindrance::Broken)?;
    Ok(broken)
}

// Configures the waiting name alone, if it can be.
fn configure_waiting_alone<'p, 'a>(
    problem: &Problem<'_, '_, 'p, 'a>,
    plan: &mut PartialPlan<'p, 'a>,
    hindrances: &mut Hindrances<'a>,
    name: &Name,
) -> Result<bool, AllocError>
    requires reached { IsReached problem.now plan.old }
    ensures reached { IfOk result (λ _. IsReached problem.now plan.new) }
{
    let hindered = is_hindered(plan, hindrances, name)?;
    if hindered {
        return Ok(false);
    }
    let taken = configure_alone(problem, plan, name)?;
    Ok(taken)
}

// Configures each of the names that can be alone, and answers whether one was.
fn configure_each<'p, 'a>(
    problem: &Problem<'_, '_, 'p, 'a>,
    plan: &mut PartialPlan<'p, 'a>,
    hindrances: &mut Hindrances<'a>,
    names: &[Name],
) -> Result<bool, AllocError>
    requires reached { IsReached problem.now plan.old }
    ensures reached { IfOk result (λ _. IsReached problem.now plan.new) }
{
    let mut moved = false;
    for name in names {
        let taken = configure_waiting_alone(problem, plan, hindrances, name)?;
        moved = moved || taken;
    }
    Ok(moved)
}

// Those of the waiting names that no present package breaks: no other can be in a group.
fn unbroken_among<'a>(
    alloc: Global,
    plan: &PartialPlan<'_, 'a>,
    hindrances: &mut Hindrances<'a>,
    names: &[Name],
) -> Result<Vec<Name>, AllocError> {
    let mut unbroken = Vec::new(alloc);
    for name in names {
        let broken = hindrances.has_present(plan, name.as_bytes(), Hindrance::Broken)?;
        if !broken {
            unbroken.push(name.try_copy(alloc)?)?;
        }
    }
    Ok(unbroken)
}

// Configures the fewest waiting names that need each other, if the judge lets them.
fn configure_ring<'p, 'a>(
    problem: &Problem<'_, '_, 'p, 'a>,
    plan: &mut PartialPlan<'p, 'a>,
) -> Result<bool, AllocError>
    requires reached { IsReached problem.now plan.old }
    ensures reached { IfOk result (λ _. IsReached problem.now plan.new) }
{
    let names = fewest_in_need(problem.alloc, &plan.db, problem.members)?;
    if names.is_empty() {
        return Ok(false);
    }
    let group = in_order(problem.alloc, names.as_slice())?;
    let taken = take(problem, plan, None, Step::Configure(group))?;
    Ok(taken)
}

// Configures a group of the names, if one can be.
fn configure_group<'p, 'a>(
    problem: &Problem<'_, '_, 'p, 'a>,
    plan: &mut PartialPlan<'p, 'a>,
    hindrances: &mut Hindrances<'a>,
    names: &[Name],
) -> Result<bool, AllocError>
    requires reached { IsReached problem.now plan.old }
    ensures reached { IfOk result (λ _. IsReached problem.now plan.new) }
{
    let unbroken = unbroken_among(problem.alloc, plan, hindrances, names)?;
    let group = group_of(problem.alloc, &plan.db, unbroken.as_slice())?;
    match group {
        None => Ok(false),
        Some(names) => {
            let taken = take(problem, plan, None, Step::Configure(names))?;
            Ok(taken)
        }
    }
}

// Configures what waits: each name alone, and where none can be, a group, of which the smallest ring is tried first.
fn configure_waiting<'p, 'a>(
    problem: &Problem<'_, '_, 'p, 'a>,
    plan: &mut PartialPlan<'p, 'a>,
    hindrances: &mut Hindrances<'a>,
) -> Result<bool, AllocError>
    requires reached { IsReached problem.now plan.old }
    ensures reached { IfOk result (λ _. IsReached problem.now plan.new) }
{
    let names = waiting(problem.alloc, &plan.db, problem.members)?;
    let moved = configure_each(problem, plan, hindrances, names.as_slice())?;
    if moved {
        return Ok(true);
    }
    let ringed = configure_ring(problem, plan)?;
    if ringed {
        return Ok(true);
    }
    let grouped = configure_group(problem, plan, hindrances, names.as_slice())?;
    Ok(grouped)
}

// Whether the name isn't installed.
fn is_unconfigured(db: &Records<'_, '_>, name: &Name) -> bool {
    db.holders(name.as_bytes()).any(|entry| entry.name() == name.as_bytes()
        && entry.state().is_unconfigured())
}

// Removes each of the names that isn't installed and can be removed, and answers whether one was.
fn remove_unconfigured<'p, 'a>(
    problem: &Problem<'_, '_, 'p, 'a>,
    plan: &mut PartialPlan<'p, 'a>,
    needs: &mut Needs<'a>,
    names: &[Name],
) -> Result<bool, AllocError>
    requires reached { IsReached problem.now plan.old }
    ensures reached { IfOk result (λ _. IsReached problem.now plan.new) }
{
    let mut moved = false;
    for name in names {
        if is_unconfigured(&plan.db, name) {
            let taken = remove_unneeded(problem, plan, needs, name)?;
            moved = moved || taken;
        }
    }
    Ok(moved)
}

// Configures what waits, or removes what was deconfigured to go.
fn tidy_once<'p, 'a>(
    problem: &Problem<'_, '_, 'p, 'a>,
    plan: &mut PartialPlan<'p, 'a>,
    tried: &mut Tried<'a>,
) -> Result<bool, AllocError>
    requires reached { IsReached problem.now plan.old }
    ensures reached { IfOk result (λ _. IsReached problem.now plan.new) }
{
    let configured = configure_waiting(problem, plan, &mut tried.waiting)?;
    if configured {
        return Ok(true);
    }
    let names = leaving(problem.alloc, &plan.db, problem.members)?;
    let removed = remove_unconfigured(problem, plan, &mut tried.leaving, names.as_slice())?;
    Ok(removed)
}

/// Configures what waits and removes what was deconfigured to go, until nothing more of these can be done.
pub(crate) fn tidy<'p, 'a>(
    problem: &Problem<'_, '_, 'p, 'a>,
    plan: &mut PartialPlan<'p, 'a>,
    tried: &mut Tried<'a>,
) -> Result<(), AllocError>
    requires reached { IsReached problem.now plan.old }
    ensures reached { IfOk result (λ _. IsReached problem.now plan.new) }
{
    let most = plan.db.as_slice().len();
    for _ in 0..most {
        let moved = tidy_once(problem, plan, tried)?;
        if !moved {
            return Ok(());
        }
    }
    Ok(())
}
