// The steps that lead to the selection, one after another, until none is allowed: it unpacks what is selected, configures it,
// removes what isn't and purges what is to be purged.

ghost use Rattle.std.specs.Prelude.{◌≡◌, IfOk};
ghost use Rattle.std.specs.List.{All, Contains};
ghost use Rattle.rules.specs.Sound.{HasMember};
ghost use Rattle.forward_steps.specs.PartialPlan.{CannotPurge, CannotRemove, CannotUnpack, IsProblem, IsReached, Moves, NoneConfigured, NoneRemoved, selected_in};
ghost use Rattle.forward_steps.specs.Forward.{IsAtRest};

use crate::group::group_of;
use crate::member::Member;
use crate::pending::{leaving, waiting};
use crate::plan::{PartialPlan, Problem, take_forward};
use rules::{Goal, Name, Step, VersionText, is_name};
use std::alloc::AllocError;

/// Unpacks the member, if it can be.
pub fn unpack<'p, 'a>(
    problem: &Problem<'_, '_, 'p, 'a>,
    plan: &mut PartialPlan<'p, 'a>,
    member: &'p Member<'a>,
) -> Result<bool, AllocError>
    requires problem { IsProblem problem.now }
    requires reached { IsReached problem.now plan.old }
    requires within { Contains problem.now.members.now member.now }
    ensures reached { IfOk result (λ _. IsReached problem.now plan.new) }
    ensures moves { IfOk result
        (λ moved. Moves (selected_in problem.now) plan.old.db plan.new.db moved
        (CannotUnpack problem.now.universe.now plan.old.db member.now)) }
{
    if !is_name(member.name()) {
        return Ok(false);
    }
    let name = Name::copied_from(problem.alloc, member.name())?;
    let version = VersionText::copied_from(problem.alloc, member.version().text())?;
    let moved = take_forward(problem, plan, member.stanza(), Step::Unpack(name, version))?;
    Ok(moved)
}

// Unpacks the first member that can be, if there is one.
fn unpack_first<'p, 'a>(
    problem: &Problem<'_, '_, 'p, 'a>,
    plan: &mut PartialPlan<'p, 'a>,
) -> Result<bool, AllocError>
    requires problem { IsProblem problem.now }
    requires reached { IsReached problem.now plan.old }
    ensures reached { IfOk result (λ _. IsReached problem.now plan.new) }
    ensures moves { IfOk result
        (λ moved. Moves (selected_in problem.now) plan.old.db plan.new.db moved
        (All (CannotUnpack problem.now.universe.now plan.old.db) problem.now.members.now)) }
{
    for member in problem.members.as_slice() {
        let moved = unpack(problem, plan, member)?;
        if moved {
            return Ok(true);
        }
    }
    Ok(false)
}

// Configures a group of those that wait, if one can be.
fn configure_first<'p, 'a>(
    problem: &Problem<'_, '_, 'p, 'a>,
    plan: &mut PartialPlan<'p, 'a>,
) -> Result<bool, AllocError>
    requires problem { IsProblem problem.now }
    requires reached { IsReached problem.now plan.old }
    ensures reached { IfOk result (λ _. IsReached problem.now plan.new) }
    ensures moves { IfOk result
        (λ moved. Moves (selected_in problem.now) plan.old.db plan.new.db moved
        (NoneConfigured problem.now.universe.now (selected_in problem.now) plan.old.db)) }
{
    let names = waiting(problem.alloc, &plan.db, problem.members)?;
    let group = group_of(problem.alloc, &plan.db, names.as_slice())?;
    match group {
        None => Ok(false),
        Some(names) => {
            let moved = take_forward(problem, plan, None, Step::Configure(names))?;
            Ok(moved)
        }
    }
}

// Removes the name, if it can be.
fn remove<'p, 'a>(
    problem: &Problem<'_, '_, 'p, 'a>,
    plan: &mut PartialPlan<'p, 'a>,
    name: &Name,
) -> Result<bool, AllocError>
    requires problem { IsProblem problem.now }
    requires reached { IsReached problem.now plan.old }
    requires away { ¬ HasMember name.now (selected_in problem.now) }
    ensures reached { IfOk result (λ _. IsReached problem.now plan.new) }
    ensures moves { IfOk result
        (λ moved. Moves (selected_in problem.now) plan.old.db plan.new.db moved
        (CannotRemove problem.now.universe.now plan.old.db name.now)) }
{
    let step = Step::Remove(name.try_copy(problem.alloc)?);
    let moved = take_forward(problem, plan, None, step)?;
    Ok(moved)
}

// Removes the first of these names that can be, if there is one.
fn remove_among<'p, 'a>(
    problem: &Problem<'_, '_, 'p, 'a>,
    plan: &mut PartialPlan<'p, 'a>,
    names: &[Name],
) -> Result<bool, AllocError>
    requires problem { IsProblem problem.now }
    requires reached { IsReached problem.now plan.old }
    requires away { All (λ name. ¬ HasMember name (selected_in problem.now)) names.now }
    ensures reached { IfOk result (λ _. IsReached problem.now plan.new) }
    ensures moves { IfOk result
        (λ moved. Moves (selected_in problem.now) plan.old.db plan.new.db moved
        (All (CannotRemove problem.now.universe.now plan.old.db) names.now)) }
{
    for name in names {
        let moved = remove(problem, plan, name)?;
        if moved {
            return Ok(true);
        }
    }
    Ok(false)
}

/// Removes the first name without a member that can be, if there is one.
pub fn remove_first<'p, 'a>(
    problem: &Problem<'_, '_, 'p, 'a>,
    plan: &mut PartialPlan<'p, 'a>,
) -> Result<bool, AllocError>
    requires problem { IsProblem problem.now }
    requires reached { IsReached problem.now plan.old }
    ensures reached { IfOk result (λ _. IsReached problem.now plan.new) }
    ensures moves { IfOk result
        (λ moved. Moves (selected_in problem.now) plan.old.db plan.new.db moved
        (NoneRemoved problem.now.universe.now (selected_in problem.now) plan.old.db)) }
{
    let names = leaving(problem.alloc, &plan.db, problem.members)?;
    let moved = remove_among(problem, plan, names.as_slice())?;
    Ok(moved)
}

// Purges the name of the goal, if it is to be purged and can be.
fn purge<'p, 'a>(
    problem: &Problem<'_, '_, 'p, 'a>,
    plan: &mut PartialPlan<'p, 'a>,
    asked: &Goal,
) -> Result<bool, AllocError>
    requires problem { IsProblem problem.now }
    requires reached { IsReached problem.now plan.old }
    requires asked { Contains problem.now.universe.now.goals asked.now }
    ensures reached { IfOk result (λ _. IsReached problem.now plan.new) }
    ensures moves { IfOk result
        (λ moved. Moves (selected_in problem.now) plan.old.db plan.new.db moved
        (CannotPurge problem.now.universe.now plan.old.db asked.now)) }
{
    match asked {
        Goal::Purge(name) => {
            let step = Step::Purge(name.try_copy(problem.alloc)?);
            let moved = take_forward(problem, plan, None, step)?;
            Ok(moved)
        }
        _ => Ok(false),
    }
}

// Purges the first name that is to be purged and can be, if there is one.
fn purge_first<'p, 'a>(
    problem: &Problem<'_, '_, 'p, 'a>,
    plan: &mut PartialPlan<'p, 'a>,
) -> Result<bool, AllocError>
    requires problem { IsProblem problem.now }
    requires reached { IsReached problem.now plan.old }
    ensures reached { IfOk result (λ _. IsReached problem.now plan.new) }
    ensures moves { IfOk result
        (λ moved. Moves (selected_in problem.now) plan.old.db plan.new.db moved
        (All (CannotPurge problem.now.universe.now plan.old.db) problem.now.universe.now.goals)) }
{
    for asked in problem.universe.goals() {
        let moved = purge(problem, plan, asked)?;
        if moved {
            return Ok(true);
        }
    }
    Ok(false)
}

// Takes a step that leads to the selection, if one is allowed.
fn step_forward<'p, 'a>(
    problem: &Problem<'_, '_, 'p, 'a>,
    plan: &mut PartialPlan<'p, 'a>,
) -> Result<bool, AllocError>
    requires problem { IsProblem problem.now }
    requires reached { IsReached problem.now plan.old }
    ensures reached { IfOk result (λ _. IsReached problem.now plan.new) }
    ensures moves { IfOk result
        (λ moved. Moves (selected_in problem.now) plan.old.db plan.new.db moved
        (IsAtRest problem.now.universe.now (selected_in problem.now) plan.old.db)) }
{
    let unpacked = unpack_first(problem, plan)?;
    if unpacked {
        return Ok(true);
    }
    let configured = configure_first(problem, plan)?;
    if configured {
        return Ok(true);
    }
    let removed = remove_first(problem, plan)?;
    if removed {
        return Ok(true);
    }
    let purged = purge_first(problem, plan)?;
    Ok(purged)
}

/// Takes steps that lead to the selection until none is allowed. Each pass looks at all of them from the first on. Memory
/// alone can fail.
pub fn finish<'p, 'a>(
    problem: &Problem<'_, '_, 'p, 'a>,
    plan: &mut PartialPlan<'p, 'a>,
) -> Result<(), AllocError>
    requires problem { IsProblem problem.now }
    requires reached { IsReached problem.now plan.old }
    ensures reached { IfOk result (λ _. IsReached problem.now plan.new) }
    ensures rest { IfOk result
        (λ _. IsAtRest problem.now.universe.now (selected_in problem.now) plan.new.db) }
{
    loop {
        let moved = step_forward(problem, plan)?;
        if !moved {
            return Ok(());
        }
    }
}
