// How steps are chosen: whole packages first, each configured right after it is unpacked; then one whose way has to be made
// free, then what nothing needs is removed, and last an old version goes and comes back new. The judge alone decides what is
// taken, and the loops end after so many rounds; so nothing here needs a proof of its own.

ghost use Rattle.std.specs.Prelude.{IfOk};
ghost use Rattle.forward_steps.specs.PartialPlan.{IsProblem, IsReached};

use crate::clear::{breaking, cut_first};
use crate::enabling::{enable_some, remove_some_old};
use crate::install::install_ready;
use crate::needed::remove_some;
use crate::tidy::tidy;
use crate::tried::Tried;
use forward_steps::{PartialPlan, Problem, leaving, waiting};
use rules::Name;
use std::alloc::AllocError;

// Removes an old version that breaks the one of this name, which waits to be configured.
fn free_waiting<'p, 'a>(
    problem: &Problem<'_, '_, 'p, 'a>,
    plan: &mut PartialPlan<'p, 'a>,
    name: &Name,
) -> Result<bool, AllocError>
    requires reached { IsReached problem.now plan.old }
    ensures reached { IfOk result (λ _. IsReached problem.now plan.new) }
{
    let names = breaking(problem.alloc, &plan.db, name.as_bytes())?;
    let moved = cut_first(problem, plan, names.as_slice())?;
    Ok(moved)
}

// The same for the first name that waits and for which an old version can go.
fn free_some_waiting<'p, 'a>(
    problem: &Problem<'_, '_, 'p, 'a>,
    plan: &mut PartialPlan<'p, 'a>,
) -> Result<bool, AllocError>
    requires reached { IsReached problem.now plan.old }
    ensures reached { IfOk result (λ _. IsReached problem.now plan.new) }
{
    let names = waiting(problem.alloc, &plan.db, problem.members)?;
    for name in names.as_slice() {
        let moved = free_waiting(problem, plan, name)?;
        if moved {
            return Ok(true);
        }
    }
    Ok(false)
}

// What is done when nothing forward is allowed: a name that is to go is removed whatever needs it, or an old version goes.
fn do_dear<'p, 'a>(
    problem: &Problem<'_, '_, 'p, 'a>,
    plan: &mut PartialPlan<'p, 'a>,
    tried: &mut Tried<'a>,
) -> Result<bool, AllocError>
    requires reached { IsReached problem.now plan.old }
    ensures reached { IfOk result (λ _. IsReached problem.now plan.new) }
{
    let names = leaving(problem.alloc, &plan.db, problem.members)?;
    let removed = cut_first(problem, plan, names.as_slice())?;
    if removed {
        return Ok(true);
    }
    let old_removed = remove_some_old(problem, plan, &mut tried.members)?;
    if old_removed {
        return Ok(true);
    }
    let freed = free_some_waiting(problem, plan)?;
    Ok(freed)
}

// The first of the choices that does something.
fn choose<'p, 'a>(
    problem: &Problem<'_, '_, 'p, 'a>,
    plan: &mut PartialPlan<'p, 'a>,
    tried: &mut Tried<'a>,
) -> Result<bool, AllocError>
    requires problem { IsProblem problem.now }
    requires reached { IsReached problem.now plan.old }
    ensures reached { IfOk result (λ _. IsReached problem.now plan.new) }
{
    let installed = install_ready(problem, plan, &mut tried.members)?;
    if installed {
        return Ok(true);
    }
    let ready = enable_some(problem, plan, &mut tried.members, false)?;
    if ready {
        return Ok(true);
    }
    let freed = enable_some(problem, plan, &mut tried.members, true)?;
    if freed {
        return Ok(true);
    }
    let removed = remove_some(problem, plan, &mut tried.leaving)?;
    if removed {
        return Ok(true);
    }
    let dear = do_dear(problem, plan, tried)?;
    Ok(dear)
}

/// Takes the steps that are chosen, and tidies up after each choice. It ends when no choice does anything, or after as many as
/// there are members and records. A choice costs a look at each member and record, and what is tried anew since something in
/// its way has changed. Memory alone can fail.
pub(crate) fn choose_all<'p, 'a>(
    problem: &Problem<'_, '_, 'p, 'a>,
    plan: &mut PartialPlan<'p, 'a>,
) -> Result<(), AllocError>
    requires problem { IsProblem problem.now }
    requires reached { IsReached problem.now plan.old }
    ensures reached { IfOk result (λ _. IsReached problem.now plan.new) }
{
    let records = plan.db.as_slice().len();
    let most = problem
        .members
        .as_slice()
        .len()
        .saturating_mul(2)
        .saturating_add(records);
    let mut tried = Tried::new(problem.alloc);
    tidy(problem, plan, &mut tried)?;
    for _ in 0..most {
        let moved = choose(problem, plan, &mut tried)?;
        if !moved {
            return Ok(());
        }
        tidy(problem, plan, &mut tried)?;
    }
    Ok(())
}
