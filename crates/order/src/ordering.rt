// The order of steps for a selection of admitted pairs (Policy 7; dpkg(1)).

ghost use Rattle.std.specs.Prelude.{◌≡◌, IfOk};
ghost use Rattle.std.specs.List.{All};
ghost use Rattle.rules.specs.Database.{IsQuiet};
ghost use Rattle.rules.specs.Verdict.{IsBuiltOn};
ghost use Rattle.universe_parts.specs.Parts.{packages_of};
ghost use Rattle.forward_steps.specs.PartialPlan.{HasStanza, IsProblem, IsReached, selected_in};
ghost use Rattle.forward_steps.specs.Forward.{IsAtRest};
ghost use Rattle.order.specs.Order.{IsOrder};
ghost use Rattle.forward_steps.specs.Selection.{IsOneEach, chosen};

use crate::end::is_wanted;
use crate::ordered::Ordered;
use crate::strategy::choose_all;
use forward_steps::{MemberTable, PartialPlan, Problem, empty_plan, finish};
use plancheck::is_quiet;
use plancheck_state::Records;
use std::alloc::{AllocError, Global};
use universe::Universe;

// What is answered where no step leads on.
fn answer_of<'p, 'a>(
    problem: &Problem<'_, '_, 'p, 'a>,
    plan: PartialPlan<'p, 'a>,
) -> Result<Ordered, AllocError>
    requires problem { IsProblem problem.now }
    requires reached { IsReached problem.now plan }
    requires rest { IsAtRest problem.now.universe.now (selected_in problem.now) plan.db }
    ensures { IfOk result
        (λ ordered. IsOrder problem.now.universe.now problem.now.start.now
        (selected_in problem.now) ordered) }
{
    let is_plan = is_wanted(problem, &plan)?;
    if is_plan {
        Ok(Ordered::Plan(plan.steps))
    } else {
        Ok(Ordered::Stuck(plan.steps))
    }
}

// The order from a quiet start.
fn order_on<'p, 'a>(problem: &Problem<'_, '_, 'p, 'a>) -> Result<Ordered, AllocError>
    requires { IsProblem problem.now }
    ensures { IfOk result
        (λ ordered. IsOrder problem.now.universe.now problem.now.start.now
        (selected_in problem.now) ordered) }
{
    let mut plan = empty_plan(problem)?;
    choose_all(problem, &mut plan)?;
    finish(problem, &mut plan)?;
    let ordered = answer_of(problem, plan)?;
    Ok(ordered)
}

// The order of the members from a quiet start.
fn members_order<'p, 'a>(
    alloc: Global,
    start: &Records<'p, 'a>,
    universe: &Universe<'_, 'a>,
    members: &'p MemberTable<'a>,
) -> Result<Ordered, AllocError>
    requires built { IsBuiltOn start.now universe.now }
    requires quiet { IsQuiet start.now }
    requires one_each { IsOneEach (packages_of members.now) }
    requires stanzas { All (HasStanza universe.now) members.now }
    ensures { IfOk result
        (λ ordered. IsOrder universe.now start.now (packages_of members.now) ordered) }
{
    let problem = Problem {
        alloc,
        start,
        universe,
        members,
    };
    let ordered = order_on(&problem)?;
    Ok(ordered)
}

// The order of the pairs of these numbers from a quiet start.
fn quiet_order<'p, 'a>(
    alloc: Global,
    start: &Records<'p, 'a>,
    universe: &Universe<'_, 'a>,
    selection: &[u32],
) -> Result<Ordered, AllocError>
    requires built { IsBuiltOn start.now universe.now }
    requires quiet { IsQuiet start.now }
    requires one_each { IsOneEach (chosen universe.now selection.now) }
    ensures { IfOk result
        (λ ordered. IsOrder universe.now start.now (chosen universe.now selection.now) ordered) }
{
    let members = MemberTable::read(alloc, universe, selection)?;
    let ordered = members_order(alloc, start, universe, members.lend())?;
    Ok(ordered)
}

/// Puts the pairs of these numbers, counted from 1 and at most one a name, into an order of steps from this start, on which
/// the universe is built: a plan at whose end just these pairs are installed, or steps after which no step that leads there is
/// allowed. Of the stanzas of the universe those of the selection are read. Memory alone can fail.
pub fn order<'p, 'a>(
    alloc: Global,
    start: &Records<'p, 'a>,
    universe: &Universe<'_, 'a>,
    selection: &[u32],
) -> Result<Ordered, AllocError>
    requires built { IsBuiltOn start.now universe.now }
    requires one_each { IsOneEach (chosen universe.now selection.now) }
    ensures { IfOk result
        (λ ordered. IsOrder universe.now start.now (chosen universe.now selection.now) ordered) }
{
    if is_quiet(start) {
        quiet_order(alloc, start, universe, selection)
    } else {
        Ok(Ordered::Start)
    }
}
