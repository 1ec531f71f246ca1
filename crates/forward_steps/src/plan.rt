// The call by which each step is taken: the judge is asked first, and what isn't allowed isn't taken. So the steps
// so far are a run from the start to the records reached, whatever is tried.

ghost use Rattle.std.specs.Prelude.{◌≡◌, IfOk};
ghost use Rattle.std.specs.Option.{option_copied};
ghost use Rattle.rules.specs.Legal.{Allowed};
ghost use Rattle.rules.specs.Universe.{listed_for};
ghost use Rattle.forward_steps.specs.PartialPlan.{IsProblem, IsReached, IsTaken, Moves, selected_in};
ghost use Rattle.forward_steps.specs.Forward.{IsForward};

use crate::member::MemberTable;
use index::IndexPackage;
use plancheck::{apply, legal};
use plancheck_state::{Records, try_copy};
use rules::{Step, allowed_where_none_fails};
use std::alloc::{AllocError, Global};
use universe::Universe;

/// What stays the same while steps are taken.
#[derive(Drop)]
pub struct Problem<'g, 'q, 'p, 'a> {
    pub alloc: Global,
    pub start: &'g Records<'p, 'a>,
    pub universe: &'g Universe<'q, 'a>,
    pub members: &'p MemberTable<'a>,
}

/// The steps so far, and the records that they reach.
#[derive(Drop)]
pub struct PartialPlan<'p, 'a> {
    pub db: Records<'p, 'a>,
    pub steps: Vec<Step>,
}

/// No steps yet. Linear in the records. Memory alone can fail.
pub fn empty_plan<'p, 'a>(
    problem: &Problem<'_, '_, 'p, 'a>,
) -> Result<PartialPlan<'p, 'a>, AllocError>
    requires { IsProblem problem.now }
    ensures { IfOk result (λ plan. IsReached problem.now plan) }
{
    let records = try_copy(problem.alloc, problem.start.as_slice())?;
    Ok(PartialPlan {
        db: Records::new(problem.alloc, records)?,
        steps: Vec::new(problem.alloc),
    })
}

/// Takes the step if it is allowed, and answers whether it is. Of a step that unpacks, `listed` is the stanza. It costs what
/// `plancheck::legal` and `plancheck::apply` do. Memory alone can fail.
pub fn take<'p, 'a>(
    problem: &Problem<'_, '_, 'p, 'a>,
    plan: &mut PartialPlan<'p, 'a>,
    listed: Option<&'p IndexPackage<'a>>,
    step: Step,
) -> Result<bool, AllocError>
    requires listed { option_copied listed ≡ listed_for problem.now.universe.now step }
    requires reached { IsReached problem.now plan.old }
    ensures reached { IfOk result (λ _. IsReached problem.now plan.new) }
    ensures taken { IfOk result
        (λ took. IsTaken problem.now.universe.now step plan.old.db plan.new.db took) }
{
    allowed_where_none_fails();
    match legal(problem.alloc, &plan.db, problem.universe, listed, &step)? {
        Some(_) => Ok(false),
        None => {
            apply(&mut plan.db, problem.universe, listed, &step)?;
            plan.steps.push(step)?;
            Ok(true)
        }
    }
}

/// The same of a step that leads to the selection: if it is taken, less is left to be done.
pub fn take_forward<'p, 'a>(
    problem: &Problem<'_, '_, 'p, 'a>,
    plan: &mut PartialPlan<'p, 'a>,
    listed: Option<&'p IndexPackage<'a>>,
    step: Step,
) -> Result<bool, AllocError>
    requires problem { IsProblem problem.now }
    requires listed { option_copied listed ≡ listed_for problem.now.universe.now step }
    requires reached { IsReached problem.now plan.old }
    requires forward { IsForward problem.now.universe.now
        (selected_in problem.now) plan.old.db step }
    ensures reached { IfOk result (λ _. IsReached problem.now plan.new) }
    ensures moves { IfOk result
        (λ took. Moves (selected_in problem.now) plan.old.db plan.new.db took
        (¬ Allowed problem.now.universe.now plan.old.db step)) }
{
    let took = take(problem, plan, listed, step)?;
    Ok(took)
}
