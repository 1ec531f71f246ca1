// A selection made into a plan: put in order, and judged.

ghost use Rattle.std.specs.Prelude.{IfOk};
ghost use Rattle.refutation.specs.Selection.{selects};
ghost use Rattle.ordering.specs.Ordering.{AreAscending};
ghost use Rattle.rules.specs.Database.{IsQuiet};
ghost use Rattle.rules.specs.Minimal.{IsLocallyMinimal};
ghost use Rattle.rules.specs.Sound.{IsAcceptable};
ghost use Rattle.solver.specs.Solvable.{IsSolvable};
ghost use Rattle.solver.specs.Solved.{IsOfSelection, IsPlanned, IsSolved};

use crate::solved::{Solved, Undecided};
use order::Ordered;
use ordering::order_selection;
use plancheck::check_plan;
use plancheck_state::Records;
use rules::{Step, Verdict, good_plan_has_yes};
use std::alloc::{AllocError, Global};
use universe::Universe;

// Has judged the steps of a plan. The judge says yes, as they are a plan: it is asked so that no fault of what puts in order
// is answered.
fn judged_plan<'p, 'a>(
    alloc: Global,
    start: &Records<'p, 'a>,
    universe: &Universe<'_, 'a>,
    steps: Vec<Step>,
    limit: u32,
) -> Result<Solved, AllocError>
    requires solvable { IsSolvable start.now universe.now }
    requires planned { IsPlanned universe.now start.now steps.items }
    ensures solved { IfOk result (λ solved. IsSolved universe.now start.now limit solved) }
    ensures settled { IfOk result (λ solved. IsOfSelection solved) }
{
    good_plan_has_yes();
    let _limit = limit;
    let verdict = check_plan(alloc, start, universe, steps.as_slice())?;
    match verdict {
        Verdict::Yes => Ok(Solved::Plan(steps)),
        Verdict::Start | Verdict::Step(_, _) | Verdict::End(_) => {
            Ok(Solved::Undecided(Undecided::Unchecked))
        }
    }
}

/// Makes an acceptable and locally minimal selection, ascending numbers of pairs, into a plan, from a quiet start: it is put in
/// order, a plain change in the fixed one, and the plan is judged; or answers the steps after which it is stuck. Costs what
/// `order_selection` and `check_plan` cost. Memory alone can fail.
pub(crate) fn plan_selection<'p, 'a>(
    alloc: Global,
    start: &Records<'p, 'a>,
    universe: &Universe<'_, 'a>,
    selection: &[u32],
    limit: u32,
) -> Result<Solved, AllocError>
    requires solvable { IsSolvable start.now universe.now }
    requires quiet { IsQuiet start.now }
    requires numbers { AreAscending selection.now }
    requires acceptable { IsAcceptable universe.now (selects selection.now) }
    requires minimal { IsLocallyMinimal universe.now (selects selection.now) }
    ensures solved { IfOk result (λ solved. IsSolved universe.now start.now limit solved) }
    ensures settled { IfOk result (λ solved. IsOfSelection solved) }
{
    let ordering = order_selection(alloc, start, universe, selection)?;
    match ordering {
        Ordered::Plan(steps) => judged_plan(alloc, start, universe, steps, limit),
        Ordered::Stuck(steps) => Ok(Solved::Undecided(Undecided::Stuck(steps))),
        Ordered::Start => Ok(Solved::Undecided(Undecided::Start)),
    }
}
