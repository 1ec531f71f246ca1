// The clause of a premise.

ghost use Rattle.std.specs.Prelude.{IfOk};
ghost use Rattle.refutecheck.specs.Answer.{IsAnswer};

use crate::goals::{goal_clause, goal_on_clause};
use crate::needs::{depends_clause, pre_depends_clause};
use crate::pairs::{breaks_clause, conflicts_clause, same_clause};
use crate::premises::Premises;
use crate::starts::{essential_clause, hold_clause, keep_clause};
use refutation::{Literal, Premise};
use rules::Items;
use std::alloc::AllocError;

/// The clause of the premise, if it is one of the universe. Memory alone can fail.
pub fn clause_of(
    premises: &Premises<'_, '_, '_>,
    premise: &Premise,
) -> Result<Option<Items<Literal>>, AllocError>
    ensures { IfOk result (IsAnswer premises.now premise.now) }
{
    match premise {
        Premise::Same(number, other) => same_clause(premises, *number, *other),
        Premise::PreDepends(number, clause) => pre_depends_clause(premises, *number, *clause),
        Premise::Depends(number, clause) => depends_clause(premises, *number, *clause),
        Premise::Conflicts(number, other) => conflicts_clause(premises, *number, *other),
        Premise::Breaks(number, other) => breaks_clause(premises, *number, *other),
        Premise::Goal(number) => goal_clause(premises, *number),
        Premise::GoalOn(number, pair) => goal_on_clause(premises, *number, *pair),
        Premise::Hold(number) => hold_clause(premises, *number),
        Premise::Essential(name) => essential_clause(premises, name.as_bytes()),
        Premise::Keep(name) => keep_clause(premises, name.as_bytes()),
    }
}
