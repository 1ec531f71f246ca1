// The sentence of a premise.

ghost use Rattle.std.specs.Prelude.{IfOk, OnOk};
ghost use Rattle.refutation.specs.Clause.{IsListOf};
ghost use Rattle.refutation.specs.Premise.{IsInPremise};
ghost use Rattle.refutation_sentences.specs.Sentences as Spec;
ghost use Rattle.refutation_sentences.specs.Words as Words;

use crate::against::{Field, push_against, push_same};
use crate::basis::Basis;
use crate::context::Context;
use crate::goals::{push_goal, push_goal_on};
use crate::lists::selected_in;
use crate::needs::{push_depends, push_pre_depends};
use crate::starts::{push_essential, push_hold, push_keep};
use refutation::Premise;
use std::alloc::AllocError;

// Writes what the premise says. Of its clause these pairs are those of which one is to be selected.
fn push_premise(
    context: &Context<'_, '_, '_, '_, '_>,
    text: &mut Vec<u8>,
    premise: &Premise,
    numbers: &[u32],
) -> Result<(), AllocError>
    ensures { OnOk result
        (Words.Grows (Spec.IsTold context.now.premises.now context.now.indices.now premise.now
        numbers.now) text.old.items
        text.new.items) }
{
    match premise {
        Premise::Same(number, other) => push_same(context, text, *number, *other),
        Premise::PreDepends(number, clause) => {
            push_pre_depends(context, text, *number, *clause, numbers)
        }
        Premise::Depends(number, clause) => push_depends(context, text, *number, *clause, numbers),
        Premise::Conflicts(number, other) => {
            push_against(context, text, *number, Field::Conflicts, *other)
        }
        Premise::Breaks(number, other) => {
            push_against(context, text, *number, Field::Breaks, *other)
        }
        Premise::Goal(number) => push_goal(context, text, *number, numbers),
        Premise::GoalOn(number, pair) => push_goal_on(context, text, *number, *pair),
        Premise::Hold(number) => push_hold(context, text, *number),
        Premise::Essential(name) => push_essential(text, name.as_bytes()),
        Premise::Keep(name) => push_keep(text, name.as_bytes()),
    }
}

/// The line that tells the premise. Memory alone can fail.
pub(crate) fn sentence_of(
    context: &Context<'_, '_, '_, '_, '_>,
    basis: &Basis<'_>,
) -> Result<Vec<u8>, AllocError>
    requires { IsListOf
        (IsInPremise context.now.premises.now basis.now.premise.now) basis.now.clause }
    ensures { IfOk result
        (λ line. Spec.IsSentence context.now.premises.now context.now.indices.now
        basis.now.premise.now line.items) }
{
    let numbers = selected_in(context.alloc(), basis.clause.as_slice())?;
    let mut text = Vec::new(context.alloc());
    push_premise(context, &mut text, basis.premise, numbers.as_slice())?;
    text.extend_from_slice(b".\n")?;
    Ok(text)
}
