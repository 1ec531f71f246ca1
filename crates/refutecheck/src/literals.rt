// Clauses of one or two literals.

ghost use Rattle.std.specs.Prelude.{◌≡◌, IfOk, IsTrue};
ghost use Rattle.refutation.specs.Clause.{IsListOf};
ghost use Rattle.refutation.specs.Premise.{IsEitherOut};
ghost use Rattle.refutecheck.specs.Answer.{IsClauseWhere};

use refutation::Literal;
use rules::Items;
use std::alloc::{AllocError, Global};

// That the one pair isn't selected, or that the other isn't.
fn either_out(alloc: Global, number: u32, other: u32) -> Result<Items<Literal>, AllocError>
    ensures { IfOk result (IsListOf (IsEitherOut number other)) }
{
    let mut literals = Vec::new(alloc);
    literals.push(Literal::Unselected(number))?;
    literals.push(Literal::Unselected(other))?;
    Ok(Items::new(literals))
}

/// That the one pair isn't selected, or that the other isn't, where it is a premise. Memory alone can fail.
pub fn either_out_if(
    alloc: Global,
    is_premise: bool,
    number: u32,
    other: u32,
) -> Result<Option<Items<Literal>>, AllocError>
    ensures { IfOk result (IsClauseWhere (IsTrue is_premise) (IsEitherOut number other)) }
{
    if !is_premise {
        return Ok(None);
    }
    let literals = either_out(alloc, number, other)?;
    Ok(Some(literals))
}

/// The literal alone, where it is a premise. Memory alone can fail.
pub fn alone_if(
    alloc: Global,
    is_premise: bool,
    literal: Literal,
) -> Result<Option<Items<Literal>>, AllocError>
    ensures { IfOk result (IsClauseWhere (IsTrue is_premise) (λ disjunct. disjunct ≡ literal)) }
{
    if !is_premise {
        return Ok(None);
    }
    let mut literals = Vec::new(alloc);
    literals.push(literal)?;
    Ok(Some(Items::new(literals)))
}
