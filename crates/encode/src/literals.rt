// The literals of clauses.

ghost use Rattle.std.specs.Prelude.{◌≡◌, ◌↔◌, ◌⊎◌, IfOk, OnOk};
ghost use Rattle.std.specs.List.{Contains};
ghost use Rattle.refutation.specs.Clause.{IsListOf};
ghost use Rattle.refutation.specs.Premise.{IsEitherOut, Selects};
ghost use Rattle.refutation.specs.declared.literal.Literal.{Literal as LiteralValue};
ghost use Rattle.encode.specs.Numbers.{IsAsked, IsOutOrMatching, SelectsOneOf};

use crate::facts::Facts;
use crate::query::Query;
use refutation::Literal;
use relation::Atom;
use std::alloc::{AllocError, Global};

// Puts literals behind the others that say that the pairs of these numbers are selected.
fn push_selected(literals: &mut Vec<Literal>, numbers: &[u32]) -> Result<(), AllocError>
    ensures { OnOk result ((item : LiteralValue) → Contains literals.new.items item
        ↔ (Contains literals.old.items item ⊎ SelectsOneOf numbers.now item)) }
{
    for number in numbers {
        literals.push(Literal::Selected(*number))?;
    }
    Ok(())
}

/// That one of the pairs is selected whose packages are asked for. Memory alone can fail.
pub(crate) fn some_asked(
    facts: &Facts<'_, '_, '_, '_>,
    query: Query<'_, '_>,
) -> Result<Vec<Literal>, AllocError>
    ensures { IfOk result
        (λ literals. IsListOf (Selects facts.now (IsAsked query.entry)) literals.items) }
{
    let numbers = facts.numbers_of(query)?;
    let mut literals = Vec::new(facts.alloc());
    push_selected(&mut literals, numbers.as_slice())?;
    Ok(literals)
}

/// That the pair isn't selected, or one is that matches one of the atoms. Memory alone can fail.
pub(crate) fn out_or_matching(
    facts: &Facts<'_, '_, '_, '_>,
    number: u32,
    atoms: &[Atom<'_>],
) -> Result<Vec<Literal>, AllocError>
    ensures { IfOk result
        (λ literals. IsListOf (IsOutOrMatching facts.now number atoms.now) literals.items) }
{
    let numbers = facts.matching(atoms)?;
    let mut literals = Vec::new(facts.alloc());
    literals.push(Literal::Unselected(number))?;
    push_selected(&mut literals, numbers.as_slice())?;
    Ok(literals)
}

/// That the one pair isn't selected, or that the other isn't. Memory alone can fail.
pub(crate) fn either_out(alloc: Global, number: u32, other: u32) -> Result<Vec<Literal>, AllocError>
    ensures { IfOk result (λ literals. IsListOf (IsEitherOut number other) literals.items) }
{
    let mut literals = Vec::new(alloc);
    literals.push(Literal::Unselected(number))?;
    literals.push(Literal::Unselected(other))?;
    Ok(literals)
}

/// This literal alone. Memory alone can fail.
pub(crate) fn alone(alloc: Global, literal: Literal) -> Result<Vec<Literal>, AllocError>
    ensures { IfOk result (λ literals. IsListOf (λ item. item ≡ literal) literals.items) }
{
    let mut literals = Vec::new(alloc);
    literals.push(literal)?;
    Ok(literals)
}
