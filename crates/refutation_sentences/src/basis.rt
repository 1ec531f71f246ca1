// The premises of a refutation with their clauses.

ghost use Rattle.std.specs.Prelude.{◌≡◌, IfOk, OnOk, List};
ghost use Rattle.std.specs.List.{All, Contains};
ghost use Rattle.refutation.specs.Premise.{IsPremise};
ghost use Rattle.refutation.specs.declared.line.Line.{Line};
ghost use Rattle.refutation.specs.declared.line.Line.TheVariants as variant;
ghost use Rattle.refutation.specs.declared.line.Premise.{Premise};
ghost use Rattle.refutation_sentences.specs.Sentences as Spec;

use refutation::{Line, Literal, Premise, Refutation};
use refutecheck::{Premises, clause_of};
use rules::Items;
use std::alloc::AllocError;

/// A premise, and its clause over the universe.
#[derive(Drop)]
pub(crate) struct Basis<'r> {
    pub(crate) premise: &'r Premise,
    pub(crate) clause: Items<Literal>,
}

// Puts the premise of the line with its clause behind the others, if the line is a premise of the universe.
fn push_basis<'r>(
    premises: &Premises<'_, '_, '_>,
    bases: &mut Vec<Basis<'r>>,
    line: &'r Line,
) -> Result<(), AllocError>
    ensures bases { OnOk result
        ((lines : List Line) → Contains lines line.now
        → All (Spec.IsBasis premises.now lines) bases.old.items
        → All (Spec.IsBasis premises.now lines) bases.new.items) }
    ensures kept { OnOk result ((claim : Premise) → Spec.HasBasis claim bases.old.items
        → Spec.HasBasis claim bases.new.items) }
    ensures added { OnOk result ((claim : Premise) → line.now ≡ variant.Premise claim
        → IsPremise premises.now claim → Spec.HasBasis claim bases.new.items) }
{
    let Line::Premise(premise) = line else {
        return Ok(());
    };
    if let Some(clause) = clause_of(premises, premise)? {
        bases.push(Basis { premise, clause })?;
    }
    Ok(())
}

// The premises of these lines that are premises of the universe, with their clauses, in their order.
fn bases_in<'r>(
    premises: &Premises<'_, '_, '_>,
    lines: &'r [Line],
) -> Result<Vec<Basis<'r>>, AllocError>
    ensures bases { IfOk result
        (λ bases. All (Spec.IsBasis premises.now lines.now) bases.items) }
    ensures all { IfOk result (λ bases. (claim : Premise)
        → Contains lines.now (variant.Premise claim) → IsPremise premises.now claim
        → Spec.HasBasis claim bases.items) }
{
    let mut bases = Vec::new(premises.alloc());
    for line in lines {
        push_basis(premises, &mut bases, line)?;
    }
    Ok(bases)
}

/// The premises of the refutation that are premises of the universe, with their clauses, in the order of its lines. Memory
/// alone can fail.
pub(crate) fn bases_of<'r>(
    premises: &Premises<'_, '_, '_>,
    refutation: &'r Refutation,
) -> Result<Vec<Basis<'r>>, AllocError>
    ensures bases { IfOk result
        (λ bases. All (Spec.IsBasis premises.now refutation.now) bases.items) }
    ensures all { IfOk result (λ bases. (claim : Premise)
        → Contains refutation.now (variant.Premise claim) → IsPremise premises.now claim
        → Spec.HasBasis claim bases.items) }
{
    bases_in(premises, refutation.as_slice())
}
