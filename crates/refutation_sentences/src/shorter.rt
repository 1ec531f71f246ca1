// A core of a refutation.

ghost use Rattle.std.specs.Prelude.{IfOk, IsTrue};
ghost use Rattle.refutation.specs.Refutation.{IsAccepted};
ghost use Rattle.trim.specs.Needed.{ArePremisesOf};
ghost use Rattle.refutation_sentences.specs.Core.{IsShorter};

use crate::member::are_premises_of;
use crate::reduction::candidate_of;
use refutation::{Line, Refutation};
use refutecheck::{Premises, Verdict, check_refutation_by};
use std::alloc::AllocError;
use trim::needed_lines;

/// How many premises are at most left out one by one, each with a search of its own.
const PREMISES: usize = 200;

fn is_premise(line: &Line) -> bool {
    matches!(line, Line::Premise(_))
}

// Whether the lines have more premises than are left out one by one.
fn are_many(lines: &[Line]) -> bool {
    lines.iter().filter(|line| is_premise(line)).count() > PREMISES
}

// Whether the candidate is accepted and has premises of the refutation alone.
fn may_replace(
    premises: &Premises<'_, '_, '_>,
    refutation: &Refutation,
    candidate: &Refutation,
) -> Result<bool, AllocError>
    ensures { IfOk result
        (λ answer. IsTrue answer → IsShorter premises.now refutation.now candidate.now) }
{
    let verdict = check_refutation_by(premises, candidate)?;
    match verdict {
        Verdict::Yes => Ok(are_premises_of(candidate.as_slice(), refutation.as_slice())),
        Verdict::No(_) => Ok(false),
    }
}

// The candidate, where it is accepted and has premises of the refutation alone, and else the refutation.
fn shorter_of(
    premises: &Premises<'_, '_, '_>,
    refutation: Refutation,
    candidate: Refutation,
) -> Result<Refutation, AllocError>
    ensures { IfOk result (IsShorter premises.now refutation) }
{
    if may_replace(premises, &refutation, &candidate)? {
        Ok(candidate)
    } else {
        Ok(refutation)
    }
}

// The refutation with those premises left out that can be.
fn shorten(
    premises: &Premises<'_, '_, '_>,
    refutation: Refutation,
) -> Result<Refutation, AllocError>
    ensures { IfOk result (IsShorter premises.now refutation) }
{
    match candidate_of(premises, &refutation)? {
        None => Ok(refutation),
        Some(candidate) => {
            let shorter = shorter_of(premises, refutation, candidate)?;
            Ok(shorter)
        }
    }
}

/// A shorter refutation of the universe of these premises: the lines that the last one needs, and of these, where they have at most
/// 200 premises, a refutation by those premises alone of which, as far as the search tells, none can be left out: from the last one
/// to the first each is left out where the others refute. What the search finds is judged, and where it isn't accepted the lines
/// stay that the last one needs. Each premise costs a search of at most 1000 conflicts over the clauses of the premises. Memory alone
/// can fail.
pub fn core(
    premises: &Premises<'_, '_, '_>,
    refutation: &Refutation,
) -> Result<Refutation, AllocError>
    // accepted over the universe, if the refutation is
    ensures accepted { IfOk result
        (λ core. IsAccepted premises.now refutation.now → IsAccepted premises.now core) }
    // its premises are among those of the refutation
    ensures premises { IfOk result (λ core. ArePremisesOf core refutation.now) }
{
    let needed = needed_lines(premises.alloc(), refutation)?;
    if are_many(needed.as_slice()) {
        return Ok(needed);
    }
    let shorter = shorten(premises, needed)?;
    Ok(shorter)
}
