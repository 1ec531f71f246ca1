// What the search found as a refutation, as lines over the universe.

use crate::basis::Basis;
use crate::table::Table;
use refutation::{Line, Literal, Premise, Refutation};
use rules::Items;
use search::{Derivation, DerivedClause};
use std::alloc::{AllocError, Global};

// The same premise.
fn copy_of(alloc: Global, premise: &Premise) -> Result<Premise, AllocError> {
    let copy = match premise {
        Premise::Same(number, other) => Premise::Same(*number, *other),
        Premise::PreDepends(number, clause) => Premise::PreDepends(*number, *clause),
        Premise::Depends(number, clause) => Premise::Depends(*number, *clause),
        Premise::Conflicts(number, other) => Premise::Conflicts(*number, *other),
        Premise::Breaks(number, other) => Premise::Breaks(*number, *other),
        Premise::Goal(number) => Premise::Goal(*number),
        Premise::GoalOn(number, pair) => Premise::GoalOn(*number, *pair),
        Premise::Hold(number) => Premise::Hold(*number),
        Premise::Essential(name) => Premise::Essential(name.try_copy(alloc)?),
        Premise::Keep(name) => Premise::Keep(name.try_copy(alloc)?),
    };
    Ok(copy)
}

/// The places among `places` that what was found has as its premises. A place that isn't there is left out.
pub(crate) fn places_in(
    alloc: Global,
    places: &[usize],
    premises: &[usize],
) -> Result<Vec<usize>, AllocError> {
    let mut kept = Vec::new(alloc);
    for place in premises {
        if let Some(place) = places.get(*place) {
            kept.push(*place)?;
        }
    }
    Ok(kept)
}

// The literals over the universe. One without a pair is left out.
fn literals_of(
    alloc: Global,
    table: &Table,
    numbers: &[i32],
) -> Result<Items<Literal>, AllocError> {
    let mut literals = Vec::new(alloc);
    for literal in numbers {
        if let Some(literal) = table.literal_in(*literal) {
            literals.push(literal)?;
        }
    }
    Ok(Items::new(literals))
}

// The line that follows from earlier ones.
fn derived_line(alloc: Global, table: &Table, line: &DerivedClause) -> Result<Line, AllocError> {
    let literals = literals_of(alloc, table, line.literals.as_slice())?;
    let hints = line.hints.as_slice().to_vec(alloc)?;
    Ok(Line::Derived(literals, Items::new(hints)))
}

// Puts the premises at these places behind the lines.
fn push_premises(
    alloc: Global,
    lines: &mut Vec<Line>,
    bases: &[Basis<'_>],
    places: &[usize],
) -> Result<(), AllocError> {
    for place in places {
        if let Some(basis) = bases.get(*place) {
            lines.push(Line::Premise(copy_of(alloc, basis.premise)?))?;
        }
    }
    Ok(())
}

/// The lines of what was found: the premises at these places, and behind them its derived lines. Nothing is promised of it:
/// a judge decides. Memory alone can fail.
pub(crate) fn refutation_of(
    alloc: Global,
    table: &Table,
    bases: &[Basis<'_>],
    places: &[usize],
    refutation: &Derivation,
) -> Result<Refutation, AllocError> {
    let mut lines = Vec::new(alloc);
    push_premises(alloc, &mut lines, bases, places)?;
    for line in &refutation.lines {
        lines.push(derived_line(alloc, table, line)?)?;
    }
    Ok(Refutation::new(lines))
}
