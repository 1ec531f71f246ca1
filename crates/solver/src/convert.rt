// What the search found as a refutation, as lines over the universe.

use encode::Encoding;
use reach::Reached;
use refutation::{Line, Literal, Premise, Refutation};
use rules::Items;
use search::{Derivation, DerivedClause};
use std::alloc::{AllocError, Global};

// A premise of the part as one of the universe; none where a pair's number is out of range.
fn premise_in(reached: &Reached<'_, '_, '_>, premise: Premise) -> Option<Premise> {
    match premise {
        Premise::Same(pair, other) => Some(Premise::Same(
            reached.number_in(pair)?,
            reached.number_in(other)?,
        )),
        Premise::PreDepends(pair, clause) => Some(Premise::PreDepends(
            reached.number_in(pair)?,
            clause,
        )),
        Premise::Depends(pair, clause) => Some(Premise::Depends(reached.number_in(pair)?, clause)),
        Premise::Conflicts(pair, other) => Some(Premise::Conflicts(
            reached.number_in(pair)?,
            reached.number_in(other)?,
        )),
        Premise::Breaks(pair, other) => Some(Premise::Breaks(
            reached.number_in(pair)?,
            reached.number_in(other)?,
        )),
        Premise::GoalOn(goal, pair) => Some(Premise::GoalOn(goal, reached.number_in(pair)?)),
        Premise::Hold(pair) => Some(Premise::Hold(reached.number_in(pair)?)),
        Premise::Goal(goal) => Some(Premise::Goal(goal)),
        Premise::Essential(name) => Some(Premise::Essential(name)),
        Premise::Keep(name) => Some(Premise::Keep(name)),
    }
}

// The premise of the clause at a place, if there is one.
fn premise_at(
    alloc: Global,
    reached: &Reached<'_, '_, '_>,
    encoding: &Encoding<'_>,
    place: usize,
) -> Result<Option<Premise>, AllocError> {
    let Some(basis) = encoding.bases().get(place) else {
        return Ok(None);
    };
    match basis.premise(alloc)? {
        None => Ok(None),
        Some(premise) => Ok(premise_in(reached, premise)),
    }
}

// A literal over the part as one over the universe; none where its number is out of range.
fn literal_in(reached: &Reached<'_, '_, '_>, literal: i32) -> Option<Literal> {
    let number = reached.number_in(literal.unsigned_abs())?;
    if literal < 0 {
        Some(Literal::Unselected(number))
    } else {
        Some(Literal::Selected(number))
    }
}

// The literals over the universe; none where a number is out of range.
fn literals_in(
    alloc: Global,
    reached: &Reached<'_, '_, '_>,
    numbers: &[i32],
) -> Result<Option<Vec<Literal>>, AllocError> {
    let mut literals = Vec::new(alloc);
    for literal in numbers {
        let Some(literal) = literal_in(reached, *literal) else {
            return Ok(None);
        };
        literals.push(literal)?;
    }
    Ok(Some(literals))
}

// The line that follows from earlier ones; none where a number is out of range.
fn derived_line(
    alloc: Global,
    reached: &Reached<'_, '_, '_>,
    line: &DerivedClause,
) -> Result<Option<Line>, AllocError> {
    let Some(literals) = literals_in(alloc, reached, line.literals.as_slice())? else {
        return Ok(None);
    };
    let hints = line.hints.as_slice().to_vec(alloc)?;
    Ok(Some(Line::Derived(Items::new(literals), Items::new(hints))))
}

/// The lines of what was found over the part: the premises at its places and then its derived lines, by the numbers of the
/// universe. A place without a premise is left out, and a line with a number out of range, so that the lines behind it
/// aren't accepted. Nothing is promised of it: a judge decides. Memory alone can fail.
pub(crate) fn refutation_of(
    alloc: Global,
    reached: &Reached<'_, '_, '_>,
    encoding: &Encoding<'_>,
    derivation: &Derivation,
) -> Result<Refutation, AllocError> {
    let mut lines = Vec::new(alloc);
    for place in &derivation.premises {
        if let Some(premise) = premise_at(alloc, reached, encoding, *place)? {
            lines.push(Line::Premise(premise))?;
        }
    }
    for line in &derivation.lines {
        if let Some(line) = derived_line(alloc, reached, line)? {
            lines.push(line)?;
        }
    }
    Ok(Refutation::new(lines))
}
