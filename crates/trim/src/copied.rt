// Copies of lines under other numbers.

ghost use Rattle.std.specs.Prelude.{◌≡◌, IfOk, map, slice_index};
ghost use Rattle.trim.specs.Needed.{renumbered};

use refutation::{Line, Literal, Premise};
use rules::Items;
use std::alloc::{AllocError, Global};

// The same premise.
fn premise_of(alloc: Global, premise: &Premise) -> Result<Premise, AllocError>
    ensures { IfOk result (λ copy. copy ≡ premise.now) }
{
    let copy = match premise {
        Premise::Same(number, other) => Premise::Same(*number, *other),
        Premise::PreDepends(number, clause) => Premise::PreDepends(*number, *clause),
        Premise::Depends(number, clause) => Premise::Depends(*number, *clause),
        Premise::Conflicts(number, other) => Premise::Conflicts(*number, *other),
        Premise::Breaks(number, other) => Premise::Breaks(*number, *other),
        Premise::Goal(number) => Premise::Goal(*number),
        Premise::GoalOn(number, pair) => Premise::GoalOn(*number, *pair),
        Premise::Hold(number) => Premise::Hold(*number),
        Premise::Essential(name) => Premise::Essential(name.try_copy(alloc)?),
        Premise::Keep(name) => Premise::Keep(name.try_copy(alloc)?),
    };
    Ok(copy)
}

// The same literals.
fn literals_of(alloc: Global, literals: &[Literal]) -> Result<Items<Literal>, AllocError>
    ensures { IfOk result (λ copy. copy ≡ literals.now) }
{
    let mut copy = Vec::new(alloc);
    for literal in literals {
        copy.push(*literal)?;
    }
    Ok(Items::new(copy))
}

// The number under which the line of this number is written, or 0.
fn number_in(numbers: &[u32], number: u32) -> u32
    ensures { result ≡ slice_index numbers.now number }
{
    match numbers.get(number as usize) {
        Some(written) => *written,
        None => 0,
    }
}

// The numbers under which the lines of these numbers are written.
fn hints_of(alloc: Global, numbers: &[u32], hints: &[u32]) -> Result<Items<u32>, AllocError>
    ensures { IfOk result (λ written. written ≡ map (slice_index numbers.now) hints.now) }
{
    let mut written = Vec::new(alloc);
    for hint in hints {
        written.push(number_in(numbers, *hint))?;
    }
    Ok(Items::new(written))
}

/// The line with its hints as the table has them. Memory alone can fail.
pub(crate) fn line_of(alloc: Global, numbers: &[u32], line: &Line) -> Result<Line, AllocError>
    ensures { IfOk result (λ copy. copy ≡ renumbered numbers.now line.now) }
{
    match line {
        Line::Premise(premise) => Ok(Line::Premise(premise_of(alloc, premise)?)),
        Line::Derived(literals, hints) => {
            let copy = literals_of(alloc, literals.as_slice())?;
            let written = hints_of(alloc, numbers, hints.as_slice())?;
            Ok(Line::Derived(copy, written))
        }
    }
}
