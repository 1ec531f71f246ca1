// Whether a refutation can be written so that it is read again.

ghost use Rattle.std.specs.Prelude.{◌≡◌, ◌↔◌, IfOk, IsTrue};
ghost use Rattle.std.specs.List.{list_all};
ghost use Rattle.refutation.specs.declared.line.Line.TheVariants.{Derived};
ghost use Rattle.refutation_text.specs.Derived.{is_some_hint};
ghost use Rattle.refutation_text.specs.LineText.{is_premise_in_range, is_writable};
ghost use Rattle.refutation_text.specs.Number.{is_literal, is_number};
ghost use Rattle.refutation_text.specs.Text.{IsWritable};
ghost use Rattle.refutation_text.specs.declared.limits.TheConstants.{NUMBER};

use crate::distinct::are_distinct;
use crate::limits::{NUMBER, PAIR};
use refutation::{Line, Literal, Premise, Refutation};
use std::alloc::{AllocError, Global};

// Whether the number is at least 1 and at most this bound.
fn is_number(most: u32, number: u32) -> bool
    ensures { result ≡ is_number most number }
{
    1 <= number && number <= most
}

// Whether each number of the premise is in its range.
fn is_premise_in_range(premise: &Premise) -> bool
    ensures { result ≡ is_premise_in_range premise.now }
{
    match premise {
        Premise::Same(pair, other)
        | Premise::Conflicts(pair, other)
        | Premise::Breaks(pair, other) => is_number(PAIR, *pair) && is_number(PAIR, *other),
        Premise::PreDepends(pair, clause) | Premise::Depends(pair, clause) => {
            is_number(PAIR, *pair) && is_number(NUMBER, *clause)
        }
        Premise::Goal(goal) => is_number(NUMBER, *goal),
        Premise::GoalOn(goal, pair) => is_number(NUMBER, *goal) && is_number(PAIR, *pair),
        Premise::Hold(pair) => is_number(PAIR, *pair),
        Premise::Essential(_) | Premise::Keep(_) => true,
    }
}

// Whether the number of the literal's pair can be one.
fn is_literal(literal: Literal) -> bool
    ensures { result ≡ is_literal literal }
{
    match literal {
        Literal::Selected(pair) | Literal::Unselected(pair) => is_number(PAIR, pair),
    }
}

fn are_literals(literals: &[Literal]) -> bool
    ensures { result ≡ list_all is_literal literals.now }
{
    literals.iter().all(|literal| is_literal(*literal))
}

fn are_hints(hints: &[u32]) -> bool
    ensures { result ≡ list_all (is_number NUMBER) hints.now }
{
    hints.iter().all(|hint| is_number(NUMBER, *hint))
}

fn is_some_hint(hints: &[u32]) -> bool
    ensures { result ≡ is_some_hint hints.now }
{
    match hints {
        [] => false,
        [_, ..] => true,
    }
}

// Whether the derived line can be written.
fn is_derived_writable(
    alloc: Global,
    literals: &[Literal],
    hints: &[u32],
) -> Result<bool, AllocError>
    ensures { IfOk result (λ answer. answer ≡ is_writable (Derived literals.now hints.now)) }
{
    if !are_literals(literals) {
        return Ok(false);
    }
    if !are_hints(hints) {
        return Ok(false);
    }
    if !is_some_hint(hints) {
        return Ok(false);
    }
    are_distinct(alloc, literals)
}

// Whether the line can be written.
fn is_line_writable(alloc: Global, line: &Line) -> Result<bool, AllocError>
    ensures { IfOk result (λ answer. answer ≡ is_writable line.now) }
{
    match line {
        Line::Premise(premise) => Ok(is_premise_in_range(premise)),
        Line::Derived(literals, hints) => {
            is_derived_writable(alloc, literals.as_slice(), hints.as_slice())
        }
    }
}

/// Whether the refutation can be written so that it is read again: its numbers are in range, and its derived lines have distinct
/// literals and a hint. Linear in it. Memory alone can fail.
pub fn is_writable(alloc: Global, refutation: &Refutation) -> Result<bool, AllocError>
    ensures { IfOk result (λ answer. IsTrue answer ↔ IsWritable refutation.now) }
{
    for line in refutation.as_slice() {
        if !is_line_writable(alloc, line)? {
            return Ok(false);
        }
    }
    Ok(true)
}
