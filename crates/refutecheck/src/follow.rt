// Whether a line follows from earlier ones.

ghost use Rattle.std.specs.Prelude.{◌≡◌, ◌↔◌, ℕ, IfOk, IsTrue};
ghost use Rattle.std.specs.List.{Contains};
ghost use Rattle.refutation.specs.Clause.{negation};
ghost use Rattle.refutation.specs.Following.{EndsFalse};
ghost use Rattle.refutecheck.specs.Falses.{IsFalse};
ghost use Rattle.refutecheck.specs.Following.{GoesOn, GoesThrough, IsFalseAt, Narrows};

use crate::falses::Falses;
use crate::kept::Kept;
use crate::open::{Open, open_of};
use refutation::Literal;
use std::alloc::{AllocError, Global};

// The literal that says the contrary.
fn negation(literal: Literal) -> Literal
    ensures { result ≡ negation literal }
{
    match literal {
        Literal::Selected(number) => Literal::Unselected(number),
        Literal::Unselected(number) => Literal::Selected(number),
    }
}

// Makes the negation of the one literal that isn't false yet false. Answers whether there is at most one.
fn narrow(falses: &mut Falses, clause: &[Literal]) -> Result<bool, AllocError>
    ensures { IfOk result
        (λ is_one. Narrows (IsFalse falses.old) (Contains clause.now) is_one (IsFalse falses.new)) }
{
    match open_of(falses, clause) {
        Open::Nothing => Ok(true),
        Open::One(literal) => {
            falses.insert(negation(literal))?;
            Ok(true)
        }
        Open::More => Ok(false),
    }
}

// Goes on to this hint, which is not the last. Answers whether it is a clause with at most one literal that isn't false.
fn go_on(falses: &mut Falses, clauses: &Kept, hint: u32) -> Result<bool, AllocError>
    ensures { IfOk result
        (λ went. GoesOn clauses.now hint (IsFalse falses.old) went (IsFalse falses.new)) }
{
    match clauses.at(hint) {
        None => Ok(false),
        Some(clause) => {
            let is_one = narrow(falses, clause.as_slice())?;
            Ok(is_one)
        }
    }
}

// Goes through these hints, none of which is the last. Answers whether each is a clause with at most one literal that
// isn't false when its turn comes.
fn go_through(falses: &mut Falses, clauses: &Kept, hints: &[u32]) -> Result<bool, AllocError>
    ensures { IfOk result
        (λ went. (last : ℕ) → GoesThrough clauses.now (IsFalse falses.old) hints.now last
        ↔ (IsTrue went × IsFalseAt clauses.now (IsFalse falses.new) last)) }
{
    for hint in hints {
        if !go_on(falses, clauses, *hint)? {
            return Ok(false);
        }
    }
    Ok(true)
}

// Whether the hint is a clause that is all false.
fn is_false_at(falses: &Falses, clauses: &Kept, hint: u32) -> bool
    ensures { IsTrue result ↔ IsFalseAt clauses.now (IsFalse falses.now) hint }
{
    match clauses.at(hint) {
        None => false,
        Some(clause) => matches!(open_of(falses, clause.as_slice()), Open::Nothing),
    }
}

// Whether these hints and the last behind them end in a clause that is all false.
fn ends_false(
    falses: &mut Falses,
    clauses: &Kept,
    first: &[u32],
    last: u32,
) -> Result<bool, AllocError>
    ensures { IfOk result
        (λ ends. IsTrue ends ↔ GoesThrough clauses.now (IsFalse falses.old) first.now last) }
{
    if !go_through(falses, clauses, first)? {
        return Ok(false);
    }
    Ok(is_false_at(falses, clauses, last))
}

/// Whether the clause of these literals follows from the clauses of these numbers, counted from 1: with its literals
/// false they end in a clause that is all false. Memory alone can fail. Linear in the literals and the clauses of the hints.
pub fn follows(
    alloc: Global,
    clauses: &Kept,
    literals: &[Literal],
    hints: &[u32],
) -> Result<bool, AllocError>
    ensures { IfOk result
        (λ follows. IsTrue follows
        ↔ EndsFalse Contains clauses.now (Contains literals.now) hints.now) }
{
    match hints.split_last() {
        None => Ok(false),
        Some((last, first)) => {
            let mut falses = Falses::of(alloc, literals)?;
            let ends = ends_false(&mut falses, clauses, first, *last)?;
            Ok(ends)
        }
    }
}
