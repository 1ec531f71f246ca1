// Whether premises are among others.

ghost use Rattle.std.specs.Prelude.{◌≡◌, IsTrue};
ghost use Rattle.std.specs.List.{Contains};
ghost use Rattle.trim.specs.Needed.{ArePremisesOf};
ghost use Rattle.refutation_sentences.specs.Core.{IsPremiseIn};

use refutation::{Line, Premise};

// Whether the premises are the same.
fn is_same(premise: &Premise, other: &Premise) -> bool
    ensures { IsTrue result → premise.now ≡ other.now }
{
    match (premise, other) {
        (Premise::Same(one, two), Premise::Same(first, second)) => one == first && two == second,
        (Premise::PreDepends(one, two), Premise::PreDepends(first, second)) => one == first
            && two == second,
        (Premise::Depends(one, two), Premise::Depends(first, second)) => one == first
            && two == second,
        (Premise::Conflicts(one, two), Premise::Conflicts(first, second)) => one == first
            && two == second,
        (Premise::Breaks(one, two), Premise::Breaks(first, second)) => one == first
            && two == second,
        (Premise::Goal(one), Premise::Goal(first)) => one == first,
        (Premise::GoalOn(one, two), Premise::GoalOn(first, second)) => one == first
            && two == second,
        (Premise::Hold(one), Premise::Hold(first)) => one == first,
        (Premise::Essential(name), Premise::Essential(same)) => name.as_bytes() == same.as_bytes(),
        (Premise::Keep(name), Premise::Keep(same)) => name.as_bytes() == same.as_bytes(),
        _ => false,
    }
}

// Whether the line is this premise.
fn is_premise(line: &Line, premise: &Premise) -> bool
    ensures { IsTrue result → line.now ≡ Line.Premise premise.now }
{
    match line {
        Line::Premise(own) => is_same(own, premise),
        Line::Derived(_, _) => false,
    }
}

// Whether a line is this premise.
fn has_premise(lines: &[Line], premise: &Premise) -> bool
    ensures { IsTrue result → Contains lines.now (Line.Premise premise.now) }
{
    for line in lines {
        if is_premise(line, premise) {
            return true;
        }
    }
    false
}

// Whether the line, if it is a premise, is among the others.
fn is_among(line: &Line, others: &[Line]) -> bool
    ensures { IsTrue result → IsPremiseIn others.now line.now }
{
    match line {
        Line::Premise(premise) => has_premise(others, premise),
        Line::Derived(_, _) => true,
    }
}

/// Whether each premise among the lines is among the others. Each costs a look at the others.
pub(crate) fn are_premises_of(lines: &[Line], others: &[Line]) -> bool
    ensures { IsTrue result → ArePremisesOf lines.now others.now }
{
    for line in lines {
        if !is_among(line, others) {
            return false;
        }
    }
    true
}
