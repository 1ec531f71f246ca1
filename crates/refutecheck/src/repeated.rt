// Whether a line is a premise that was a line before.

ghost use Rattle.std.specs.Prelude.{◌≡◌, Some, IfSome, IsTrue, slice_get};
ghost use Rattle.refutecheck.specs.Answer.{IsRepeatedAt};

use crate::seen::PremisePlaces;
use refutation::{Line, Premise};

// Whether the premises are the same. Where they are and it isn't seen, the clause is made again.
fn is_same(premise: &Premise, other: &Premise) -> bool
    ensures { IsTrue result → premise.now ≡ other.now }
{
    match (premise, other) {
        (Premise::Same(one, two), Premise::Same(first, second)) => one == first && two == second,
        (Premise::PreDepends(one, two), Premise::PreDepends(first, second)) => one == first
            && two == second,
        (Premise::Depends(one, two), Premise::Depends(first, second)) => one == first
            && two == second,
        (Premise::Conflicts(one, two), Premise::Conflicts(first, second)) => one == first
            && two == second,
        (Premise::Breaks(one, two), Premise::Breaks(first, second)) => one == first
            && two == second,
        (Premise::Goal(one), Premise::Goal(first)) => one == first,
        (Premise::GoalOn(one, two), Premise::GoalOn(first, second)) => one == first
            && two == second,
        (Premise::Hold(one), Premise::Hold(first)) => one == first,
        (Premise::Essential(name), Premise::Essential(same)) => name.as_bytes() == same.as_bytes(),
        (Premise::Keep(name), Premise::Keep(same)) => name.as_bytes() == same.as_bytes(),
        _ => false,
    }
}

// Whether the line at this place is the premise.
fn is_premise_at(lines: &[Line], place: usize, premise: &Premise) -> bool
    ensures { IsTrue result → slice_get lines.now place ≡ Some (Line.Premise premise.now) }
{
    match lines.get(place) {
        Some(Line::Premise(other)) => is_same(other, premise),
        _ => false,
    }
}

/// The place of an earlier line that is the same premise, as far as it is known.
pub fn earlier_place(seen: &PremisePlaces<'_>, earlier: &[Line], line: &Line) -> Option<usize>
    ensures { IfSome result (λ place. IsRepeatedAt earlier.now place line.now) }
{
    let Line::Premise(premise) = line else {
        return None;
    };
    let place = seen.place_of(premise)?;
    if is_premise_at(earlier, place, premise) {
        Some(place)
    } else {
        None
    }
}
