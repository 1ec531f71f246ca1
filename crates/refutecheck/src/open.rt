// What of a clause isn't false yet.

ghost use Rattle.std.specs.Prelude.{◌≡◌, ◌↔◌, ◌++◌, ◌∷◌, [], List, IsTrue};
ghost use Rattle.std.specs.List.{Contains};
ghost use Rattle.refutation.specs.declared.literal.Literal.{Literal};
ghost use Rattle.refutecheck.specs.Falses.{IsFalse};
ghost use Rattle.refutecheck.specs.Open.{IsOpenOf};

use crate::falses::Falses;
use refutation::Literal;

/// What of a clause isn't false yet.
#[derive(Clone, Copy, Debug)]
pub enum Open {
    /// Nothing.
    Nothing,
    /// This literal, and no other.
    One(Literal),
    /// More than one literal.
    More,
}

// Whether the literals are the same.
fn is_same(literal: Literal, other: Literal) -> bool
    ensures { IsTrue result ↔ (literal ≡ other) }
{
    match (literal, other) {
        (Literal::Selected(number), Literal::Selected(same)) => number == same,
        (Literal::Unselected(number), Literal::Unselected(same)) => number == same,
        _ => false,
    }
}

// What isn't false of a clause with one literal more.
fn open_with(so_far: Open, falses: &Falses, literal: Literal) -> Open
    ensures { (clause : List Literal) → IsOpenOf (IsFalse falses.now) (Contains clause) so_far
        → IsOpenOf (IsFalse falses.now) (Contains (clause ++ literal ∷ [])) result }
{
    match so_far {
        _ if falses.has(literal) => so_far,
        Open::Nothing => Open::One(literal),
        Open::One(other) if is_same(other, literal) => so_far,
        Open::One(_) => Open::More,
        Open::More => Open::More,
    }
}

/// What of the clause isn't false. Linear in it.
pub fn open_of(falses: &Falses, clause: &[Literal]) -> Open
    ensures { IsOpenOf (IsFalse falses.now) (Contains clause.now) result }
{
    let mut so_far = Open::Nothing;
    for literal in clause {
        so_far = open_with(so_far, falses, *literal);
    }
    so_far
}
