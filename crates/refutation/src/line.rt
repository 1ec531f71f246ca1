// The lines of a refutation. Pairs, goals, clauses of a field and lines are told by their numbers, counted from 1.

ghost use Rattle.refutation.specs.declared.line.Line.{Line};
ghost use Rattle.std.specs.Prelude.{◌≡◌, List};

use crate::literal::Literal;
use rules::{Items, Name};
use std::marker::Model;

/// Why a clause holds without others: what of the universe says it.
#[derive(Drop)]
pub enum Premise {
    /// Two pairs of one name, the lower number first.
    Same(u32, u32),
    /// A pair and a clause of its Pre-Depends.
    PreDepends(u32, u32),
    /// A pair and a clause of its Depends.
    Depends(u32, u32),
    /// A pair and one that it conflicts with.
    Conflicts(u32, u32),
    /// A pair and one that it breaks.
    Breaks(u32, u32),
    /// An install or upgrade goal.
    Goal(u32),
    /// A remove, purge or upgrade-all goal and a pair that it speaks of.
    GoalOn(u32, u32),
    /// The pair in whose version a held name stands.
    Hold(u32),
    /// An essential name that was present at the start.
    Essential(Name),
    /// A name that stands at the start, where nothing is to be removed.
    Keep(Name),
}

/// A line of a refutation, which stands for one clause.
#[derive(Drop)]
pub enum Line {
    /// A clause that the universe says.
    Premise(Premise),
    /// The clause of these literals, which is to follow from the lines of these numbers.
    Derived(Items<Literal>, Items<u32>),
}

/// A refutation: its lines in order.
#[derive(Drop)]
pub struct Refutation {
    lines: Vec<Line>,
}

impl Model for Refutation {
    ghost Value = { List Line };

    ghost view = { λ refutation. refutation.lines.items };
}

impl Refutation {
    /// The refutation of these lines.
    pub fn new(lines: Vec<Line>) -> Refutation
        ensures { result ≡ lines.items }
    {
        Refutation { lines }
    }

    /// The lines in order.
    pub fn as_slice(&self) -> &[Line]
        ensures { result.now ≡ self.now }
    {
        self.lines.as_slice()
    }
}
