// The trail: the literals that are true, in the order in which they became so, each with its level and its reason, and
// the jump back to a level. Why literals become true stands in `propagate` and `agenda`.

use crate::literal::number_of;
use crate::table::{at, nonzero_of, number_or_zero, put};
use std::alloc::{AllocError, Global};

/// The literals that are true, in the order in which they became so. Level 0 is before all decisions.
#[derive(Drop)]
pub struct Trail {
    values: Vec<Option<bool>>,
    levels: Vec<u32>,
    reasons: Vec<usize>,
    literals: Vec<i32>,
    len: usize,
    propagated: usize,
    starts: Vec<usize>,
}

impl Trail {
    /// No literal of the numbers up to this one is true or false. An error is want of memory, here and in all calls.
    pub fn new(alloc: Global, numbers: usize) -> Result<Self, AllocError> {
        let room = numbers.saturating_add(1);
        Ok(Trail {
            values: vec![in alloc; None; room]?,
            levels: vec![in alloc; 0; room]?,
            reasons: vec![in alloc; 0; room]?,
            literals: vec![in alloc; 0; room]?,
            len: 0,
            propagated: 0,
            starts: Vec::new(alloc),
        })
    }

    /// How many literals fit the trail, as many as there are numbers with 0.
    pub fn room(&self) -> usize {
        self.literals.len()
    }

    /// How many literals are true.
    pub(crate) fn len(&self) -> usize {
        self.len
    }

    /// The literal at a place of the trail.
    pub(crate) fn literal(&self, place: usize) -> i32 {
        at(&self.literals, place, 0)
    }

    /// Whether the number is selected, if that is decided; of a number that isn't there it isn't.
    pub fn assignment_of(&self, number: usize) -> Option<bool> {
        at(&self.values, number, None)
    }

    /// Whether the literal is true, if that is decided.
    pub fn value(&self, literal: i32) -> Option<bool> {
        match self.assignment_of(number_of(literal)) {
            None => None,
            Some(selected) => Some(selected == (literal > 0)),
        }
    }

    /// The level at which the number was decided.
    pub(crate) fn level_of(&self, number: usize) -> u32 {
        at(&self.levels, number, 0)
    }

    /// The number of the clause by which the number had to be decided so; none of a decision.
    pub(crate) fn reason_of(&self, number: usize) -> Option<usize> {
        nonzero_of(at(&self.reasons, number, 0))
    }

    /// The level of the last decision.
    pub fn level(&self) -> u32 {
        u32::try_from(self.starts.len()).unwrap_or(u32::MAX)
    }

    /// Makes a literal true at the level of the last decision, by the clause of this number; by none if it is decided.
    /// That the literal had no value is for the caller.
    pub fn enqueue(&mut self, literal: i32, reason: Option<usize>) {
        let number = number_of(literal);
        let level = self.level();
        put(&mut self.values, number, Some(literal > 0));
        put(&mut self.levels, number, level);
        put(&mut self.reasons, number, number_or_zero(reason));
        put(&mut self.literals, self.len, literal);
        self.len = self.len.saturating_add(1);
    }

    /// Begins a level by a decision.
    pub(crate) fn decide(&mut self, literal: i32) -> Result<(), AllocError> {
        self.starts.push(self.len)?;
        self.enqueue(literal, None);
        Ok(())
    }

    /// The next literal whose clauses weren't looked at since it became true.
    pub(crate) fn next(&mut self) -> Option<i32> {
        if self.propagated < self.len {
            let literal = self.literal(self.propagated);
            self.propagated = self.propagated.saturating_add(1);
            Some(literal)
        } else {
            None
        }
    }

    /// Makes undecided all that was decided behind a level.
    pub(crate) fn back_to(&mut self, level: u32) {
        let level = level as usize;
        if level < self.starts.len() {
            let start = at(&self.starts, level, 0);
            self.undo(start);
            self.starts.truncate(level);
        }
    }

    fn undo(&mut self, start: usize) {
        for place in start..self.len {
            let number = number_of(self.literal(place));
            put(&mut self.values, number, None);
        }
        self.len = start;
        self.propagated = start;
    }
}
