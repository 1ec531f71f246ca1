// What a search holds, and its steps: propagate, learn from a conflict and jump back, decide.

use crate::agenda::Agenda;
use crate::analyze::{Learned, analyze};
use crate::propagate::propagate;
use crate::store::Store;
use crate::trail::Trail;
use crate::watch::Watches;
use std::alloc::{AllocError, Global};

/// The clauses, the trail, the watches and the agenda.
#[derive(Drop)]
pub struct SearchState<'c> {
    /// The clauses by number.
    pub store: Store<'c>,
    /// What is true.
    pub trail: Trail,
    /// Which literals each clause watches.
    pub watches: Watches,
    /// What is decided next.
    pub agenda: Agenda,
}

impl SearchState<'_> {
    /// Makes true what has to be, and answers the number of a clause that is false, if there is one. No longer than the
    /// lists of watches of the literals that become true, with their clauses.
    pub fn propagate(&mut self) -> Option<usize> {
        propagate(&self.store, &mut self.trail, &mut self.watches)
    }

    /// Jumps back to a level: all that was decided behind it, and what followed by it, is undecided.
    pub fn back_to(&mut self, level: u32) {
        self.trail.back_to(level);
        self.agenda.back_to(level);
    }

    fn attach(&mut self, clause: usize, literals: &Vec<i32>) -> Result<(), AllocError> {
        match literals.as_slice() {
            [first, second, ..] => self.watches.attach(clause, *first, *second),
            _ => Ok(()),
        }
    }

    // Makes the first literal of a learned clause true.
    fn assert(&mut self, clause: usize, literals: &Vec<i32>) {
        if let Some(first) = literals.first() {
            self.trail.enqueue(*first, Some(clause));
        }
    }

    /// Adds what was learned to the clauses, and answers its number. Nothing watches it. An error is want of memory.
    pub fn log(&mut self, learned: &Learned) -> Result<usize, AllocError> {
        self.store
            .learn(learned.literals.as_slice(), learned.hints.as_slice())
    }

    /// What is to be learned from the clause of this number, which is false. Linear in the trail and in the clauses
    /// that it names. An error is want of memory.
    pub fn analyze(&self, alloc: Global, conflict: usize) -> Result<Learned, AllocError> {
        analyze(alloc, &self.store, &self.trail, conflict)
    }

    /// Learns from the clause of this number, which is false above level 0, jumps back and makes the learned clause's
    /// first literal true. An error is want of memory.
    pub fn learn(&mut self, alloc: Global, conflict: usize) -> Result<(), AllocError> {
        let learned = self.analyze(alloc, conflict)?;
        let clause = self.log(&learned)?;
        self.back_to(learned.level);
        self.attach(clause, &learned.literals)?;
        self.assert(clause, &learned.literals);
        Ok(())
    }

    /// Decides the next literal, and answers whether there was one; there is none where all that is undecided may be
    /// left out. An error is want of memory.
    pub fn decide(&mut self) -> Result<bool, AllocError> {
        match self.agenda.next(&self.store, &self.trail) {
            None => Ok(false),
            Some(literal) => {
                self.agenda.keep()?;
                self.trail.decide(literal)?;
                Ok(true)
            }
        }
    }
}
