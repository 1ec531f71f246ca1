// The clauses that are searched: those given, behind them those of the wishes, and behind these the learned ones with
// their hints. Clauses are numbered from 1 and never changed. Which of them a refutation shows stands in `search`.

use clauses::{Clauses, Lists};
use std::alloc::{AllocError, Global};

/// The clauses by number.
#[derive(Drop)]
pub struct Store<'c> {
    given: &'c Clauses,
    added: Lists<i32>,
    before_learned: usize,
    hints: Lists<usize>,
}

impl<'c> Store<'c> {
    /// The clauses given, and no others. They are lent, not copied.
    pub fn new(alloc: Global, given: &'c Clauses) -> Self {
        Store {
            given,
            added: Lists::new(alloc),
            before_learned: given.len(),
            hints: Lists::new(alloc),
        }
    }

    /// The clauses given.
    pub fn given(&self) -> &'c Clauses {
        self.given
    }

    /// How many clauses there are, which is the number of the last one.
    pub fn len(&self) -> usize {
        self.given.len().saturating_add(self.added.len())
    }

    /// How many of them aren't learned.
    pub fn before_learned(&self) -> usize {
        self.before_learned
    }

    /// The literals of the clause of a number; none where there is no such clause.
    pub fn clause(&self, number: usize) -> &[i32] {
        let given = self.given.len();
        if number > given {
            self.added.at(number - given - 1)
        } else {
            self.given.clause(number.wrapping_sub(1))
        }
    }

    /// The hints of a learned clause, numbers of clauses before it; none of another one.
    pub fn hints(&self, number: usize) -> &[usize] {
        if number > self.before_learned {
            self.hints.at(number - self.before_learned - 1)
        } else {
            &[]
        }
    }

    /// Puts a literal at the end of the clause that isn't ended. An error is want of memory.
    pub fn push(&mut self, literal: i32) -> Result<(), AllocError> {
        self.added.push(literal)
    }

    /// Ends the clause as one of a wish; none comes behind a learned one. An error is want of memory.
    pub fn end_wish(&mut self) -> Result<(), AllocError> {
        self.added.end()?;
        self.before_learned = self.len();
        Ok(())
    }

    /// Adds a learned clause with its hints, and answers its number.
    pub(crate) fn learn(&mut self, literals: &[i32], hints: &[usize]) -> Result<usize, AllocError> {
        for literal in literals {
            self.added.push(*literal)?;
        }
        for hint in hints {
            self.hints.push(*hint)?;
        }
        self.added.end()?;
        self.hints.end()?;
        Ok(self.len())
    }
}
