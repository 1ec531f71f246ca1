// A refutation, written trimmed: of the clauses given and the learned lines those alone that the last line needs.

use search_state::Store;
use search_state::table::{at, put};
use std::alloc::{AllocError, Global};

/// A derived clause, and the numbers of the clauses by which it follows: those of the premises from 1 on, in their
/// order, and behind them those of the lines.
#[derive(Drop)]
pub struct DerivedClause {
    /// The literals.
    pub literals: Vec<i32>,
    /// The numbers.
    pub hints: Vec<u32>,
}

/// Clauses given, by their places counted from 0, and what follows from them up to the empty clause. Without lines the
/// last premise is the empty clause. No contract says that it refutes: it is for a checker to judge.
#[derive(Drop)]
pub struct Derivation {
    /// The places of the clauses given, ascending.
    pub premises: Vec<usize>,
    /// The derived lines; the last one is the empty clause.
    pub lines: Vec<DerivedClause>,
}

impl Derivation {
    /// No premises and no lines.
    pub(crate) fn new(alloc: Global) -> Self {
        Derivation {
            premises: Vec::new(alloc),
            lines: Vec::new(alloc),
        }
    }
}

fn mark_all(needed: &mut Vec<bool>, hints: &[usize]) {
    for hint in hints {
        put(needed, *hint, true);
    }
}

// Which clauses the last line needs, by number.
fn needed_by(alloc: Global, store: &Store<'_>, last: usize) -> Result<Vec<bool>, AllocError> {
    let mut needed = vec![in alloc; false; store.len().saturating_add(1)]?;
    put(&mut needed, last, true);
    for number in (0..store.len().saturating_add(1)).rev() {
        if at(&needed, number, false) {
            mark_all(&mut needed, store.hints(number));
        }
    }
    Ok(needed)
}

// What is written so far, and under which number each clause is.
#[derive(Drop)]
struct Writing {
    refutation: Derivation,
    numbers: Vec<u32>,
    count: u32,
}

impl Writing {
    // The count stays at 4,294,967,295, far above the lines that a text may have; what is written is judged by a checker.
    fn number(&mut self, clause: usize) {
        self.count = self.count.saturating_add(1);
        put(&mut self.numbers, clause, self.count);
    }

    fn write_premise(&mut self, clause: usize) -> Result<(), AllocError> {
        self.number(clause);
        self.refutation.premises.push(clause.saturating_sub(1))?;
        Ok(())
    }

    // The numbers under which the hints are written.
    fn hints_of(&self, alloc: Global, hints: &[usize]) -> Result<Vec<u32>, AllocError> {
        hints
            .iter()
            .map(|hint| at(&self.numbers, *hint, 0))
            .collect(alloc)
    }

    fn write_line(
        &mut self,
        alloc: Global,
        store: &Store<'_>,
        clause: usize,
    ) -> Result<(), AllocError> {
        let literals = store.clause(clause).to_vec(alloc)?;
        let hints = self.hints_of(alloc, store.hints(clause))?;
        self.number(clause);
        self.refutation
            .lines
            .push(DerivedClause { literals, hints })?;
        Ok(())
    }

    fn write(&mut self, alloc: Global, store: &Store<'_>, clause: usize) -> Result<(), AllocError> {
        if clause <= store.given().len() {
            self.write_premise(clause)
        } else if clause > store.before_learned() {
            self.write_line(alloc, store, clause)
        } else {
            Ok(())
        }
    }
}

/// What the clause of this number needs, in order. Linear in the clauses and in what is written.
pub(crate) fn refutation_of(
    alloc: Global,
    store: &Store<'_>,
    last: usize,
) -> Result<Derivation, AllocError> {
    let needed = needed_by(alloc, store, last)?;
    let mut writing = Writing {
        refutation: Derivation::new(alloc),
        numbers: vec![in alloc; 0; needed.len()]?,
        count: 0,
    };
    for (clause, is_needed) in needed.iter().enumerate() {
        if *is_needed {
            writing.write(alloc, store, clause)?;
        }
    }
    Ok(writing.refutation)
}
