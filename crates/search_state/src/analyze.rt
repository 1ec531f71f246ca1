// What is learned from a conflict: the clause of the first unique implication point, with the reasons that it follows
// by. Literals of level 0 are left out of the clause, and their reasons go into its hints. The implication graph is the
// trail with its reasons, so one walk from its end decides all.

use crate::literal::{negation, number_of};
use crate::store::Store;
use crate::table::{at, put};
use crate::trail::Trail;
use std::alloc::{AllocError, Global};

/// A learned clause: the literal that it makes true first, then the others, those of later levels first. Its hints are
/// numbers of clauses, in the order in which they make literals true.
#[derive(Drop)]
pub struct Learned {
    pub(crate) literals: Vec<i32>,
    pub(crate) hints: Vec<usize>,
    pub(crate) level: u32,
}

// Which numbers stand in what was resolved so far, and how many of the conflict's level are left.
#[derive(Drop)]
struct Marks {
    marked: Vec<bool>,
    level: u32,
    open: usize,
}

impl Marks {
    fn mark(&mut self, trail: &Trail, literal: i32) {
        let number = number_of(literal);
        if at(&self.marked, number, true) {
            return;
        }
        put(&mut self.marked, number, true);
        if trail.level_of(number) == self.level {
            self.open = self.open.saturating_add(1);
        }
    }

    fn mark_all(&mut self, trail: &Trail, clause: &[i32]) {
        for literal in clause {
            self.mark(trail, *literal);
        }
    }
}

// What becomes of a marked literal of the trail.
enum Duty {
    Resolve,
    Keep,
}

fn duty_of(marks: &Marks, level: u32) -> Duty {
    if level == 0 || (level == marks.level && marks.open > 1) {
        Duty::Resolve
    } else {
        Duty::Keep
    }
}

// Takes a literal of the conflict's level out of those that are left.
fn settle(marks: &mut Marks, level: u32) {
    if level == marks.level {
        marks.open = marks.open.saturating_sub(1);
    }
}

fn resolve(
    store: &Store<'_>,
    trail: &Trail,
    marks: &mut Marks,
    learned: &mut Learned,
    number: usize,
) -> Result<(), AllocError> {
    if let Some(reason) = trail.reason_of(number) {
        marks.mark_all(trail, store.clause(reason));
        learned.hints.push(reason)?;
    }
    Ok(())
}

// One literal of the trail, from its end on.
fn step(
    store: &Store<'_>,
    trail: &Trail,
    marks: &mut Marks,
    learned: &mut Learned,
    literal: i32,
) -> Result<(), AllocError> {
    let number = number_of(literal);
    if !at(&marks.marked, number, false) {
        return Ok(());
    }
    let level = trail.level_of(number);
    match duty_of(marks, level) {
        Duty::Resolve => resolve(store, trail, marks, learned, number)?,
        Duty::Keep => learned.literals.push(negation(literal))?,
    }
    settle(marks, level);
    Ok(())
}

// The level up to which the learned clause stays without a value for its first literal alone.
fn level_below(trail: &Trail, literals: &Vec<i32>) -> u32 {
    match literals.get(1) {
        Some(second) => trail.level_of(number_of(*second)),
        None => 0,
    }
}

/// What is learned from a clause that is false. Linear in the trail and in the clauses that it names.
pub(crate) fn analyze(
    alloc: Global,
    store: &Store<'_>,
    trail: &Trail,
    conflict: usize,
) -> Result<Learned, AllocError> {
    let mut marks = Marks {
        marked: vec![in alloc; false; trail.room()]?,
        level: trail.level(),
        open: 0,
    };
    let mut learned = Learned {
        literals: Vec::new(alloc),
        hints: Vec::new(alloc),
        level: 0,
    };
    marks.mark_all(trail, store.clause(conflict));
    for place in (0..trail.len()).rev() {
        step(store, trail, &mut marks, &mut learned, trail.literal(place))?;
    }
    learned.hints.reverse();
    learned.hints.push(conflict)?;
    learned.level = level_below(trail, &learned.literals);
    Ok(learned)
}
