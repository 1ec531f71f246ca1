// Two watched literals a clause, in a linked list for each literal. A clause's watches are numbered `2 * clause` and
// `2 * clause + 1`, where clauses count from 1, so 0 is no watch. When a watch moves stands in `propagate`.

use crate::literal::place_of;
use crate::table::{at, nonzero_of, number_or_zero, put};
use std::alloc::{AllocError, Global};

/// Which literal each watch looks at, and the lists of the watches that look at one literal.
#[derive(Drop)]
pub struct Watches {
    firsts: Vec<usize>,
    nexts: Vec<usize>,
    literals: Vec<i32>,
}

/// The number of the clause of a watch.
pub(crate) fn clause_of(watch: usize) -> usize {
    watch / 2
}

fn partner_of(watch: usize) -> usize {
    watch ^ 1
}

impl Watches {
    /// No watches, of literals of the numbers up to this one. An error is want of memory.
    pub fn new(alloc: Global, numbers: usize) -> Result<Self, AllocError> {
        let room = numbers.saturating_add(1).saturating_mul(2);
        Ok(Watches {
            firsts: vec![in alloc; 0; room]?,
            nexts: Vec::new(alloc),
            literals: Vec::new(alloc),
        })
    }

    /// How many watches there is room for; a list has no more.
    pub(crate) fn room(&self) -> usize {
        self.nexts.len()
    }

    /// The first watch that looks at the literal.
    pub(crate) fn first(&self, literal: i32) -> Option<usize> {
        nonzero_of(at(&self.firsts, place_of(literal), 0))
    }

    /// The watch behind this one, of those that look at the same literal.
    pub(crate) fn after(&self, watch: usize) -> Option<usize> {
        nonzero_of(at(&self.nexts, watch, 0))
    }

    /// The literal that the clause's other watch looks at.
    pub(crate) fn partner(&self, watch: usize) -> i32 {
        at(&self.literals, partner_of(watch), 0)
    }

    // Puts a watch in front of those that look at the literal.
    fn link(&mut self, watch: usize, literal: i32) {
        let place = place_of(literal);
        let first = at(&self.firsts, place, 0);
        put(&mut self.nexts, watch, first);
        put(&mut self.firsts, place, watch);
        put(&mut self.literals, watch, literal);
    }

    // Leaves out of the list of the literal what stood between a watch, or the front, and another one.
    fn unlink(&mut self, literal: i32, before: Option<usize>, after: Option<usize>) {
        match before {
            None => put(&mut self.firsts, place_of(literal), number_or_zero(after)),
            Some(before) => put(&mut self.nexts, before, number_or_zero(after)),
        }
    }

    /// Moves a watch, which stood behind another one or in front, from one literal to another.
    pub(crate) fn move_to(&mut self, watch: usize, before: Option<usize>, from: i32, to: i32) {
        let after = self.after(watch);
        self.unlink(from, before, after);
        self.link(watch, to);
    }

    // Makes room up to the watches of a clause.
    fn make_room(&mut self, room: usize) -> Result<(), AllocError> {
        for _ in self.nexts.len()..room {
            self.nexts.push(0)?;
            self.literals.push(0)?;
        }
        Ok(())
    }

    /// Watches two literals of a clause, each once. An error is want of memory.
    pub fn attach(&mut self, clause: usize, first: i32, second: i32) -> Result<(), AllocError> {
        let watch = clause.saturating_mul(2);
        self.make_room(watch.saturating_add(2))?;
        self.link(watch, first);
        self.link(partner_of(watch), second);
        Ok(())
    }
}
