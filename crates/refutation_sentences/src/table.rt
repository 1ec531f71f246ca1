// The pairs that clauses speak of, numbered anew from 1 in the order in which they come.

use indexmap::IndexSet;
use refutation::Literal;
use std::alloc::{AllocError, Global};

/// The number of the pair of which the literal speaks.
pub(crate) fn pair_in(literal: Literal) -> u32 {
    match literal {
        Literal::Selected(pair) => pair,
        Literal::Unselected(pair) => pair,
    }
}

/// The pairs that have a number: the one at place 0 has the number 1.
#[derive(Drop)]
pub(crate) struct Table {
    pairs: IndexSet<u32>,
}

impl Table {
    /// No pairs.
    pub(crate) fn new(alloc: Global) -> Table {
        Table {
            pairs: IndexSet::new(alloc),
        }
    }

    /// Numbers the pairs of the clause that have no number. Memory alone can fail.
    pub(crate) fn add(&mut self, clause: &[Literal]) -> Result<(), AllocError> {
        for literal in clause {
            self.pairs.insert(pair_in(*literal))?;
        }
        Ok(())
    }

    /// The greatest number. Where it has no 31 bits it is want of memory.
    pub(crate) fn greatest(&self) -> Result<i32, AllocError> {
        match i32::try_from(self.pairs.len()) {
            Ok(greatest) => Ok(greatest),
            Err(_) => Err(AllocError),
        }
    }

    // The number of the pair; none where it has none of 31 bits.
    fn number_of(&self, pair: u32) -> Option<i32> {
        let place = self.pairs.get_index_of(&pair)?;
        match i32::try_from(place) {
            Ok(place) => place.checked_add(1),
            Err(_) => None,
        }
    }

    /// The literal over the numbers; none where its pair has no number.
    pub(crate) fn number_in(&self, literal: Literal) -> Option<i32> {
        let number = self.number_of(pair_in(literal))?;
        match literal {
            Literal::Selected(_) => Some(number),
            Literal::Unselected(_) => number.checked_neg(),
        }
    }

    /// The literal over the numbers as one over the pairs; none where no pair has its number.
    pub(crate) fn literal_in(&self, literal: i32) -> Option<Literal> {
        let place = literal.unsigned_abs().checked_sub(1)?;
        let pair = self.pairs.get_index(place as usize)?;
        if literal < 0 {
            Some(Literal::Unselected(*pair))
        } else {
            Some(Literal::Selected(*pair))
        }
    }
}
