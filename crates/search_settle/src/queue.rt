// The numbers that are still to be looked at. Which come in, and in what order, matters for speed alone.

use crate::set::has;
use std::alloc::{AllocError, Global};

/// Numbers, each once; the one that came in last comes out first.
#[derive(Drop)]
pub(crate) struct Queue {
    waiting: Vec<u32>,
    waits: Vec<bool>,
}

impl Queue {
    /// The numbers from 1 to the greatest, of which 1 comes out first.
    pub(crate) fn of_all(alloc: Global, greatest: u32) -> Result<Queue, AllocError> {
        let mut queue = Queue {
            waiting: Vec::new(alloc),
            waits: vec![in alloc; false; greatest as usize + 1]?,
        };
        for number in (0..greatest).rev() {
            queue.push(number + 1)?;
        }
        Ok(queue)
    }

    /// A number comes in, if it doesn't wait already.
    pub(crate) fn push(&mut self, number: u32) -> Result<(), AllocError> {
        let place = number as usize;
        if place < self.waits.len() && !has(&self.waits, place) {
            self.waits[place] = true;
            self.waiting.push(number)?;
        }
        Ok(())
    }

    /// The number of each literal comes in.
    pub(crate) fn push_all(&mut self, clause: &[i32]) -> Result<(), AllocError> {
        for literal in clause {
            self.push(literal.unsigned_abs())?;
        }
        Ok(())
    }

    /// The next number.
    pub(crate) fn pop(&mut self) -> Option<u32> {
        let number = self.waiting.pop()?;
        let place = number as usize;
        if place < self.waits.len() {
            self.waits[place] = false;
        }
        Some(number)
    }
}
