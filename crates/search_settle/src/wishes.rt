// Which wish is for which number. This is advice, of which no contract speaks.

use clauses::Clauses;
use std::alloc::{AllocError, Global};

/// For each number the place of the wish that has it, and where none has it a place behind all wishes.
#[derive(Drop)]
pub(crate) struct Wishes {
    places: Vec<usize>,
}

// Writes the place of a wish for each of its numbers.
fn write_place(places: &mut Vec<usize>, numbers: &[u32], wish: usize) {
    for number in numbers {
        if (*number as usize) < places.len() {
            places[*number as usize] = wish;
        }
    }
}

impl Wishes {
    /// The wishes of the clauses. Memory alone can fail. Linear in the numbers.
    pub(crate) fn of(alloc: Global, clauses: &Clauses) -> Result<Wishes, AllocError> {
        let mut places = vec![in alloc; clauses.wishes(); clauses.numbers() as usize + 1]?;
        for wish in 0..clauses.wishes() {
            write_place(&mut places, clauses.wish(wish), wish);
        }
        Ok(Wishes { places })
    }

    /// The place of the wish that has the number; one behind all wishes where none has it.
    pub(crate) fn place_of(&self, number: u32) -> usize {
        match self.places.get(number as usize) {
            Some(place) => *place,
            None => usize::MAX,
        }
    }
}
