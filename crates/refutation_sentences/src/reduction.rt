// The candidate of a core: premises are left out one after another, from the last to the first, where those that stay refute
// by themselves. Nothing is promised of it: a judge decides.

use crate::basis::{Basis, bases_of};
use crate::convert::{places_in, refutation_of};
use crate::given::{given_of, table_of};
use refutation::Refutation;
use refutecheck::Premises;
use search::{SearchAnswer, search};
use std::alloc::{AllocError, Global};

/// How many conflicts a search may have.
const CONFLICTS: u32 = 1000;

// The premises that are left, by their places, how many of the last of them are known to be needed, and what they refute by,
// where one was left out.
#[derive(Drop)]
struct Reduction {
    places: Vec<usize>,
    needed: usize,
    refutation: Option<Refutation>,
}

// The premises of a refutation that was found, by their places, and its lines.
#[derive(Drop)]
struct Shorter {
    places: Vec<usize>,
    refutation: Refutation,
}

// All places but the one at `left_out`.
fn without(alloc: Global, places: &[usize], left_out: usize) -> Result<Vec<usize>, AllocError> {
    let mut rest = Vec::new(alloc);
    for (at, place) in places.iter().enumerate() {
        if at != left_out {
            rest.push(*place)?;
        }
    }
    Ok(rest)
}

// What the search finds of the premises at these places, if it is a refutation of some of them.
fn found_in(
    alloc: Global,
    bases: &[Basis<'_>],
    places: &[usize],
) -> Result<Option<Shorter>, AllocError> {
    let table = table_of(alloc, bases, places)?;
    let given = given_of(alloc, bases, places, &table)?;
    let SearchAnswer::Refutation(answer) = search(alloc, &given, CONFLICTS)? else {
        return Ok(None);
    };
    if answer.premises.is_empty() {
        return Ok(None);
    }
    let kept = places_in(alloc, places, answer.premises.as_slice())?;
    let refutation = refutation_of(alloc, &table, bases, kept.as_slice(), &answer)?;
    Ok(Some(Shorter {
        places: kept,
        refutation,
    }))
}

impl Reduction {
    // All premises.
    fn new(alloc: Global, count: usize) -> Result<Reduction, AllocError> {
        let mut places = Vec::new(alloc);
        for place in 0..count {
            places.push(place)?;
        }
        Ok(Reduction {
            places,
            needed: 0,
            refutation: None,
        })
    }

    // The place among the places of the last premise that isn't known to be needed.
    fn next(&self) -> Option<usize> {
        let untried = self.places.len().checked_sub(self.needed)?;
        untried.checked_sub(1)
    }

    // Leaves out the last premise that isn't known to be needed, if the others refute.
    fn step(&mut self, alloc: Global, bases: &[Basis<'_>]) -> Result<(), AllocError> {
        let Some(left_out) = self.next() else {
            return Ok(());
        };
        let rest = without(alloc, self.places.as_slice(), left_out)?;
        match found_in(alloc, bases, rest.as_slice())? {
            None => self.needed = self.needed.saturating_add(1),
            Some(shorter) => {
                self.places = shorter.places;
                self.refutation = Some(shorter.refutation);
            }
        }
        Ok(())
    }
}

/// What is left of the refutation where premises were left out, if one could be. Each premise costs a search. Memory alone
/// can fail.
pub(crate) fn candidate_of(
    premises: &Premises<'_, '_, '_>,
    refutation: &Refutation,
) -> Result<Option<Refutation>, AllocError> {
    let alloc = premises.alloc();
    let bases = bases_of(premises, refutation)?;
    let mut reduction = Reduction::new(alloc, bases.len())?;
    for _ in 0..bases.len() {
        reduction.step(alloc, bases.as_slice())?;
    }
    Ok(reduction.refutation)
}
