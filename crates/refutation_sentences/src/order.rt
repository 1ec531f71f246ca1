// The order in which premises are told: each names what those before have named, as far as that can be.

use crate::basis::Basis;
use crate::table::pair_in;
use indexmap::IndexMap;
use refutation::Literal;
use std::alloc::{AllocError, Global};
use std::collections::BTreeSet;

// The clauses that speak of a pair.
#[derive(Drop)]
struct Mention {
    // The places of those that speak against it, until it is known.
    against: Vec<usize>,
    // The places of those that are ready.
    ready: BTreeSet<usize>,
}

// The clauses that aren't told, by their places. A pair is known once a told clause speaks of it, and a clause is ready once the pairs
// that it speaks against are known.
#[derive(Drop)]
struct Untold<'k> {
    alloc: Global,
    // All clauses, the told ones among them.
    clauses: Vec<&'k [Literal]>,
    // Of each clause how many of its literals speak against a pair that isn't known.
    lacking: Vec<usize>,
    left: BTreeSet<usize>,
    ready: BTreeSet<usize>,
    mentions: IndexMap<u32, Mention>,
}

// The lesser of the place so far and the other one.
fn lesser(so_far: Option<usize>, place: usize) -> usize {
    match so_far {
        Some(least) if least < place => least,
        _ => place,
    }
}

impl<'k> Untold<'k> {
    // The clauses of the premises, none of which is told.
    fn new(alloc: Global, bases: &'k [Basis<'_>]) -> Result<Untold<'k>, AllocError> {
        let mut untold = Untold {
            alloc,
            clauses: Vec::new(alloc),
            lacking: Vec::new(alloc),
            left: BTreeSet::new(alloc),
            ready: BTreeSet::new(alloc),
            mentions: IndexMap::new(alloc),
        };
        for basis in bases {
            untold.add(basis.clause.as_slice())?;
        }
        for place in 0..bases.len() {
            untold.note_if_ready(place)?;
        }
        Ok(untold)
    }

    // Notes that the clause at the place has the literal.
    fn mention(&mut self, literal: Literal, place: usize) -> Result<(), AllocError> {
        let pair = pair_in(literal);
        if self.mentions.get(&pair).is_none() {
            let mention = Mention {
                against: Vec::new(self.alloc),
                ready: BTreeSet::new(self.alloc),
            };
            self.mentions.insert(pair, mention)?;
        }
        if let (Literal::Unselected(_), Some(mention)) = (literal, self.mentions.get_mut(&pair)) {
            mention.against.push(place)?;
        }
        Ok(())
    }

    // Puts the clause behind the others.
    fn add(&mut self, clause: &'k [Literal]) -> Result<(), AllocError> {
        let place = self.clauses.len();
        let mut lacking = 0usize;
        for literal in clause {
            self.mention(*literal, place)?;
            if let Literal::Unselected(_) = literal {
                lacking = lacking.saturating_add(1);
            }
        }
        self.left.insert(place)?;
        self.clauses.push(clause)?;
        self.lacking.push(lacking)?;
        Ok(())
    }

    // The clause at the place; none of its literals where there is none.
    fn clause_at(&self, place: usize) -> &'k [Literal] {
        match self.clauses.get(place) {
            None => &[],
            Some(clause) => clause,
        }
    }

    // Notes that the clause is ready, if it is and isn't told.
    fn note_if_ready(&mut self, place: usize) -> Result<(), AllocError> {
        if self.lacking.get(place).copied() != Some(0) || !self.left.contains(&place) {
            return Ok(());
        }
        self.ready.insert(place)?;
        for literal in self.clause_at(place) {
            if let Some(mention) = self.mentions.get_mut(&pair_in(*literal)) {
                mention.ready.insert(place)?;
            }
        }
        Ok(())
    }

    // Of the clause at the place one literal less speaks against a pair that isn't known.
    fn lack_less(&mut self, place: usize) -> Result<(), AllocError> {
        if let Some(lacking) = self.lacking.get_mut(place) {
            *lacking = lacking.saturating_sub(1);
        }
        self.note_if_ready(place)
    }

    // The clauses that speak against the pair, where it wasn't known before.
    fn take_against(&mut self, pair: u32) -> Vec<usize> {
        let none = Vec::new(self.alloc);
        match self.mentions.get_mut(&pair) {
            None => none,
            Some(mention) => std::mem::replace(&mut mention.against, none),
        }
    }

    // The clause at the place is told, and its pairs are known.
    fn tell(&mut self, place: usize) -> Result<(), AllocError> {
        self.left.remove(&place);
        self.ready.remove(&place);
        for literal in self.clause_at(place) {
            if let Some(mention) = self.mentions.get_mut(&pair_in(*literal)) {
                mention.ready.remove(&place);
            }
        }
        for literal in self.clause_at(place) {
            for other in self.take_against(pair_in(*literal)).iter() {
                self.lack_less(*other)?;
            }
        }
        Ok(())
    }

    // The first clause that is ready and speaks of a pair of this one.
    fn going_on_from(&self, clause: &[Literal]) -> Option<usize> {
        let mut least = None;
        for literal in clause {
            if let Some(mention) = self.mentions.get(&pair_in(*literal)) {
                if let Some(place) = mention.ready.first() {
                    least = Some(lesser(least, *place));
                }
            }
        }
        least
    }

    // The place of the clause that is told next, if one is left.
    fn next(&self, last: &[Literal]) -> Option<usize> {
        if let Some(place) = self.going_on_from(last) {
            return Some(place);
        }
        if let Some(place) = self.ready.first() {
            return Some(*place);
        }
        self.left.first().copied()
    }
}

/// The places of the premises in the order in which they are told: next comes the first whose pairs that its clause speaks
/// against are known, of these one that goes on from the clause told last, and where there is none, the first that is left.
/// A pair is known once a told clause speaks of it. Memory alone can fail. n log n in the literals of the premises.
pub(crate) fn order_of(alloc: Global, bases: &[Basis<'_>]) -> Result<Vec<usize>, AllocError> {
    let mut untold = Untold::new(alloc, bases)?;
    let mut places: Vec<usize> = Vec::new(alloc);
    let mut last: &[Literal] = &[];
    for _ in 0..bases.len() {
        if let Some(place) = untold.next(last) {
            untold.tell(place)?;
            last = untold.clause_at(place);
            places.push(place)?;
        }
    }
    Ok(places)
}
