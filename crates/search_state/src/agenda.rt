// What is decided next, in three stages: the wishes that have no value, the wishes none of whose numbers is selected,
// and the clauses that leaving out would make false. Each stage has a place up to which nothing is left, which goes
// back with a jump. Of clauses only those without an owner and those of selected numbers are looked at; when nothing is
// left of these, all are, since a clause of another kind may have become false. In which order wishes come is for the
// caller.

use crate::leave_out::{first_left, first_left_of_all};
use crate::literal::selects;
use crate::store::Store;
use crate::table::at;
use crate::trail::Trail;
use clauses::Span;
use std::alloc::{AllocError, Global};

// Up to which places nothing is left to be decided.
#[derive(Clone, Copy, Drop)]
struct Places {
    wish: usize,
    choice: usize,
    owner: usize,
    clause: usize,
}

const FRONT: Places = Places {
    wish: 0,
    choice: 0,
    owner: 0,
    clause: 0,
};

/// The order of the wishes, the literal that each wish decides, and the places of the three stages.
#[derive(Drop)]
pub struct Agenda {
    order: Vec<usize>,
    literals: Vec<i32>,
    places: Places,
    kept: Vec<Places>,
}

impl Agenda {
    /// The wishes that decide these literals, in their order. An error is want of memory.
    pub fn new(alloc: Global, literals: Vec<i32>) -> Result<Self, AllocError> {
        let order = (0..literals.len()).collect(alloc)?;
        Ok(Agenda {
            order,
            literals,
            places: FRONT,
            kept: Vec::new(alloc),
        })
    }

    /// How many wishes there are.
    pub fn len(&self) -> usize {
        self.order.len()
    }

    /// The wish at a place of the order, counted from 0; 0 where there is none.
    pub fn wish_at(&self, place: usize) -> usize {
        at(&self.order, place, 0)
    }

    /// The literal that a wish decides; 0 where it decides none.
    pub fn literal_of(&self, wish: usize) -> i32 {
        at(&self.literals, wish, 0)
    }

    /// Puts the wish at a place of the order in front, if there is one, and begins anew: no decision may stand.
    pub fn put_in_front(&mut self, place: usize) {
        if place < self.order.len() {
            self.order[..place + 1].rotate_right(1);
        }
        self.places = FRONT;
        self.kept.clear();
    }

    /// Puts the wish in front back at a place of the order, as before `put_in_front` of this place.
    pub fn put_back(&mut self, place: usize) {
        if place < self.order.len() {
            self.order[..place + 1].rotate_left(1);
        }
    }

    /// Keeps the places for the level that begins.
    pub(crate) fn keep(&mut self) -> Result<(), AllocError> {
        self.kept.push(self.places)?;
        Ok(())
    }

    /// Goes back to the places that were kept when a level ended.
    pub(crate) fn back_to(&mut self, level: u32) {
        let level = level as usize;
        if level < self.kept.len() {
            self.places = at(&self.kept, level, FRONT);
            self.kept.truncate(level);
        }
    }

    // The literal of the next wish without a value.
    fn next_wish(&mut self, trail: &Trail) -> Option<i32> {
        for place in self.places.wish..self.order.len() {
            self.places.wish = place;
            let literal = self.literal_of(self.wish_at(place));
            if literal != 0 && trail.value(literal).is_none() {
                return Some(literal);
            }
        }
        self.places.wish = self.order.len();
        None
    }

    // The best number of the next wish none of whose numbers is selected.
    fn next_choice(&mut self, store: &Store<'_>, trail: &Trail) -> Option<i32> {
        for place in self.places.choice..self.order.len() {
            self.places.choice = place;
            let choice = best_of(trail, store.given().wish(self.wish_at(place)));
            if choice.is_some() {
                return choice;
            }
        }
        self.places.choice = self.order.len();
        None
    }

    // The clauses that a stage of owners asks for: those without an owner, then those of each selected number.
    fn clauses_of_owner(&self, store: &Store<'_>, trail: &Trail, owner: usize) -> Span {
        match owner.checked_sub(1) {
            None => Span {
                from: 0,
                until: store.given().unowned_count(),
            },
            Some(place) => store.given().depends_of(selected_by(trail.literal(place))),
        }
    }

    // The first literal of the next clause of a span that leaving out would make false.
    fn next_in(&mut self, store: &Store<'_>, trail: &Trail, span: Span) -> Option<i32> {
        for place in span.from.saturating_add(self.places.clause)..span.until {
            let literal = first_left(trail, store.given().clause(place));
            if literal.is_some() {
                self.places.clause = place - span.from;
                return literal;
            }
        }
        None
    }

    // The first literal of the next clause that leaving out would make false.
    fn next_clause(&mut self, store: &Store<'_>, trail: &Trail) -> Option<i32> {
        for owner in self.places.owner..trail.len().saturating_add(1) {
            self.places.owner = owner;
            let span = self.clauses_of_owner(store, trail, owner);
            let literal = self.next_in(store, trail, span);
            if literal.is_some() {
                return literal;
            }
            self.places.clause = 0;
        }
        self.places.owner = trail.len().saturating_add(1);
        None
    }

    /// The literal to be decided next; none where all that is undecided may be left out.
    pub(crate) fn next(&mut self, store: &Store<'_>, trail: &Trail) -> Option<i32> {
        if let Some(literal) = self.next_wish(trail) {
            return Some(literal);
        }
        if let Some(literal) = self.next_choice(store, trail) {
            return Some(literal);
        }
        if let Some(literal) = self.next_clause(store, trail) {
            return Some(literal);
        }
        first_left_of_all(store, trail)
    }
}

// The number that a literal says to be selected; 0 where it says none.
fn selected_by(literal: i32) -> u32 {
    u32::try_from(literal).unwrap_or(0)
}

/// Whether one of the numbers is selected.
pub(crate) fn has_member(trail: &Trail, wish: &[u32]) -> bool {
    wish.iter().any(|number| trail.assignment_of(*number as usize) == Some(true))
}

// The first number of a wish that is undecided, if none of them is selected.
fn best_of(trail: &Trail, wish: &[u32]) -> Option<i32> {
    if has_member(trail, wish) {
        return None;
    }
    let number = wish
        .iter()
        .copied()
        .find(|number| trail.assignment_of(*number as usize).is_none())?;
    selects(number as usize)
}
