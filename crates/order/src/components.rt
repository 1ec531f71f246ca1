// Names that need each other in turn, found by a walk in depth (R. Tarjan, "Depth-first search and linear graph algorithms",
// 1972). A component is the names that need each other; it is lowest if it needs no other one in which a name waits.

use crate::ring::needs_of;
use indexmap::IndexSet;
use plancheck_state::Records;
use std::alloc::{AllocError, Global};

// A name that was seen: what it needs and wasn't gone to; the first of those seen and open that it is known to need in turn;
// whether its component is open; and whether it is high: whether a name waits in a closed component that it needs, or, once its own component is
// closed, in that.
#[derive(Drop)]
struct Seen<'a> {
    needs: Vec<&'a [u8]>,
    first: usize,
    is_open: bool,
    is_high: bool,
}

// The walk: the names seen, those on the way, those whose components are open, and what was found.
#[derive(Drop)]
struct Walk<'w, 'a> {
    waiting: &'w IndexSet<&'a [u8]>,
    names: IndexSet<&'a [u8]>,
    seen: Vec<Seen<'a>>,
    path: Vec<usize>,
    open: Vec<usize>,
    is_lowest: Vec<bool>,
}

impl<'w, 'a> Walk<'w, 'a> {
    fn over(alloc: Global, waiting: &'w IndexSet<&'a [u8]>) -> Result<Walk<'w, 'a>, AllocError> {
        let mut is_lowest = Vec::new(alloc);
        for _ in 0..waiting.len() {
            is_lowest.push(false)?;
        }
        Ok(Walk {
            waiting,
            names: IndexSet::new(alloc),
            seen: Vec::new(alloc),
            path: Vec::new(alloc),
            open: Vec::new(alloc),
            is_lowest,
        })
    }

    // Goes to a name that wasn't seen.
    fn enter(
        &mut self,
        alloc: Global,
        db: &Records<'_, 'a>,
        name: &'a [u8],
    ) -> Result<(), AllocError> {
        let place = self.seen.len();
        self.names.insert(name)?;
        self.seen.push(Seen {
            needs: needs_of(alloc, db, name)?,
            first: place,
            is_open: true,
            is_high: false,
        })?;
        self.path.push(place)?;
        self.open.push(place)?;
        Ok(())
    }

    // The next need of the name at the place, if one is left.
    fn next_need(&mut self, place: usize) -> Option<&'a [u8]> {
        match self.seen.get_mut(place) {
            Some(seen) => seen.needs.pop(),
            None => None,
        }
    }

    // Takes over, to the name at the place, what is known of one that it needs.
    fn take_over(&mut self, place: usize, need: usize) {
        let Some((first, is_open, is_high)) = self.known_of(need) else {
            return;
        };
        if let Some(seen) = self.seen.get_mut(place) {
            if is_open {
                seen.first = seen.first.min(first);
            } else {
                seen.is_high = seen.is_high || is_high;
            }
        }
    }

    // What is known of the name at the place.
    fn known_of(&self, place: usize) -> Option<(usize, bool, bool)> {
        match self.seen.get(place) {
            Some(seen) => Some((seen.first, seen.is_open, seen.is_high)),
            None => None,
        }
    }

    // The place of the name at this place among the waiting ones, if it is one.
    fn waiting_at(&self, place: usize) -> Option<usize> {
        match self.names.get_index(place) {
            Some(name) => self.waiting.get_index_of(*name),
            None => None,
        }
    }

    // Takes what is open out, up to the name at the place.
    fn take_open(&mut self, alloc: Global, place: usize) -> Result<Vec<usize>, AllocError> {
        let mut component = Vec::new(alloc);
        for _ in 0..self.open.len() {
            let Some(last) = self.open.pop() else {
                return Ok(component);
            };
            component.push(last)?;
            if last == place {
                return Ok(component);
            }
        }
        Ok(component)
    }

    // Closes the component whose first name is at the place.
    fn close(&mut self, alloc: Global, place: usize) -> Result<(), AllocError> {
        let component = self.take_open(alloc, place)?;
        self.note_closed(component.as_slice());
        Ok(())
    }

    // The place of the first waiting name of the component, if there is one, and whether the component needs one that isn't low.
    fn told_of(&self, component: &[usize]) -> (Option<usize>, bool) {
        let mut waits = None;
        let mut is_high = false;
        for place in component {
            waits = least(waits, self.waiting_at(*place));
            is_high = is_high || self.known_of(*place).is_some_and(|(_, _, high)| high);
        }
        (waits, is_high)
    }

    // Notes of a closed component whether it is lowest. What needs it is high if it is or if a name in it waits.
    fn note_closed(&mut self, component: &[usize]) {
        let (waits, is_high) = self.told_of(component);
        if let Some(first) = waits {
            if let Some(is_lowest) = self.is_lowest.get_mut(first) {
                *is_lowest = !is_high;
            }
        }
        for place in component {
            if let Some(seen) = self.seen.get_mut(*place) {
                seen.is_open = false;
                seen.is_high = is_high || waits.is_some();
            }
        }
    }

    // Leaves the name at the place, all of whose needs were gone to.
    fn leave(&mut self, alloc: Global, place: usize) -> Result<(), AllocError> {
        if self
            .known_of(place)
            .is_some_and(|(first, _, _)| first == place)
        {
            self.close(alloc, place)?;
        }
        if let Some(before) = self.path.last().copied() {
            self.take_over(before, place);
        }
        Ok(())
    }

    // Goes on by one need, or leaves a name. Answers whether some name was on the way.
    fn go_on(&mut self, alloc: Global, db: &Records<'_, 'a>) -> Result<bool, AllocError> {
        let Some(place) = self.path.pop() else {
            return Ok(false);
        };
        let Some(need) = self.next_need(place) else {
            self.leave(alloc, place)?;
            return Ok(true);
        };
        self.path.push(place)?;
        match self.names.get_index_of(need) {
            Some(needed) => self.take_over(place, needed),
            None => self.enter(alloc, db, need)?,
        }
        Ok(true)
    }

    // Walks over the name and all that it needs in turn, unless it was seen.
    fn visit(
        &mut self,
        alloc: Global,
        db: &Records<'_, 'a>,
        name: &'a [u8],
    ) -> Result<(), AllocError> {
        if self.names.get_index_of(name).is_some() {
            return Ok(());
        }
        self.enter(alloc, db, name)?;
        for _ in 0..u64::MAX {
            if !self.go_on(alloc, db)? {
                return Ok(());
            }
        }
        Ok(())
    }

    // The places of the waiting names by which the lowest components are noted.
    fn lowest(&self, alloc: Global) -> Result<Vec<usize>, AllocError> {
        let mut places = Vec::new(alloc);
        for (place, is_lowest) in self.is_lowest.iter().enumerate() {
            if *is_lowest {
                places.push(place)?;
            }
        }
        Ok(places)
    }
}

// The least of the two, where either is there.
fn least(place: Option<usize>, other: Option<usize>) -> Option<usize> {
    match (place, other) {
        (Some(place), Some(other)) => Some(place.min(other)),
        (Some(place), None) => Some(place),
        (None, other) => other,
    }
}

/// Of each of the lowest components in which a name waits the place of the first that does. Linear in the clauses of what isn't
/// configured. Memory alone can fail.
pub(crate) fn lowest<'a>(
    alloc: Global,
    db: &Records<'_, 'a>,
    waiting: &IndexSet<&'a [u8]>,
) -> Result<Vec<usize>, AllocError> {
    let mut walk = Walk::over(alloc, waiting)?;
    for name in waiting.as_slice() {
        walk.visit(alloc, db, *name)?;
    }
    walk.lowest(alloc)
}
