// What is left of a request.

ghost use Rattle.std.specs.Prelude.{◌≡◌, ◌<◌, IfOk, length};
ghost use Rattle.std.specs.List.{slice_set};
ghost use Rattle.keep_back.specs.Further.{AllStay, IsFewerBy, request_of};
ghost use Rattle.request_lines.specs.Spelled.{stays_at};

use crate::note::count_goals;
use request_lines::{Wish, text_of};
use std::alloc::{AllocError, Global};

/// The wishes of a request, and which of them stay.
#[derive(Drop)]
pub(crate) struct Left {
    /// The wishes of the request.
    pub(crate) wishes: Vec<Wish>,
    /// Of each whether it stays.
    pub(crate) stays: Vec<bool>,
    /// How many goals may be left out.
    pub(crate) goals: usize,
}

impl Left {
    /// All of the wishes. Memory alone can fail.
    pub(crate) fn new(alloc: Global, wishes: Vec<Wish>) -> Result<Left, AllocError>
        ensures wishes { IfOk result (λ left. left.wishes.items ≡ wishes.items) }
        ensures long { IfOk result (λ left. length left.stays.items ≡ length wishes.items) }
        ensures stay { IfOk result (λ left. AllStay left.stays.items) }
    {
        let goals = count_goals(wishes.as_slice());
        let stays = vec![in alloc; true; wishes.len()]?;
        Ok(Left {
            wishes,
            stays,
            goals,
        })
    }

    /// The text of the request that is left. Memory alone can fail. Linear in it.
    pub(crate) fn request(&self, alloc: Global) -> Result<Vec<u8>, AllocError>
        ensures { IfOk result (λ text. text.items ≡ request_of self.now) }
    {
        text_of(alloc, self.wishes.as_slice(), self.stays.as_slice())
    }

    /// Whether the wish at the place stays.
    pub(crate) fn stays_at(&self, place: usize) -> bool
        ensures { result ≡ stays_at self.now.stays.items place }
    {
        if place < self.stays.len() {
            self.stays[place]
        } else {
            true
        }
    }

    /// How many of the wishes are left out.
    pub(crate) fn count_out(&self) -> usize {
        self.stays.iter().filter(|stays| !**stays).count()
    }

    /// Says of the wish at the place whether it stays.
    pub(crate) fn mark(&mut self, place: usize, stays: bool)
        requires { place < length self.old.stays.items }
        ensures wishes { self.new.wishes.items ≡ self.old.wishes.items }
        ensures stays { self.new.stays.items ≡ slice_set self.old.stays.items place stays }
    {
        self.stays[place] = stays;
    }

    // Leaves out the wish at the place, if it stays and asks for an installation or an upgrade: whether it did.
    fn leave_out(&mut self, place: usize) -> bool
        requires { length self.old.stays.items ≡ length self.old.wishes.items }
        ensures { IsFewerBy result self.old self.new }
    {
        if place < self.wishes.len() && self.stays_at(place) && self.wishes[place].asks_for_more() {
            self.mark(place, false);
            return true;
        }
        false
    }

    /// Leaves out the wishes at these places that stay and ask for an installation or an upgrade: whether there was one.
    pub(crate) fn leave_out_each(&mut self, places: &[usize]) -> bool
        requires { length self.old.stays.items ≡ length self.old.wishes.items }
        ensures { IsFewerBy result self.old self.new }
    {
        let mut is_fewer = false;
        for place in places {
            if self.leave_out(*place) {
                is_fewer = true;
            }
        }
        is_fewer
    }
}
