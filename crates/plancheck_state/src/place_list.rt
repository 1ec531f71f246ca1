//! A list of places, each of which stands there once.
ghost use Rattle.std.specs.Prelude.{◌≡◌, ◌∷◌, [], map, Contains, IfOk, OnOk};
ghost use Rattle.std.specs.List.{All};
ghost use Rattle.plancheck_state.specs.Holders.{moved_down, places_left};

use std::alloc::{AllocError, Global};
use std::marker::Model;

/// Places in a list of records, counted from 0. They ascend, so one is found by halving.
#[derive(Drop)]
pub struct PlaceList {
    places: Vec<usize>,
}

impl Model for PlaceList {
    ghost use Rattle.std.specs.Prelude.{ℕ, List};
    ghost use Rattle.plancheck_state.specs.Holders.{IsAscending};

    ghost Value = { List ℕ };

    ghost view = { λ l. l.places.items };

    ghost invariant = { λ l. IsAscending l.places.items };
}

// The places behind the one that is gone move down.
fn move_down(places: &mut [usize], gone: usize)
    ensures { places.new ≡ map (moved_down gone) places.old }
{
    for place in places.iter_mut() {
        if *place > gone {
            *place -= 1;
        }
    }
}

impl PlaceList {
    /// This place alone. Memory alone can fail.
    pub fn of(alloc: Global, place: usize) -> Result<PlaceList, AllocError>
        ensures { IfOk result (λ list. list ≡ place ∷ []) }
    {
        let mut places = Vec::new(alloc);
        places.push(place)?;
        Ok(PlaceList { places })
    }

    /// The places.
    pub fn as_slice(&self) -> &[usize]
        ensures { result.now ≡ self.now }
    {
        self.places.as_slice()
    }

    /// Puts the place among the others in their order, unless it's one of them: it's looked for by halving, and the
    /// places behind it move up. Memory alone can fail, and then all stays as it was.
    pub fn enter(&mut self, place: usize) -> Result<(), AllocError>
        ensures kept { All (Contains self.new) self.old }
        ensures entered { OnOk result (Contains self.new place) }
    {
        match self.places.as_slice().binary_search(&place) {
            Ok(_) => Ok(()),
            Err(at) => {
                self.places.insert(at, place)?;
                Ok(())
            }
        }
    }

    /// Takes out the place that is gone, and moves those behind it down by one. Linear in the places.
    pub fn close_gap(&mut self, gone: usize)
        ensures { self.new ≡ places_left gone self.old }
    {
        self.places.retain(|place| *place != gone);
        move_down(self.places.as_mut_slice(), gone);
    }
}
