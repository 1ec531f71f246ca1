//! The places of records, by the names that they have or provide.
ghost use Rattle.std.specs.Prelude.{◌≡◌, ◌<◌, [], ℕ, List, true, length, map, slice_index_or, Contains, OnOk};
ghost use Rattle.index.specs.Providers.{is_item_of};
ghost use Rattle.plancheck_state.specs.Holders.{IsEntered, KeepsLists, KeepsPlaces, places_in, places_left};

use crate::place_list::PlaceList;
use indexmap::IndexMap;
use relation::Provided;
use std::alloc::{AllocError, Global};
use std::marker::Model;

/// For each name the places that were entered for it. `numbers` has the number of the list of each name.
#[derive(Drop)]
pub struct Places<'a> {
    alloc: Global,
    numbers: IndexMap<&'a [u8], usize>,
    lists: Vec<PlaceList>,
}

impl<'a> Model for Places<'a> {
    ghost use Rattle.std.specs.Prelude.{◌<◌, ℕ, List, length};
    ghost use Rattle.std.specs.List.{All};
    ghost use Rattle.indexmap.specs.IndexMap.{values};
    ghost use Rattle.plancheck_state.specs.Holders.{listed};

    ghost Value = { List (List ℕ × List ℕ) };

    ghost view = { λ p. listed p.lists.items p.numbers.entries };

    ghost invariant = { λ p. All (λ number. number < length p.lists.items) (values p.numbers) };
}

// The place that is gone is taken out of each list, and those behind it move down.
fn close_gaps(lists: &mut [PlaceList], gone: usize)
    ensures { lists.new ≡ map (places_left gone) lists.old }
{
    for list in lists.iter_mut() {
        list.close_gap(gone);
    }
}

// Enters the place in the list of this number.
fn enter_in(lists: &mut Vec<PlaceList>, number: usize, place: usize) -> Result<(), AllocError>
    requires { number < length lists.old.items }
    ensures kept { KeepsLists lists.old.items lists.new.items }
    ensures entered { OnOk result (Contains (slice_index_or lists.new.items number []) place) }
    ensures len { length lists.new.items ≡ length lists.old.items }
{
    lists[number].enter(place)?;
    Ok(())
}

impl<'a> Places<'a> {
    /// No places.
    pub fn new(alloc: Global) -> Places<'a> {
        Places {
            alloc,
            numbers: IndexMap::new(alloc),
            lists: Vec::new(alloc),
        }
    }

    /// The places of the name.
    pub fn of(&self, name: &[u8]) -> &[usize]
        ensures { result.now ≡ places_in self.now name.now }
    {
        match self.numbers.get(name).copied() {
            Some(number) => self.lists[number].as_slice(),
            None => &[],
        }
    }

    // Enters the place for the name.
    fn add(&mut self, name: &'a [u8], place: usize) -> Result<(), AllocError>
        ensures kept { KeepsPlaces (places_in self.old) (places_in self.new) }
        ensures added { OnOk result (Contains (places_in self.new name.now) place) }
    {
        match self.numbers.get(name).copied() {
            Some(number) => enter_in(&mut self.lists, number, place),
            None => {
                let number = self.lists.len();
                self.lists.push(PlaceList::of(self.alloc, place)?)?;
                self.numbers.insert(name, number)?;
                Ok(())
            }
        }
    }

    // Enters the place for the name of the item, unless it is foreign.
    fn add_item(&mut self, item: &Provided<'a>, place: usize) -> Result<(), AllocError>
        ensures kept { KeepsPlaces (places_in self.old) (places_in self.new) }
        ensures added { OnOk result
            ((name : List ℕ) → is_item_of name item.now ≡ true
            → Contains (places_in self.new name) place) }
    {
        if item.is_foreign() {
            Ok(())
        } else {
            self.add(item.name(), place)
        }
    }

    /// Enters the place for the name and for what is provided. It stands once in the list of a name, however many items
    /// are of that name. Memory alone can fail; places that were entered stay.
    pub fn enter(
        &mut self,
        name: &'a [u8],
        provides: &[Provided<'a>],
        place: usize,
    ) -> Result<(), AllocError>
        ensures kept { KeepsPlaces (places_in self.old) (places_in self.new) }
        ensures entered { OnOk result (IsEntered name.now provides.now place (places_in self.new)) }
    {
        self.add(name, place)?;
        for item in provides {
            self.add_item(item, place)?;
        }
        Ok(())
    }

    /// Takes out the place that is gone, and moves those behind it down by one. Linear in the places.
    pub fn close_gap(&mut self, gone: usize)
        ensures { (name : List ℕ) → places_in self.new name
            ≡ places_left gone (places_in self.old name) }
    {
        close_gaps(self.lists.as_mut_slice(), gone);
    }
}
