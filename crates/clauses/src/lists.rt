// Lists that lie one behind another in the order in which they were ended, and the list that isn't ended yet.

ghost use Rattle.std.specs.Prelude.{◌≡◌, ◌++◌, ◌∷◌, [], ◌+◌, OnErr, OnOk, length, slice_index, slice_index_or};

use std::alloc::{AllocError, Global};
use std::marker::Model;

/// Lists one behind another, in two blocks of memory.
#[derive(Drop)]
pub struct Lists<T> {
    items: Vec<T>,
    ends: Vec<usize>,
}

impl<T> Model for Lists<T> {
    ghost use Rattle.std.specs.Prelude.{length};
    ghost use Rattle.clauses.specs.Cut.{Cut, IsAscending, cut_at};

    ghost Value = { Cut T };

    ghost view = { λ l. cut_at l.ends.items l.items.items };

    ghost invariant = { λ l. IsAscending 0 l.ends.items (length l.items.items) };
}

// Where the list at a place ends; 0 where there is none.
fn end_at(ends: &Vec<usize>, place: usize) -> usize
    ensures { result ≡ slice_index ends.now.items place }
{
    match ends.get(place) {
        Some(end) => *end,
        None => 0,
    }
}

// Where the list at a place begins.
fn start_at(ends: &Vec<usize>, place: usize) -> usize
    ensures { result ≡ slice_index (0 ∷ ends.now.items) place }
{
    match place {
        0 => 0,
        _ => end_at(ends, place - 1),
    }
}

impl<T: Copy + Drop> Lists<T> {
    /// No lists.
    pub fn new(alloc: Global) -> Self
        ensures closed { result.closed ≡ [] }
        ensures opened { result.open_items ≡ [] }
    {
        Lists {
            items: Vec::new(alloc),
            ends: Vec::new(alloc),
        }
    }

    /// How many lists were ended.
    pub fn len(&self) -> usize
        ensures { result ≡ length self.now.closed }
    {
        self.ends.len()
    }

    /// Whether no list was ended.
    pub fn is_empty(&self) -> bool {
        self.ends.is_empty()
    }

    /// Puts an item at the end of the list that isn't ended. An error is want of memory.
    pub fn push(&mut self, item: T) -> Result<(), AllocError>
        ensures closed { self.new.closed ≡ self.old.closed }
        ensures pushed { OnOk result (self.new.open_items ≡ self.old.open_items ++ item ∷ []) }
        ensures unchanged { OnErr result (self.new ≡ self.old) }
    {
        self.items.push(item)?;
        Ok(())
    }

    /// Ends the list, so that what is pushed next is in the list behind it. An error is want of memory.
    pub fn end(&mut self) -> Result<(), AllocError>
        ensures ended { OnOk result
            (self.new.closed ≡ self.old.closed ++ self.old.open_items ∷ []) }
        ensures opened { OnOk result (self.new.open_items ≡ []) }
        ensures unchanged { OnErr result (self.new ≡ self.old) }
    {
        let end = self.items.len();
        self.ends.push(end)?;
        Ok(())
    }

    /// The list at a place, counted from 0; an empty one where there is none.
    pub fn at(&self, place: usize) -> &[T]
        ensures { result.now ≡ slice_index_or self.now.closed place [] }
    {
        match self
            .items
            .get(start_at(&self.ends, place)..end_at(&self.ends, place))
        {
            Some(items) => items,
            None => &[],
        }
    }
}
