// Which places were reached.

ghost use Rattle.std.specs.Prelude.{◌≡◌, ◌≢◌, ◌<◌, ◌+◌, ◌++◌, ◌∷◌, ◌^◌, [], ℕ, true, IfOk, IfSome, OnOk, length};
ghost use Rattle.std.specs.List.{All, slice_get};
ghost use Rattle.reach.specs.Marks.{Extends, IsOrdered, has, numbers_from};

use std::alloc::{AllocError, Global};
use std::marker::Model;

/// The places that were reached: marks of all places, and the marked ones in the order in which they were reached.
#[derive(Drop)]
pub(crate) struct Marks {
    marks: Vec<bool>,
    order: Vec<usize>,
}

impl Model for Marks {
    ghost use Rattle.reach.specs.Marks.{ReachedPlaces};

    ghost Value = { ReachedPlaces };

    ghost view = { λ m. record { marks = m.marks.items; order = m.order.items } };
}

fn set_mark(marks: &mut Vec<bool>, place: usize)
    requires { place < length marks.old.items }
    ensures kept { (other : ℕ) → other ≢ place → has marks.new.items other
        ≡ has marks.old.items other }
    ensures marked { has marks.new.items place ≡ true }
    ensures long { length marks.new.items ≡ length marks.old.items }
{
    marks[place] = true;
}

// Puts the number of a place behind the others. It takes memory and fits 32 bits.
fn push_number(numbers: &mut Vec<u32>, place: usize) -> Result<(), AllocError>
    ensures { OnOk result (numbers.new.items ≡ numbers.old.items ++ (place + 1) ∷ []) }
{
    let Ok(before) = u32::try_from(place) else {
        return Err(AllocError);
    };
    let Some(number) = before.checked_add(1) else {
        return Err(AllocError);
    };
    numbers.push(number)?;
    Ok(())
}

impl Marks {
    /// No places, with marks for so many.
    pub(crate) fn of_none(alloc: Global, count: usize) -> Result<Marks, AllocError>
        ensures long { IfOk result (λ reached. length reached.marks ≡ count) }
        ensures ordered { IfOk result IsOrdered }
    {
        Ok(Marks {
            marks: vec![in alloc; false; count]?,
            order: Vec::new(alloc),
        })
    }

    // Whether a place is marked.
    fn has(&self, place: usize) -> bool
        ensures { result ≡ has self.now.marks place }
    {
        match self.marks.get(place) {
            Some(marked) => *marked,
            None => false,
        }
    }

    /// The place that was reached in this turn, counted from 0.
    pub(crate) fn at(&self, turn: usize) -> Option<usize>
        ensures value { result ≡ slice_get self.now.order turn }
        ensures few { IfSome result (λ place. turn < 2 ^ 63) }
    {
        self.order.get(turn).copied()
    }

    // Marks a place that isn't marked.
    fn push(&mut self, place: usize) -> Result<(), AllocError>
        requires { place < length self.old.marks }
        ensures extends { OnOk result (Extends self.old self.new) }
        ensures marked { OnOk result (has self.new.marks place ≡ true) }
    {
        self.order.push(place)?;
        set_mark(&mut self.marks, place);
        Ok(())
    }

    /// Marks a place, unless it is marked. Memory alone can fail.
    pub(crate) fn mark(&mut self, place: usize) -> Result<(), AllocError>
        requires { place < length self.old.marks }
        ensures extends { OnOk result (Extends self.old self.new) }
        ensures marked { OnOk result (has self.new.marks place ≡ true) }
    {
        if self.has(place) {
            return Ok(());
        }
        self.push(place)
    }

    /// Marks these places. Memory alone can fail.
    pub(crate) fn mark_all(&mut self, places: &[usize]) -> Result<(), AllocError>
        requires { All (λ place. place < length self.old.marks) places.now }
        ensures extends { OnOk result (Extends self.old self.new) }
        ensures marked { OnOk result (All (λ place. has self.new.marks place ≡ true) places.now) }
    {
        for place in places {
            self.mark(*place)?;
        }
        Ok(())
    }

    /// The numbers of the marked places, counted from 1, ascending. More than 4,294,967,295 places are answered as want of
    /// memory, which alone can fail. Linear in all places.
    pub(crate) fn numbers(&self, alloc: Global) -> Result<Vec<u32>, AllocError>
        ensures { IfOk result (λ numbers. numbers.items ≡ numbers_from 1 self.now.marks) }
    {
        let mut numbers = Vec::new(alloc);
        for (place, marked) in self.marks.iter().enumerate() {
            if *marked {
                push_number(&mut numbers, place)?;
            }
        }
        Ok(numbers)
    }
}
