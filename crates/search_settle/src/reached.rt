// Which members are reached: the wanted ones, and with a member those that it needs.

ghost use Rattle.std.specs.Prelude.{◌≡◌, ◌≤◌, ◌<◌, ◌+◌, ◌*◌, ◌^◌, ℕ, Bool, [], pos, true, false, IfOk, IfSome, OnOk, length};
ghost use Rattle.std.specs.List.{Contains, slice_get};
ghost use Rattle.search_settle.specs.Given.{clause_at, is_need_at, places_without};
ghost use Rattle.search_settle.specs.Reach.{Extends, HasNeeds, IsClosedIn, IsFound};
ghost use Rattle.search_settle.specs.Truth.{holds};

use crate::given::Given;
use crate::known::Known;
use crate::set::{has, put};
use std::alloc::{AllocError, Global};
use std::marker::Model;

/// The numbers that were reached, in the order in which they were.
#[derive(Drop)]
pub(crate) struct Reached {
    marks: Vec<bool>,
    order: Vec<u32>,
}

impl Model for Reached {
    ghost use Rattle.search_settle.specs.Reach.{Found};

    ghost Value = { Found };

    ghost view = { λ r. record { marks = r.marks.items; order = r.order.items } };
}

impl Reached {
    // Whether a number was reached.
    pub(crate) fn has(&self, number: usize) -> bool
        ensures { result ≡ holds self.now.marks number }
    {
        has(&self.marks, number)
    }

    // Reaches a number that wasn't reached, and for which there is a place.
    fn push(
        &mut self,
        given: &Given<'_>,
        known: &Known,
        set: &Vec<bool>,
        number: u32,
    ) -> Result<(), AllocError>
        requires members { IsFound given.now known.now (holds set.now.items) self.old }
        requires place { number < length self.old.marks }
        requires selected { holds set.now.items number ≡ true }
        requires sound { (other : ℕ → Bool)
            → IsClosedIn given.now known.now (holds set.now.items) other → other number ≡ true }
        ensures members { OnOk result (IsFound given.now known.now (holds set.now.items) self.new) }
        ensures extends { OnOk result (Extends self.old self.new) }
        ensures reached { OnOk result (holds self.new.marks number ≡ true) }
    {
        put(&mut self.marks, number as usize, true);
        self.order.push(number)?;
        Ok(())
    }
}

impl Reached {
    // Reaches the number of a literal, if it is a selected one that wasn't reached.
    fn reach(
        &mut self,
        given: &Given<'_>,
        known: &Known,
        set: &Vec<bool>,
        number: u32,
    ) -> Result<(), AllocError>
        requires members { IsFound given.now known.now (holds set.now.items) self.old }
        requires long { length self.old.marks ≡ length set.now.items }
        requires sound { holds set.now.items number ≡ true
            → (other : ℕ → Bool) → IsClosedIn given.now known.now (holds set.now.items) other
            → other number ≡ true }
        ensures members { OnOk result (IsFound given.now known.now (holds set.now.items) self.new) }
        ensures extends { OnOk result (Extends self.old self.new) }
        ensures reached { OnOk result
            (holds set.now.items number ≡ true → holds self.new.marks number ≡ true) }
    {
        if has(set, number as usize) && !self.has(number as usize) {
            self.push(given, known, set, number)?;
        }
        Ok(())
    }

    // Reaches the number that a literal says is selected, if it is.
    fn reach_literal(
        &mut self,
        given: &Given<'_>,
        known: &Known,
        set: &Vec<bool>,
        literal: &i32,
    ) -> Result<(), AllocError>
        requires members { IsFound given.now known.now (holds set.now.items) self.old }
        requires long { length self.old.marks ≡ length set.now.items }
        requires sound { (number : ℕ) → literal.now ≡ pos number → holds set.now.items number ≡ true
            → (other : ℕ → Bool) → IsClosedIn given.now known.now (holds set.now.items) other
            → other number ≡ true }
        ensures members { OnOk result (IsFound given.now known.now (holds set.now.items) self.new) }
        ensures extends { OnOk result (Extends self.old self.new) }
        ensures reached { OnOk result
            ((number : ℕ) → literal.now ≡ pos number → holds set.now.items number ≡ true
            → holds self.new.marks number ≡ true) }
    {
        let literal = *literal;
        if literal < 0 {
            return Ok(());
        }
        self.reach(given, known, set, literal.unsigned_abs())
    }

    // Reaches what a clause says that a number needs which was reached.
    fn reach_clause(
        &mut self,
        given: &Given<'_>,
        known: &Known,
        set: &Vec<bool>,
        number: u32,
        place: usize,
    ) -> Result<(), AllocError>
        requires members { IsFound given.now known.now (holds set.now.items) self.old }
        requires long { length self.old.marks ≡ length set.now.items }
        requires marked { holds self.old.marks number ≡ true }
        requires listed { Contains (places_without given.now number) place }
        requires need { is_need_at given.now number place ≡ true }
        ensures members { OnOk result (IsFound given.now known.now (holds set.now.items) self.new) }
        ensures extends { OnOk result (Extends self.old self.new) }
        ensures reached { OnOk result
            ((other : ℕ) → Contains (clause_at given.now place) (pos other)
            → holds set.now.items other ≡ true
            → holds self.new.marks other ≡ true) }
    {
        for literal in given.clause(place) {
            self.reach_literal(given, known, set, literal)?;
        }
        Ok(())
    }

    // Reaches all that a number needs which was reached.
    fn expand(
        &mut self,
        given: &Given<'_>,
        known: &Known,
        set: &Vec<bool>,
        number: u32,
    ) -> Result<(), AllocError>
        requires members { IsFound given.now known.now (holds set.now.items) self.old }
        requires long { length self.old.marks ≡ length set.now.items }
        requires marked { holds self.old.marks number ≡ true }
        ensures members { OnOk result (IsFound given.now known.now (holds set.now.items) self.new) }
        ensures extends { OnOk result (Extends self.old self.new) }
        ensures has { OnOk result
            (HasNeeds given.now (holds set.now.items) (holds self.new.marks) number) }
    {
        for place in given.places_without(number) {
            let place = *place;
            if given.is_need_at(number, place) {
                self.reach_clause(given, known, set, number, place)?;
            }
        }
        Ok(())
    }

    // The number that was reached at a place of the order.
    fn number_at(&self, place: usize) -> Option<u32>
        ensures value { result ≡ slice_get self.now.order place }
        ensures few { IfSome result (λ number. place < 2 ^ 63) }
    {
        self.order.get(place).copied()
    }

    // Reaches all that is needed by what was reached, in turn.
    fn close(&mut self, given: &Given<'_>, known: &Known, set: &Vec<bool>) -> Result<(), AllocError>
        requires members { IsFound given.now known.now (holds set.now.items) self.old }
        requires long { length self.old.marks ≡ length set.now.items }
        ensures members { OnOk result (IsFound given.now known.now (holds set.now.items) self.new) }
        ensures extends { OnOk result (Extends self.old self.new) }
        ensures has { OnOk result ((number : ℕ) → holds self.new.marks number ≡ true
            → HasNeeds given.now (holds set.now.items) (holds self.new.marks) number) }
    {
        for place in 0..usize::MAX {
            let Some(number) = self.number_at(place) else {
                return Ok(());
            };
            self.expand(given, known, set, number)?;
        }
        Ok(())
    }

    // No numbers, with places for those of a set.
    fn none(alloc: Global, set: &Vec<bool>) -> Result<Reached, AllocError>
        ensures long { IfOk result (λ reached. length reached.marks ≡ length set.now.items) }
        ensures empty { IfOk result (λ reached. (number : ℕ) → holds reached.marks number ≡ false) }
        ensures unordered { IfOk result (λ reached. reached.order ≡ []) }
    {
        Ok(Reached {
            marks: vec![in alloc; false; set.as_slice().len()]?,
            order: Vec::new(alloc),
        })
    }

    // Reaches the wanted members.
    fn seed(&mut self, given: &Given<'_>, known: &Known, set: &Vec<bool>) -> Result<(), AllocError>
        requires members { IsFound given.now known.now (holds set.now.items) self.old }
        requires long { length self.old.marks ≡ length set.now.items }
        ensures members { OnOk result (IsFound given.now known.now (holds set.now.items) self.new) }
        ensures extends { OnOk result (Extends self.old self.new) }
        ensures wanted { OnOk result
            ((number : ℕ) → number ≤ given.now.numbers → holds set.now.items number ≡ true
            → holds known.now.wanted number ≡ true → holds self.new.marks number ≡ true) }
    {
        for number in 0..=given.numbers() {
            if has(&known.wanted, number as usize) {
                self.reach(given, known, set, number)?;
            }
        }
        Ok(())
    }
}

/// The members that are reached. Memory alone can fail. Linear in the literals of the clauses in which members occur.
pub(crate) fn reached_in(
    alloc: Global,
    given: &Given<'_>,
    known: &Known,
    set: &Vec<bool>,
) -> Result<Reached, AllocError>
    ensures members { IfOk result (IsFound given.now known.now (holds set.now.items)) }
    ensures closed { IfOk result
        (λ reached. IsClosedIn given.now known.now (holds set.now.items) (holds reached.marks)) }
{
    let mut reached = Reached::none(alloc, set)?;
    reached.seed(given, known, set)?;
    reached.close(given, known, set)?;
    Ok(reached)
}
