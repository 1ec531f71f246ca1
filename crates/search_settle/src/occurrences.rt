// The clauses in which each literal occurs.

ghost use Rattle.std.specs.Prelude.{◌≡◌, ◌≢◌, ℕ, ◌<◌, ◌+◌, ◌*◌, ◌++◌, ◌∷◌, [], OnOk, IfOk, length, slice_index_or};
ghost use Rattle.std.specs.List.{Contains};
ghost use Rattle.search_settle.specs.Occurrences.{Gains, ListsFirst, place_of};

use crate::place::place_of;
use clauses::Clauses;
use std::alloc::{AllocError, Global};
use std::marker::Model;

/// For each literal the places of the clauses in which it occurs, ascending.
#[derive(Drop)]
pub(crate) struct Occurrences {
    lists: Vec<Vec<usize>>,
}

impl Model for Occurrences {
    ghost use Rattle.std.specs.Prelude.{List, map, ℕ};

    ghost Value = { List (List ℕ) };

    ghost view = { λ o. map (λ list. list.items) o.lists.items };
}

impl Occurrences {
    // Empty lists, so many.
    fn new(alloc: Global, count: usize) -> Result<Self, AllocError>
        ensures long { IfOk result (λ lists. length lists ≡ count) }
        ensures none { IfOk result (λ lists. (at : ℕ) → slice_index_or lists at [] ≡ []) }
    {
        let mut lists = Vec::new(alloc);
        for _ in 0..count {
            lists.push(Vec::new(alloc))?;
        }
        Ok(Occurrences { lists })
    }

    // The list at a place; an empty one where there is none.
    pub(crate) fn at(&self, place: usize) -> &[usize]
        ensures { result.now ≡ slice_index_or self.now place [] }
    {
        match self.lists.get(place) {
            Some(list) => list.as_slice(),
            None => &[],
        }
    }

    // Puts a clause at the end of a list.
    fn push(&mut self, place: usize, clause: usize) -> Result<(), AllocError>
        ensures long { length self.new ≡ length self.old }
        ensures others { OnOk result
            ((at : ℕ) → at ≢ place → slice_index_or self.new at []
            ≡ slice_index_or self.old at []) }
        ensures pushed { OnOk result
            (place < length self.old → slice_index_or self.new place []
            ≡ slice_index_or self.old place [] ++ clause ∷ []) }
    {
        if place >= self.lists.len() {
            return Ok(());
        }
        self.lists[place].push(clause)?;
        Ok(())
    }

    // Puts a clause under a literal.
    fn push_under(&mut self, literal: &i32, clause: usize) -> Result<(), AllocError>
        ensures long { length self.new ≡ length self.old }
        ensures others { OnOk result
            ((at : ℕ) → at ≢ place_of literal.now → slice_index_or self.new at []
            ≡ slice_index_or self.old at []) }
        ensures pushed { OnOk result (place_of literal.now < length self.old
            → slice_index_or self.new (place_of literal.now) []
            ≡ slice_index_or self.old (place_of literal.now) [] ++ clause ∷ []) }
    {
        let literal = *literal;
        self.push(place_of(literal), clause)
    }

    // Puts a clause under each of its literals.
    fn push_clause(&mut self, clause: &[i32], place: usize) -> Result<(), AllocError>
        ensures { OnOk result (Gains self.old self.new clause.now place) }
    {
        for literal in clause {
            self.push_under(literal, place)?;
        }
        Ok(())
    }
}

/// Where each literal of the numbers up to the greatest occurs. Memory alone can fail. Linear in the literals.
pub(crate) fn occurrences_of(alloc: Global, clauses: &Clauses) -> Result<Occurrences, AllocError>
    ensures each { IfOk result
        (λ lists. ListsFirst lists clauses.now.clauses (length clauses.now.clauses)) }
    ensures long { IfOk result (λ lists. length lists ≡ 2 * clauses.now.numbers + 2) }
{
    let mut lists = Occurrences::new(alloc, 2 * (clauses.numbers() as usize) + 2)?;
    for place in 0..clauses.len() {
        lists.push_clause(clauses.clause(place), place)?;
    }
    Ok(lists)
}
