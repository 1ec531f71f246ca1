// The clauses that are settled by, and what of them bears on a change.

ghost use Rattle.std.specs.Prelude.{◌≡◌, ℕ, ◌+◌, ◌*◌, [], IfOk, slice_index_or};
ghost use Rattle.std.specs.List.{list_all};
ghost use Rattle.std.specs.Option.{option_copied};
ghost use Rattle.search_settle.specs.Change.{after};
ghost use Rattle.search_settle.specs.Given.{Given, IsIndexed, clause_at, is_need_at, is_need_of, places_without, sibling_at, sibling_of};
ghost use Rattle.search_settle.specs.Truth.{holds, is_clause_true};

use crate::change::Change;
use crate::occurrences::{Occurrences, occurrences_of};
use crate::place::{selected_place, unselected_place};
use crate::role::Role;
use crate::set::is_clause_true_after;
use crate::wishes::Wishes;
use clauses::Clauses;
use std::alloc::{AllocError, Global};
use std::marker::Model;

/// Clauses with their roles, and where each literal occurs.
#[derive(Drop)]
pub(crate) struct Given<'e> {
    roles: Vec<Role>,
    clauses: &'e Clauses,
    occurrences: Occurrences,
    // Advice alone, which the model doesn't show.
    wishes: Wishes,
}

impl<'e> Model for Given<'e> {
    ghost use Rattle.search_settle.specs.Given.{Given as GivenValue};

    ghost Value = { GivenValue };

    ghost view = { λ g. record {
      roles = g.roles.items;
      clauses = g.clauses.now.clauses;
      numbers = g.clauses.now.numbers;
      lists = g.occurrences;
    } };
}

// The other of two pairs of one name, if the clause is of such two and the number is one of them.
fn sibling_of(number: u32, role: Role) -> Option<u32>
    ensures { result ≡ sibling_of number role }
{
    match role {
        Role::Same(pair, other) => {
            if pair == number {
                Some(other)
            } else if other == number {
                Some(pair)
            } else {
                None
            }
        }
        Role::Need(_) => None,
        Role::Other => None,
    }
}

// Whether the clause says what the pair of this number needs.
fn is_need_of(number: u32, role: Role) -> bool
    ensures { result ≡ is_need_of number role }
{
    match role {
        Role::Same(_, _) => false,
        Role::Need(pair) => pair == number,
        Role::Other => false,
    }
}

impl<'e> Given<'e> {
    /// Clauses with these roles. Memory alone can fail. Linear in the literals.
    pub(crate) fn new(
        alloc: Global,
        roles: Vec<Role>,
        clauses: &'e Clauses,
    ) -> Result<Given<'e>, AllocError>
        ensures roles { IfOk result (λ given. given.roles ≡ roles.items) }
        ensures clauses { IfOk result (λ given. given.clauses ≡ clauses.now.clauses) }
        ensures numbers { IfOk result (λ given. given.numbers ≡ clauses.now.numbers) }
        ensures indexed { IfOk result IsIndexed }
    {
        let occurrences = occurrences_of(alloc, clauses)?;
        let wishes = Wishes::of(alloc, clauses)?;
        Ok(Given {
            roles,
            clauses,
            occurrences,
            wishes,
        })
    }

    /// The greatest number.
    pub(crate) fn numbers(&self) -> u32
        ensures { result ≡ self.now.numbers }
    {
        self.clauses.numbers()
    }

    /// The literals of the clause at a place.
    pub(crate) fn clause(&self, place: usize) -> &[i32]
        ensures { result.now ≡ clause_at self.now place }
    {
        self.clauses.clause(place)
    }

    /// The places of the clauses with the literal that the number isn't selected.
    pub(crate) fn places_without(&self, number: u32) -> &[usize]
        ensures { result.now ≡ places_without self.now number }
    {
        self.occurrences.at(unselected_place(number))
    }

    /// The places of the clauses with the literal that the number is selected.
    pub(crate) fn places_with(&self, number: u32) -> &[usize] {
        self.occurrences.at(selected_place(number))
    }

    /// The numbers of the wish for the number, the best first; none where there is no wish for it.
    pub(crate) fn wish_for(&self, number: u32) -> &[u32] {
        self.clauses.wish(self.wishes.place_of(number))
    }

    /// The sibling of the number by the clause at a place.
    pub(crate) fn sibling_at(&self, number: u32, place: usize) -> Option<u32>
        ensures { result ≡ sibling_at self.now number place }
    {
        match self.roles.get(place) {
            None => None,
            Some(role) => sibling_of(number, *role),
        }
    }

    /// Whether the clause at a place says what the number needs.
    pub(crate) fn is_need_at(&self, number: u32, place: usize) -> bool
        ensures { result ≡ is_need_at self.now number place }
    {
        match self.roles.get(place) {
            None => false,
            Some(role) => is_need_of(number, *role),
        }
    }

    /// Whether the clauses in the list at a place are all true after the change.
    pub(crate) fn are_true_after(&self, set: &Vec<bool>, change: Change, list: usize) -> bool
        ensures { result
            ≡ list_all (λ place.
            is_clause_true (after change (holds set.now.items)) (clause_at self.now place))
            (slice_index_or self.now.lists list []) }
    {
        self.occurrences.at(list).iter().all(|place| is_clause_true_after(
            set,
            change,
            self.clause(*place),
        ))
    }
}
