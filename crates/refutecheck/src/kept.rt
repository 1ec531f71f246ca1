//! The clauses of the lines so far.

ghost use Rattle.std.specs.Prelude.{◌≡◌, ◌↔◌, ◌<◌, ◌++◌, ◌∷◌, [], IsTrue, OnOk, length, slice_get, slice_index_or};
ghost use Rattle.std.specs.Option.{option_copied};
ghost use Rattle.refutation.specs.Clause.{item_at};
ghost use Rattle.refutecheck.specs.Answer.{EndsWithNone};

use refutation::Literal;
use rules::Items;
use std::alloc::{AllocError, Global};
use std::marker::Model;

/// The clause of each line so far. Lines that have one clause share its list: `places` says for each line where it stands.
#[derive(Drop)]
pub struct Kept {
    lists: Vec<Items<Literal>>,
    places: Vec<usize>,
}

impl Model for Kept {
    ghost use Rattle.std.specs.Prelude.{◌<◌, [], List, length, map, slice_index_or};
    ghost use Rattle.std.specs.List.{All};
    ghost use Rattle.refutation.specs.declared.literal.Literal.{Literal as LiteralValue};

    ghost Value = { List (List LiteralValue) };

    ghost view = { λ k. map (λ place. slice_index_or k.lists.items place []) k.places.items };

    ghost invariant = { λ k. All (λ place. place < length k.lists.items) k.places.items };
}

impl Kept {
    /// None.
    pub fn new(alloc: Global) -> Kept
        ensures { result ≡ [] }
    {
        Kept {
            lists: Vec::new(alloc),
            places: Vec::new(alloc),
        }
    }

    /// Keeps the clause of the next line. Memory alone can fail.
    pub fn push(&mut self, clause: Items<Literal>) -> Result<(), AllocError>
        ensures { OnOk result (self.new ≡ self.old ++ clause ∷ []) }
    {
        let place = self.lists.len();
        self.lists.push(clause)?;
        self.places.push(place)?;
        Ok(())
    }

    /// The next line has the clause of the line at this place, counted from 0. Takes no memory for its literals.
    pub fn push_again(&mut self, line: usize) -> Result<(), AllocError>
        requires { line < length self.old }
        ensures { OnOk result (self.new ≡ self.old ++ slice_index_or self.old line [] ∷ []) }
    {
        let place = self.places[line];
        self.places.push(place)?;
        Ok(())
    }

    // The clause of the line at this place, counted from 0.
    fn of_line(&self, line: usize) -> Option<&Items<Literal>>
        ensures { option_copied result ≡ slice_get self.now line }
    {
        match self.places.get(line).copied() {
            Some(place) => Some(&self.lists[place]),
            None => None,
        }
    }

    /// The clause of the line of this number, counted from 1.
    pub fn at(&self, number: u32) -> Option<&Items<Literal>>
        ensures { option_copied result ≡ item_at self.now number }
    {
        let line = number.checked_sub(1)?;
        self.of_line(line as usize)
    }

    /// Whether there is a last clause, and it is empty.
    pub fn ends_with_none(&self) -> bool
        ensures { IsTrue result ↔ EndsWithNone self.now }
    {
        match self.places.as_slice().split_last() {
            Some((last, _)) => self.lists[*last].as_slice().is_empty(),
            None => false,
        }
    }
}
