// Clauses, and beside them what tells a search where to begin.

ghost use Rattle.std.specs.Prelude.{◌≡◌, ◌++◌, ◌∷◌, [], OnErr, OnOk, length, slice_index_or};

use crate::lists::Lists;
use crate::span::Span;
use std::alloc::{AllocError, Global};
use std::marker::Model;

/// Clauses over the numbers from 1 on, in order. The literal `n` says that the number n is selected, `-n` that it isn't;
/// a clause is true where one of its literals is, and its literals stand in the order in which they are preferred.
#[derive(Drop)]
pub struct Clauses {
    numbers: u32,
    clauses: Lists<i32>,
    unowned: usize,
    depends: Vec<Span>,
    wishes: Lists<u32>,
}

impl Model for Clauses {
    ghost use Rattle.clauses.specs.Clauses.{Clauses as ClausesValue};

    ghost Value = { ClausesValue };

    ghost view = { λ c. record { numbers = c.numbers; clauses = c.clauses.closed; open_clause = c.clauses.open_items } };
}

impl Clauses {
    /// No clauses over the numbers from 1 to this one.
    pub fn new(alloc: Global, numbers: u32) -> Self
        ensures numbers { result.numbers ≡ numbers }
        ensures clauses { result.clauses ≡ [] }
        ensures opened { result.open_clause ≡ [] }
    {
        Clauses {
            numbers,
            clauses: Lists::new(alloc),
            unowned: 0,
            depends: Vec::new(alloc),
            wishes: Lists::new(alloc),
        }
    }

    /// The greatest number.
    pub fn numbers(&self) -> u32
        ensures { result ≡ self.now.numbers }
    {
        self.numbers
    }

    /// How many clauses were ended.
    pub fn len(&self) -> usize
        ensures { result ≡ length self.now.clauses }
    {
        self.clauses.len()
    }

    /// Whether no clause was ended.
    pub fn is_empty(&self) -> bool {
        self.clauses.is_empty()
    }

    /// The literals of the clause at a place, counted from 0; none where there is no such clause.
    pub fn clause(&self, place: usize) -> &[i32]
        ensures { result.now ≡ slice_index_or self.now.clauses place [] }
    {
        self.clauses.at(place)
    }

    /// Puts a literal at the end of the clause that isn't ended. An error is want of memory, here and in all calls.
    pub fn push(&mut self, literal: i32) -> Result<(), AllocError>
        ensures numbers { self.new.numbers ≡ self.old.numbers }
        ensures clauses { self.new.clauses ≡ self.old.clauses }
        ensures pushed { OnOk result (self.new.open_clause ≡ self.old.open_clause ++ literal ∷ []) }
        ensures unchanged { OnErr result (self.new ≡ self.old) }
    {
        self.clauses.push(literal)
    }

    /// Ends the clause.
    pub fn end_clause(&mut self) -> Result<(), AllocError>
        ensures numbers { self.new.numbers ≡ self.old.numbers }
        ensures ended { OnOk result
            (self.new.clauses ≡ self.old.clauses ++ self.old.open_clause ∷ []) }
        ensures opened { OnOk result (self.new.open_clause ≡ []) }
        ensures unchanged { OnErr result (self.new ≡ self.old) }
    {
        self.clauses.end()
    }

    /// Says that the clauses so far have no owner, and that those which follow have one.
    pub fn end_unowned(&mut self)
        ensures { self.new ≡ self.old }
    {
        self.unowned = self.clauses.len();
    }

    /// How many clauses without an owner come first.
    pub fn unowned_count(&self) -> usize {
        self.unowned
    }

    /// Says that the clauses from a place on are those by which the next number depends on others. Numbers come
    /// ascending from 1.
    pub fn end_depends(&mut self, from: usize) -> Result<(), AllocError>
        ensures { self.new ≡ self.old }
    {
        let until = self.clauses.len();
        self.depends.push(Span { from, until })?;
        Ok(())
    }

    /// The clauses by which a number depends on others; none of a number of which it wasn't said.
    pub fn depends_of(&self, number: u32) -> Span {
        match number.checked_sub(1) {
            None => Span::EMPTY,
            Some(place) => self.depends_at(place as usize),
        }
    }

    fn depends_at(&self, place: usize) -> Span {
        match self.depends.get(place) {
            Some(span) => *span,
            None => Span::EMPTY,
        }
    }

    /// Puts a number at the end of the wish that isn't ended: one of these is wished to be selected, the first one best.
    pub fn push_wish(&mut self, number: u32) -> Result<(), AllocError>
        ensures { self.new ≡ self.old }
    {
        self.wishes.push(number)
    }

    /// Ends the wish.
    pub fn end_wish(&mut self) -> Result<(), AllocError>
        ensures { self.new ≡ self.old }
    {
        self.wishes.end()
    }

    /// How many wishes were ended.
    pub fn wishes(&self) -> usize {
        self.wishes.len()
    }

    /// The numbers of the wish at a place, counted from 0, best first; none where there is no such wish.
    pub fn wish(&self, place: usize) -> &[u32] {
        self.wishes.at(place)
    }
}
