// A rank for each of some names: a number by which it is told which names come before others.

ghost use Rattle.std.specs.Prelude.{◌≡◌, ◌↔◌, IsTrue};
ghost use Rattle.fixed_order.specs.Turn.{ComesBefore, IsBelow, is_ring, is_ringed, rank_in};

use indexmap::IndexMap;
use plancheck_state::is_same;
use std::alloc::{AllocError, Global};
use std::marker::Model;

/// A table of names with their ranks.
#[derive(Drop)]
pub(crate) struct Ranks<'n> {
    table: IndexMap<&'n [u8], usize>,
    most: usize,
}

impl<'n> Model for Ranks<'n> {
    ghost use Rattle.std.specs.Prelude.{List, ℕ};
    ghost use Rattle.std.specs.Borrow.{Bor};

    ghost Value = { List (Bor (List ℕ) × ℕ) };

    ghost view = { λ ranks. ranks.table.entries };
}

// Whether names of a ring have the rank: it is odd.
fn is_ring(rank: usize) -> bool
    ensures { result ≡ is_ring rank }
{
    rank % 2 == 1
}

// Whether the one rank is below the other, or they are one, which names of a ring have.
fn is_below(rank: usize, other: usize) -> bool
    ensures { IsTrue result ↔ IsBelow rank other }
{
    rank < other || (rank == other && is_ring(rank))
}

impl<'n> Ranks<'n> {
    /// No ranks.
    pub(crate) fn new(alloc: Global) -> Ranks<'n> {
        Ranks {
            table: IndexMap::new(alloc),
            most: 1,
        }
    }

    /// Sets the rank of the name.
    pub(crate) fn insert(&mut self, name: &'n [u8], rank: usize) -> Result<(), AllocError> {
        self.table.insert(name, rank)?;
        Ok(())
    }

    /// Says that a ring has so many names.
    pub(crate) fn widen(&mut self, members: usize) {
        self.most = self.most.max(members);
    }

    /// How many names the largest of the rings has, or one.
    pub(crate) fn most(&self) -> usize {
        self.most
    }

    /// The rank of the name, and 0 where it has none.
    pub(crate) fn of(&self, name: &[u8]) -> usize
        ensures { result ≡ rank_in self.now name.now }
    {
        match self.table.get(name).copied() {
            Some(rank) => rank,
            None => 0,
        }
    }

    /// Whether the name is in a ring.
    pub(crate) fn is_ringed(&self, name: &[u8]) -> bool
        ensures { result ≡ is_ringed self.now name.now }
    {
        is_ring(self.of(name))
    }

    /// Whether the one name is the other or comes before it.
    #[tactic(auto, unfolding(crate::specs::Turn::ComesBefore))]
    pub(crate) fn comes_before(&self, name: &[u8], other: &[u8]) -> bool
        ensures { IsTrue result ↔ ComesBefore (rank_in self.now) name.now other.now }
    {
        is_same(name, other) || is_below(self.of(name), self.of(other))
    }
}
