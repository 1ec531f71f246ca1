// Who needs whom in a group (Policy 7.2). It says at which name to look next; what is found never hangs on it, so nothing is
// proved of it.

use crate::part::NameSet;
use indexmap::IndexSet;
use plancheck_state::{Records, is_met, is_same};
use relation::{Atom, Clause};
use rules::Name;
use std::alloc::{AllocError, Global};

/// For each name of a group the others that ask for it, and those that it asks for, in Depends that no installed package meets.
#[derive(Drop)]
pub struct Needs<'n> {
    names: IndexSet<&'n [u8]>,
    asking: Vec<Vec<&'n [u8]>>,
    asked: Vec<Vec<&'n [u8]>>,
}

// Whether the name is the last of these.
fn is_last(names: &[&[u8]], name: &[u8]) -> bool {
    match names.last() {
        Some(last) => is_same(last, name),
        None => false,
    }
}

// Adds the name to the list at this place.
fn push_at<'n>(
    lists: &mut Vec<Vec<&'n [u8]>>,
    place: usize,
    name: &'n [u8],
) -> Result<(), AllocError> {
    if let Some(list) = lists.get_mut(place) {
        list.push(name)?;
    }
    Ok(())
}

impl<'n> Needs<'n> {
    // The names, of which nothing is known yet.
    fn bare(alloc: Global, names: &'n [Name]) -> Result<Needs<'n>, AllocError> {
        let mut needs = Needs {
            names: IndexSet::new(alloc),
            asking: Vec::new(alloc),
            asked: Vec::new(alloc),
        };
        for name in names {
            needs.names.insert(name.as_bytes())?;
            needs.asking.push(Vec::new(alloc))?;
            needs.asked.push(Vec::new(alloc))?;
        }
        Ok(needs)
    }

    // Notes that the name at the one place asks for the one at the other, unless that was the last that was noted.
    fn note(&mut self, asking: usize, asked: usize) -> Result<(), AllocError> {
        let Some(from) = self.names.get_index(asking).copied() else {
            return Ok(());
        };
        let Some(to) = self.names.get_index(asked).copied() else {
            return Ok(());
        };
        let is_noted = match self.asking.get(asked) {
            Some(list) => is_last(list.as_slice(), from),
            None => true,
        };
        if !is_noted {
            push_at(&mut self.asking, asked, from)?;
            push_at(&mut self.asked, asking, to)?;
        }
        Ok(())
    }

    // Notes for whom the name at the place asks in these atoms.
    fn read_atoms(
        &mut self,
        db: &Records<'_, '_>,
        asking: usize,
        atoms: &[Atom<'_>],
    ) -> Result<(), AllocError> {
        for atom in atoms {
            for entry in db.holders(atom.name()) {
                if entry
                    .present_pkg()
                    .is_some_and(|there| atom.matched_by(there))
                {
                    if let Some(asked) = self.names.get_index_of(entry.name()) {
                        self.note(asking, asked)?;
                    }
                }
            }
        }
        Ok(())
    }

    // The same in the clauses that no installed package meets.
    fn read_clauses(
        &mut self,
        db: &Records<'_, '_>,
        asking: usize,
        clauses: &[Clause<'_>],
    ) -> Result<(), AllocError> {
        for clause in clauses {
            if !is_met(db, clause) {
                self.read_atoms(db, asking, clause.as_slice())?;
            }
        }
        Ok(())
    }

    // The same in the Depends of the package of the name.
    fn read_of(
        &mut self,
        db: &Records<'_, '_>,
        asking: usize,
        name: &[u8],
    ) -> Result<(), AllocError> {
        for entry in db.holders(name) {
            if is_same(entry.name(), name) {
                self.read_clauses(db, asking, entry.depends())?;
            }
        }
        Ok(())
    }

    /// What these names need of each other. For each atom of their Depends linear in the records that have or provide its name.
    /// Memory alone can fail.
    pub fn read(
        alloc: Global,
        db: &Records<'_, '_>,
        names: &'n [Name],
    ) -> Result<Needs<'n>, AllocError> {
        let mut needs = Needs::bare(alloc, names)?;
        for name in names {
            if let Some(asking) = needs.names.get_index_of(name.as_bytes()) {
                needs.read_of(db, asking, name.as_bytes())?;
            }
        }
        Ok(needs)
    }

    // Those for which the name asks.
    fn asked_by(&self, name: &[u8]) -> Option<&Vec<&'n [u8]>> {
        let place = self.names.get_index_of(name)?;
        self.asked.get(place)
    }

    /// Those that ask for the name.
    pub fn asking_for(&self, name: &[u8]) -> Option<&Vec<&'n [u8]>> {
        let place = self.names.get_index_of(name)?;
        self.asking.get(place)
    }

    /// The names that the first asks for in turn, itself first: each stands behind one that asks for it. Linear in what they ask
    /// for. Memory alone can fail.
    pub fn in_turn(&self, alloc: Global) -> Result<Vec<&'n [u8]>, AllocError> {
        let mut turn = NameSet::new(alloc);
        let mut order = Vec::new(alloc);
        if let Some(first) = self.names.first().copied() {
            turn.insert(first)?;
            order.push(first)?;
        }
        for place in 0..self.names.len() {
            let Some(next) = order.get(place).copied() else {
                return Ok(order);
            };
            if let Some(asked) = self.asked_by(next) {
                for name in asked.as_slice() {
                    if !turn.has(name) {
                        turn.insert(*name)?;
                        order.push(*name)?;
                    }
                }
            }
        }
        Ok(order)
    }
}
