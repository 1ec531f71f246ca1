// Who asks for whom of the names that wait to be configured, so that behind a configure those alone are tested again that ask for
// one of its names (Policy 7.2). Whether the table has all that ask is asked once of every name, so nothing is proved of how it is
// made.

ghost use Rattle.std.specs.Prelude.{◌≡◌, ◌↔◌, true, IfOk, IsTrue};
ghost use Rattle.std.specs.List.{All, Contains};
ghost use Rattle.rules.specs.Database.{IsPresent, pkg_of};
ghost use Rattle.rules.specs.Package.{Matches};
ghost use Rattle.fixed_order.specs.Askers.{AreAskers, IsAsking, asking_in};
ghost use Rattle.fixed_order.specs.Turn.{AsksOnly, AsksOnlyBy, IsOneBy};

use indexmap::IndexMap;
use plancheck_state::{Holders, Records, StateRecord, is_met, is_same};
use relation::{Atom, Clause};
use rules::Name;
use std::alloc::{AllocError, Global};

/// For each name the places of the names that ask for it in Depends which no installed package met, and its own, if it waits.
#[derive(Drop)]
pub(crate) struct Askers<'a> {
    alloc: Global,
    lists: IndexMap<&'a [u8], Vec<usize>>,
}

// Whether the place is one of these.
fn has(places: &[usize], place: usize) -> bool
    ensures { IsTrue result ↔ Contains places.now place }
{
    places.iter().any(|other| *other == place)
}

impl<'a> Askers<'a> {
    // Notes that the name at the place asks for this one.
    fn note(&mut self, asked: &'a [u8], place: usize) -> Result<(), AllocError> {
        if let Some(list) = self.lists.get_mut(asked) {
            // The places come in their order: one that was noted for the name is the last. A name may ask in many atoms.
            if list.last() != Some(&place) {
                list.push(place)?;
            }
            return Ok(());
        }
        let mut list = Vec::new(self.alloc);
        list.push(place)?;
        self.lists.insert(asked, list)?;
        Ok(())
    }

    // Notes for whom the name at the place asks in these atoms.
    fn read_atoms(
        &mut self,
        db: &Records<'_, 'a>,
        place: usize,
        atoms: &[Atom<'_>],
    ) -> Result<(), AllocError> {
        for atom in atoms {
            for entry in db.holders(atom.name()) {
                if entry
                    .present_pkg()
                    .is_some_and(|there| atom.matched_by(there))
                {
                    self.note(entry.name(), place)?;
                }
            }
        }
        Ok(())
    }

    // The same in the clauses that no installed package meets.
    fn read_clauses(
        &mut self,
        db: &Records<'_, 'a>,
        place: usize,
        clauses: &[Clause<'_>],
    ) -> Result<(), AllocError> {
        for clause in clauses {
            if !is_met(db, clause) {
                self.read_atoms(db, place, clause.as_slice())?;
            }
        }
        Ok(())
    }

    // The same in the Depends of the package of the name, which stands at the place.
    fn read_of(
        &mut self,
        db: &Records<'_, 'a>,
        place: usize,
        name: &[u8],
    ) -> Result<(), AllocError> {
        for entry in db.holders(name) {
            if is_same(entry.name(), name) {
                self.note(entry.name(), place)?;
                self.read_clauses(db, place, entry.depends())?;
            }
        }
        Ok(())
    }

    /// Who asks for whom of these names. For each atom of their Depends linear in the records that have or provide its name.
    /// Memory alone can fail.
    pub(crate) fn read(
        alloc: Global,
        db: &Records<'_, 'a>,
        names: &[Name],
    ) -> Result<Askers<'a>, AllocError> {
        let mut askers = Askers {
            alloc,
            lists: IndexMap::new(alloc),
        };
        for (place, name) in names.iter().enumerate() {
            askers.read_of(db, place, name.as_bytes())?;
        }
        Ok(askers)
    }

    /// The places of those that ask for the name.
    pub(crate) fn of(&self, name: &[u8]) -> &[usize]
        ensures { result.now ≡ asking_in self.now name.now }
    {
        match self.lists.get(name) {
            Some(list) => list.as_slice(),
            None => &[],
        }
    }

    /// The places of all that ask for a name of the group. Memory alone can fail.
    pub(crate) fn of_group(&self, group: &[Name]) -> Result<Vec<usize>, AllocError>
        ensures { IfOk result
            (λ places. All
            (λ name. All (Contains places.items) (asking_in self.now name)) group.now) }
    {
        let mut places = Vec::new(self.alloc);
        for name in group {
            places.extend_from_slice(self.of(name.as_bytes()))?;
        }
        Ok(places)
    }

    // Whether the name at the place is one of those that ask for this one.
    #[tactic(auto, unfolding(crate::specs::Askers::IsAsking))]
    fn has(&self, asked: &[u8], place: usize) -> bool
        ensures { IsTrue result ↔ IsAsking self.now place asked.now }
    {
        has(self.of(asked), place)
    }
}

// Whether the record isn't present, doesn't match the atom, or the name at the place is one of those that ask for it.
fn is_noted(askers: &Askers<'_>, place: usize, atom: &Atom<'_>, entry: &StateRecord<'_, '_>) -> bool
    ensures { IsTrue result ↔ (IsPresent entry.now → Matches (pkg_of entry.now) atom.now
        → IsAsking askers.now place entry.now.name) }
{
    match entry.present_pkg() {
        None => true,
        Some(there) => !atom.matched_by(there) || askers.has(entry.name(), place),
    }
}

fn all_are_noted(
    askers: &Askers<'_>,
    place: usize,
    atom: &Atom<'_>,
    mut holders: Holders<'_, '_, '_>,
) -> bool
    ensures { IsTrue result ↔ All (λ entry. IsPresent entry → Matches (pkg_of entry) atom.now
        → IsAsking askers.now place entry.name) holders.entry }
{
    holders.all(|entry| is_noted(askers, place, atom, entry))
}

// Whether of all that matches the atom it is noted that the name at the place asks for it.
fn is_atom_noted(db: &Records<'_, '_>, askers: &Askers<'_>, place: usize, atom: &Atom<'_>) -> bool
    ensures { IsTrue result ↔ All (IsOneBy (IsAsking askers.now place) atom.now) db.now }
{
    all_are_noted(askers, place, atom, db.holders(atom.name()))
}

fn are_atoms_noted(
    db: &Records<'_, '_>,
    askers: &Askers<'_>,
    place: usize,
    atoms: &[Atom<'_>],
) -> bool
    ensures { IsTrue result
        ↔ All (λ atom. All (IsOneBy (IsAsking askers.now place) atom) db.now) atoms.now }
{
    atoms
        .iter()
        .all(|atom| is_atom_noted(db, askers, place, atom))
}

// Whether an installed package meets the clause, or of all that matches it that is noted.
#[tactic(auto, unfolding(crate::specs::Turn::AsksOnlyBy))]
fn is_clause_noted(
    db: &Records<'_, '_>,
    askers: &Askers<'_>,
    place: usize,
    clause: &Clause<'_>,
) -> bool
    ensures { IsTrue result ↔ AsksOnlyBy (IsAsking askers.now place) db.now clause.now }
{
    is_met(db, clause) || are_atoms_noted(db, askers, place, clause.as_slice())
}

fn are_clauses_noted(
    db: &Records<'_, '_>,
    askers: &Askers<'_>,
    place: usize,
    clauses: &[Clause<'_>],
) -> bool
    ensures { IsTrue result ↔ All (AsksOnlyBy (IsAsking askers.now place) db.now) clauses.now }
{
    clauses
        .iter()
        .all(|clause| is_clause_noted(db, askers, place, clause))
}

// Whether the record is of another name, or it is noted for whom it asks.
fn is_other_or_noted(
    db: &Records<'_, '_>,
    askers: &Askers<'_>,
    place: usize,
    name: &[u8],
    member: &StateRecord<'_, '_>,
) -> bool
    ensures { IsTrue result ↔ (member.now.name ≡ name.now
        → All (AsksOnlyBy (IsAsking askers.now place) db.now) member.now.relations.depends) }
{
    !is_same(member.name(), name) || are_clauses_noted(db, askers, place, member.depends())
}

fn are_others_or_noted(
    db: &Records<'_, '_>,
    askers: &Askers<'_>,
    place: usize,
    mut members: Holders<'_, '_, '_>,
    name: &[u8],
) -> bool
    ensures { IsTrue result ↔ All (λ member. member.name ≡ name.now
        → All (AsksOnlyBy
        (IsAsking askers.now place) db.now) member.relations.depends) members.entry }
{
    members.all(|member| is_other_or_noted(db, askers, place, name, member))
}

// Whether it is noted for whom the name asks, which stands at the place.
fn is_name_noted(db: &Records<'_, '_>, askers: &Askers<'_>, place: usize, name: &[u8]) -> bool
    ensures { IsTrue result ↔ AsksOnly (IsAsking askers.now place) db.now name.now }
{
    are_others_or_noted(db, askers, place, db.holders(name), name)
}

/// Whether it is noted of each of the names for whom it asks. For each atom of their Depends linear in the records that have or
/// provide its name, and in those that ask for these.
pub(crate) fn are_noted(db: &Records<'_, '_>, askers: &Askers<'_>, names: &[Name]) -> bool
    ensures { result ≡ true → AreAskers db.now askers.now names.now }
{
    for place in 0..names.len() {
        if !is_name_noted(db, askers, place, names[place].as_bytes()) {
            return false;
        }
    }
    true
}
