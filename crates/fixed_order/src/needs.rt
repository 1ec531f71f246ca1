// Who needs the names that are to be removed (Policy 7.2). Of each name a clause is remembered that didn't manage without it, and
// while that clause doesn't, no other one is asked. What is remembered is asked again each time, so nothing is proved of it.

ghost use Rattle.std.specs.Prelude.{◌≡◌, ◌↔◌, ◌++◌, IfOk, IfSome, IsTrue};
ghost use Rattle.std.specs.List.{Contains};
ghost use Rattle.rules.specs.Legal.{Allowed};
ghost use Rattle.rules.specs.Remove.{IsNotNeeded};
ghost use Rattle.rules.specs.declared.step.Step.TheVariants.{Remove};

use indexmap::IndexMap;
use plancheck::{is_met_without, remove_failing};
use plancheck_state::{Records, StateRecord, is_same, matches_some};
use relation::{Clause, Pkg};
use rules::allowed_where_none_fails;
use std::alloc::{AllocError, Global};
use std::ops::Range;
use universe::Universe;

// A clause: the place of its record, and its number among the Pre-Depends and Depends of that, both from 0.
#[derive(Clone, Copy)]
struct Need {
    place: usize,
    number: usize,
}

/// Names, each with a clause that needed it when it was asked last.
#[derive(Drop)]
pub(crate) struct Needs<'n> {
    table: IndexMap<&'n [u8], Need>,
}

// The clause of this number among the Pre-Depends and Depends of the record.
fn clause_at<'f, 'a>(entry: &'f StateRecord<'_, 'a>, number: usize) -> Option<&'f Clause<'a>>
    ensures { IfSome result
        (λ clause. Contains
        (entry.now.relations.pre_depends ++ entry.now.relations.depends) clause.now) }
{
    let first = entry.pre_depends();
    match first.get(number) {
        Some(clause) => Some(clause),
        None => entry.depends().get(number.saturating_sub(first.len())),
    }
}

// Whether the record is of another name and installed, and its clause of this number doesn't manage without the name.
fn needs_by(db: &Records<'_, '_>, name: &[u8], entry: &StateRecord<'_, '_>, number: usize) -> bool
    requires { Contains db.now entry.now }
    ensures { IsTrue result → ¬ IsNotNeeded db.now name.now }
{
    if !entry.state().is_installed() || is_same(entry.name(), name) {
        return false;
    }
    match clause_at(entry, number) {
        Some(clause) => !is_met_without(db, name, clause),
        None => false,
    }
}

// Whether the clause needs the name.
fn is_need(db: &Records<'_, '_>, name: &[u8], need: Need) -> bool
    ensures { IsTrue result → ¬ IsNotNeeded db.now name.now }
{
    match db.as_slice().get(need.place) {
        Some(entry) => needs_by(db, name, entry, need.number),
        None => false,
    }
}

// Whether the package matches the clause of this number.
fn is_matched(entry: &StateRecord<'_, '_>, number: usize, there: &Pkg<'_>) -> bool {
    match clause_at(entry, number) {
        Some(clause) => matches_some(there, clause.as_slice()),
        None => false,
    }
}

// The first clause of the record at the place that needs the name, whose package this is.
fn need_at(db: &Records<'_, '_>, name: &[u8], there: &Pkg<'_>, place: usize) -> Option<Need> {
    let entry = db.as_slice().get(place)?;
    if !entry.state().is_installed() {
        return None;
    }
    let clauses = entry
        .pre_depends()
        .len()
        .saturating_add(entry.depends().len());
    for number in 0..clauses {
        let need = Need { place, number };
        if is_matched(entry, number, there) && is_need(db, name, need) {
            return Some(need);
        }
    }
    None
}

// The first one at these places.
fn need_among(
    db: &Records<'_, '_>,
    name: &[u8],
    there: &Pkg<'_>,
    places: Range<usize>,
) -> Option<Need> {
    for place in places {
        if let Some(need) = need_at(db, name, there, place) {
            return Some(need);
        }
    }
    None
}

// The package of the name, if it is present.
fn pkg_named<'p, 'a>(db: &Records<'p, 'a>, name: &[u8]) -> Option<&'p Pkg<'a>> {
    for entry in db.holders(name) {
        if is_same(entry.name(), name) {
            return entry.present_pkg();
        }
    }
    None
}

// The first clause that needs the name, from this place on, or else before it.
fn next_need(db: &Records<'_, '_>, name: &[u8], from: usize) -> Option<Need> {
    let there = pkg_named(db, name)?;
    match need_among(db, name, there, from..db.as_slice().len()) {
        Some(need) => Some(need),
        None => need_among(db, name, there, 0..from),
    }
}

// Whether the removal of the name is allowed.
fn can_be_removed(db: &Records<'_, '_>, universe: &Universe<'_, '_>, name: &[u8]) -> bool
    ensures { IsTrue result ↔ Allowed universe.now db.now (Remove name.now) }
{
    allowed_where_none_fails();
    remove_failing(db, name).is_none()
}

impl<'n> Needs<'n> {
    /// Nothing is known of any name.
    pub(crate) fn new(alloc: Global) -> Needs<'n> {
        Needs {
            table: IndexMap::new(alloc),
        }
    }

    // Whether a clause is remembered of the name and needs it still.
    fn is_still_needed(&self, db: &Records<'_, '_>, name: &[u8]) -> bool
        ensures { IsTrue result → ¬ IsNotNeeded db.now name.now }
    {
        match self.table.get(name).copied() {
            Some(need) => is_need(db, name, need),
            None => false,
        }
    }

    // The place of the record whose clause is remembered of the name, or the first place.
    fn place_of(&self, name: &[u8]) -> usize {
        match self.table.get(name).copied() {
            Some(need) => need.place,
            None => 0,
        }
    }

    // Remembers the next clause that needs the name, if there is one.
    fn remember(&mut self, db: &Records<'_, '_>, name: &'n [u8]) -> Result<(), AllocError> {
        match next_need(db, name, self.place_of(name)) {
            Some(need) => {
                self.table.insert(name, need)?;
                Ok(())
            }
            None => Ok(()),
        }
    }

    /// Whether the removal of the name is allowed. While the clause that is remembered of it needs it, this costs what
    /// `plancheck::is_met_without` says of that clause, else what `plancheck::remove_failing` does, twice at most. Memory alone
    /// can fail.
    pub(crate) fn may_go(
        &mut self,
        db: &Records<'_, '_>,
        universe: &Universe<'_, '_>,
        name: &'n [u8],
    ) -> Result<bool, AllocError>
        ensures { IfOk result (λ may. IsTrue may ↔ Allowed universe.now db.now (Remove name.now)) }
    {
        if self.is_still_needed(db, name) {
            return Ok(false);
        }
        if can_be_removed(db, universe, name) {
            return Ok(true);
        }
        self.remember(db, name)?;
        Ok(false)
    }
}
