// What waits to be configured, before the first configure and behind each.

ghost use Rattle.std.specs.Prelude.{◌≡◌, true, IfOk, length};
ghost use Rattle.std.specs.List.{Contains};
ghost use Rattle.rules.specs.Configure.{ArePreDependsInstalled};
ghost use Rattle.plain.specs.Underway.{unconfigured_of};
ghost use Rattle.fixed_order.specs.Askers.{AreAskers};
ghost use Rattle.fixed_order.specs.Problem.{IsProblem, IsUnderwayOn};
ghost use Rattle.fixed_order.specs.Names.{AreAllWith};
ghost use Rattle.fixed_order.specs.Waiting.{IsMarkedAnew, IsWaitingIn};

use crate::askers::{Askers, are_noted};
use crate::key::{Key, in_order};
use crate::marks::{mark_each, marks_of};
use crate::problem::Problem;
use crate::turn::{Rings, rings_of};
use plancheck_group::are_pre_depends_installed;
use plancheck_state::Records;
use rules::Name;
use std::alloc::{AllocError, Global};

/// The names that wait to be configured, in their order, those of them that may ask for one another in turn, and which of them
/// have what they ask for: they are marked. Names that were configured since are still among them. Where it isn't known who asks
/// for whom, nothing is known of the marks.
#[derive(Drop)]
pub(crate) struct Waiting<'a> {
    pub(crate) names: Vec<Name>,
    pub(crate) rings: Rings,
    pub(crate) askers: Askers<'a>,
    pub(crate) marks: Vec<bool>,
    pub(crate) is_known: bool,
}

// The names of what isn't configured, in the order of the records.
fn keys_of<'p, 'a>(
    problem: &Problem<'_, '_, 'p, 'a>,
    db: &Records<'p, 'a>,
) -> Result<Vec<Key<'a>>, AllocError>
    requires problem { IsProblem problem.now }
    requires underway { IsUnderwayOn problem.now db.now }
    ensures { IfOk result (λ keys. keys.items ≡ unconfigured_of db.now) }
{
    let mut keys = Vec::new(problem.alloc);
    for entry in db.as_slice() {
        if entry.state().is_unconfigured() {
            keys.push(Key::new(entry.name()))?;
        }
    }
    Ok(keys)
}

// The names of what isn't configured, in their order.
fn unconfigured_keys<'p, 'a>(
    problem: &Problem<'_, '_, 'p, 'a>,
    db: &Records<'p, 'a>,
) -> Result<Vec<Key<'a>>, AllocError>
    requires problem { IsProblem problem.now }
    requires underway { IsUnderwayOn problem.now db.now }
    ensures { IfOk result (λ keys. AreAllWith (Contains (unconfigured_of db.now)) keys.items) }
{
    let keys = keys_of(problem, db)?;
    let ordered = in_order(keys)?;
    Ok(ordered)
}

// The names, owned.
fn names_of(alloc: Global, keys: &[Key<'_>]) -> Result<Vec<Name>, AllocError>
    ensures { IfOk result (λ names. names.items ≡ keys.now) }
{
    let mut names = Vec::new(alloc);
    for key in keys {
        names.push(key.try_name(alloc)?)?;
    }
    Ok(names)
}

// Whether the Pre-Depends of the names are installed, and it is noted for whom each of them asks.
fn is_known(db: &Records<'_, '_>, askers: &Askers<'_>, names: &[Name]) -> bool
    ensures { result ≡ true → ArePreDependsInstalled db.now names.now
        × AreAskers db.now askers.now names.now }
{
    are_pre_depends_installed(db, names) && are_noted(db, askers, names)
}

impl<'a> Waiting<'a> {
    /// What waits in this database. About n log n comparisons of n names, and what `rings_of`, `are_noted` and a test of each name
    /// cost. Memory alone can fail.
    pub(crate) fn read<'p>(
        problem: &Problem<'_, '_, 'p, 'a>,
        db: &Records<'p, 'a>,
    ) -> Result<Waiting<'a>, AllocError>
        requires problem { IsProblem problem.now }
        requires underway { IsUnderwayOn problem.now db.now }
        ensures { IfOk result (λ waiting. IsWaitingIn db.now waiting) }
    {
        let keys = unconfigured_keys(problem, db)?;
        let names = names_of(problem.alloc, keys.as_slice())?;
        let askers = Askers::read(problem.alloc, db, names.as_slice())?;
        let rings = rings_of(problem.alloc, db, &askers, names.as_slice())?;
        let marks = marks_of(problem.alloc, db, names.as_slice())?;
        let is_known = is_known(db, &askers, names.as_slice());
        Ok(Waiting {
            names,
            rings,
            askers,
            marks,
            is_known,
        })
    }

    /// Tests anew which of the names at these places have what they ask for, in the database behind a configure: they are those of
    /// the group and those that ask for it.
    pub(crate) fn mark_anew(&mut self, db: &Records<'_, '_>, places: &[usize])
        requires { length self.old.marks.items ≡ length self.old.names.items }
        ensures { IsMarkedAnew db.now places.now self.old self.new }
    {
        mark_each(db, self.names.as_slice(), &mut self.marks, places);
    }
}
