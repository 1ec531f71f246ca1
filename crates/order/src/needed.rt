// Removing what nothing needs any more. A clause that needs a name is remembered, and the name isn't tried before that may have
// changed: each name meets each change once. This is a hint: what no remembered clause needs is asked of the judge.

ghost use Rattle.std.specs.Prelude.{IfOk};
ghost use Rattle.forward_steps.specs.PartialPlan.{IsReached};

use crate::changes::Changes;
use crate::clear::{is_needed_by, present};
use forward_steps::{PartialPlan, Problem, leaving, take};
use plancheck::remove_failing;
use plancheck_state::{Records, StateRecord, matches_some};
use relation::{Clause, Pkg};
use rules::{Name, Rule, Step};
use std::alloc::{AllocError, Global};

// A clause that needs a package: the place of its record, its place among the clauses of that, and how many changes there were
// when it last did.
#[derive(Clone, Copy)]
struct Need {
    by: usize,
    clause: usize,
    changes: usize,
}

// The clause at the place, among those of Pre-Depends and behind these of Depends.
fn clause_at<'v, 'a>(entry: &'v StateRecord<'_, 'a>, place: usize) -> Option<&'v Clause<'a>> {
    match entry.pre_depends().get(place) {
        Some(clause) => Some(clause),
        None => entry
            .depends()
            .get(place.saturating_sub(entry.pre_depends().len())),
    }
}

// The place of a clause of the record that needs the package, if the record is installed.
fn needing_clause(
    db: &Records<'_, '_>,
    pkg: &Pkg<'_>,
    entry: &StateRecord<'_, '_>,
) -> Option<usize> {
    if !entry.state().is_installed() || entry.name() == pkg.name() {
        return None;
    }
    let clauses = entry
        .pre_depends()
        .len()
        .saturating_add(entry.depends().len());
    for place in 0..clauses {
        if let Some(clause) = clause_at(entry, place) {
            if is_needed_by(db, pkg, clause) {
                return Some(place);
            }
        }
    }
    None
}

// The first record from the one place to the other that needs the package, with the place of its clause.
fn first_between(
    db: &Records<'_, '_>,
    pkg: &Pkg<'_>,
    first: usize,
    end: usize,
) -> Option<(usize, usize)> {
    for by in first..end {
        if let Some(entry) = db.as_slice().get(by) {
            if let Some(clause) = needing_clause(db, pkg, entry) {
                return Some((by, clause));
            }
        }
    }
    None
}

// The same from the place on, and then from the first on.
fn first_from(db: &Records<'_, '_>, pkg: &Pkg<'_>, place: usize) -> Option<(usize, usize)> {
    match first_between(db, pkg, place, db.as_slice().len()) {
        Some(first) => Some(first),
        None => first_between(db, pkg, 0, place),
    }
}

// Whether the record at the place stands, is of another name and matches the clause.
fn stands_in(db: &Records<'_, '_>, name: &[u8], clause: &Clause<'_>, place: usize) -> bool {
    match db.as_slice().get(place) {
        Some(entry) if entry.stands() && entry.name() != name => match entry.present_pkg() {
            Some(pkg) => matches_some(pkg, clause.as_slice()),
            None => false,
        },
        _ => false,
    }
}

// Whether the clause still needs the name since these records changed: its record didn't, and none of them stands in.
fn is_still_needed(db: &Records<'_, '_>, name: &[u8], need: Need, changed: &[usize]) -> bool {
    if changed.contains(&need.by) {
        return false;
    }
    let clause = match db.as_slice().get(need.by) {
        Some(entry) => clause_at(entry, need.clause),
        None => None,
    };
    match clause {
        Some(clause) => !changed
            .iter()
            .any(|place| stands_in(db, name, clause, *place)),
        None => false,
    }
}

/// Which clauses need the names that are to go, and what has changed since they were found.
#[derive(Drop)]
pub(crate) struct Needs<'a> {
    changes: Changes<'a>,
    needs: Vec<Option<Need>>,
}

impl<'a> Needs<'a> {
    /// Nothing is known.
    pub(crate) fn new(alloc: Global) -> Needs<'a> {
        Needs {
            changes: Changes::new(alloc),
            needs: Vec::new(alloc),
        }
    }

    // Keeps the clause that needs the record at the place.
    fn keep(&mut self, place: usize, by: usize, clause: usize) -> Result<(), AllocError> {
        let changes = self.changes.count();
        for _ in self.needs.len()..place.saturating_add(1) {
            self.needs.push(None)?;
        }
        if let Some(kept) = self.needs.get_mut(place) {
            *kept = Some(Need {
                by,
                clause,
                changes,
            });
        }
        Ok(())
    }

    // The clause that is remembered of the record at the place.
    fn of(&self, place: usize) -> Option<Need> {
        match self.needs.get(place) {
            Some(need) => *need,
            None => None,
        }
    }

    // Whether the remembered clause still needs the name, whose record is at the place.
    fn is_known(
        &mut self,
        db: &Records<'_, 'a>,
        name: &[u8],
        place: usize,
    ) -> Result<bool, AllocError> {
        let Some(need) = self.of(place) else {
            return Ok(false);
        };
        if !is_still_needed(db, name, need, self.changes.since(need.changes)) {
            return Ok(false);
        }
        self.keep(place, need.by, need.clause)?;
        Ok(true)
    }

    // Looks for a clause that needs the name, from the remembered one's record on.
    fn remember(
        &mut self,
        db: &Records<'_, 'a>,
        name: &[u8],
        place: usize,
    ) -> Result<(), AllocError> {
        let Some(pkg) = present(db, name) else {
            return Ok(());
        };
        let from = match self.of(place) {
            Some(need) => need.by,
            None => 0,
        };
        if let Some((by, clause)) = first_from(db, pkg, from) {
            self.keep(place, by, clause)?;
        }
        Ok(())
    }

    // Whether some package needs the name.
    fn is_needed(&mut self, plan: &PartialPlan<'_, 'a>, name: &[u8]) -> Result<bool, AllocError> {
        self.changes.note(plan)?;
        let Some(place) = self.changes.place_of(name) else {
            return Ok(false);
        };
        if self.is_known(&plan.db, name, place)? {
            return Ok(true);
        }
        match remove_failing(&plan.db, name) {
            Some(Rule::NeededBy) => {
                self.remember(&plan.db, name, place)?;
                Ok(true)
            }
            _ => Ok(false),
        }
    }
}

/// Removes the name, if nothing needs it and it can be. Where a remembered clause needs it, it costs a test for each change since.
/// Memory alone can fail.
pub(crate) fn remove_unneeded<'p, 'a>(
    problem: &Problem<'_, '_, 'p, 'a>,
    plan: &mut PartialPlan<'p, 'a>,
    needs: &mut Needs<'a>,
    name: &Name,
) -> Result<bool, AllocError>
    requires reached { IsReached problem.now plan.old }
    ensures reached { IfOk result (λ _. IsReached problem.now plan.new) }
{
    let needed = needs.is_needed(plan, name.as_bytes())?;
    if needed {
        return Ok(false);
    }
    let step = Step::Remove(name.try_copy(problem.alloc)?);
    let taken = take(problem, plan, None, step)?;
    Ok(taken)
}

/// Removes the first name without a member that can be, if there is one. Memory alone can fail.
pub(crate) fn remove_some<'p, 'a>(
    problem: &Problem<'_, '_, 'p, 'a>,
    plan: &mut PartialPlan<'p, 'a>,
    needs: &mut Needs<'a>,
) -> Result<bool, AllocError>
    requires reached { IsReached problem.now plan.old }
    ensures reached { IfOk result (λ _. IsReached problem.now plan.new) }
{
    let names = leaving(problem.alloc, &plan.db, problem.members)?;
    for name in names.as_slice() {
        let removed = remove_unneeded(problem, plan, needs, name)?;
        if removed {
            return Ok(true);
        }
    }
    Ok(false)
}
