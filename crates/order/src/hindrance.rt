// What was in the way of a member when it was last tried. Where it still is, the member needn't be tried, and whether it still
// is shows by what has changed since. So each member meets each change once, and each record some few times, however often the
// members are gone through. All of it are hints: what isn't in the way is asked of the judge.

use crate::changes::Changes;
use crate::clear::present;
use forward_steps::PartialPlan;
use plancheck_state::{Records, StateRecord, breaks_other, conflicts_with, is_met, matches_some};
use relation::{Clause, Pkg};
use std::alloc::{AllocError, Global};

/// In which way something hinders a package.
#[derive(Clone, Copy)]
pub(crate) enum Hindrance {
    /// A clause of its Depends or Pre-Depends isn't met.
    Lack,
    /// A present package breaks it.
    Broken,
    /// A present package conflicts with it, or it with that.
    Conflict,
    /// One of the last two, or it breaks an installed package.
    Record,
}

// What was found when it was looked for, and how many changes there were then.
#[derive(Clone, Copy)]
struct Check {
    place: Option<usize>,
    changes: usize,
}

// The last looks for what hinders a member, and whether it is known that none of the packages in conflict with it are to go.
#[derive(Clone, Copy)]
struct Checks {
    lack: Option<Check>,
    broken: Option<Check>,
    conflict: Option<Check>,
    record: Option<Check>,
    is_kept: bool,
}

impl Checks {
    fn none() -> Checks {
        Checks {
            lack: None,
            broken: None,
            conflict: None,
            record: None,
            is_kept: false,
        }
    }

    fn at(self, kind: Hindrance) -> Option<Check> {
        match kind {
            Hindrance::Lack => self.lack,
            Hindrance::Broken => self.broken,
            Hindrance::Conflict => self.conflict,
            Hindrance::Record => self.record,
        }
    }

    fn set(&mut self, kind: Hindrance, check: Check) {
        match kind {
            Hindrance::Lack => self.lack = Some(check),
            Hindrance::Broken => self.broken = Some(check),
            Hindrance::Conflict => self.conflict = Some(check),
            Hindrance::Record => self.record = Some(check),
        }
    }
}

// Whether the record hinders the package so.
fn hinders(pkg: &Pkg<'_>, kind: Hindrance, entry: &StateRecord<'_, '_>) -> bool {
    match entry.present_pkg() {
        Some(other) if entry.name() != pkg.name() => match kind {
            Hindrance::Lack => false,
            Hindrance::Broken => breaks_other(other, pkg),
            Hindrance::Conflict => is_against(pkg, other),
            Hindrance::Record => {
                breaks_other(other, pkg)
                    || is_against(pkg, other)
                    || (entry.state().is_installed() && breaks_other(pkg, other))
            }
        },
        _ => false,
    }
}

// Whether one of the two conflicts with the other.
fn is_against(pkg: &Pkg<'_>, other: &Pkg<'_>) -> bool {
    conflicts_with(pkg, other) || conflicts_with(other, pkg)
}

// Whether the package lacks this clause of its Depends.
fn lacks(db: &Records<'_, '_>, pkg: &Pkg<'_>, clause: &Clause<'_>) -> bool {
    !matches_some(pkg, clause.as_slice()) && !is_met(db, clause)
}

// Whether the clause at the place isn't met, among those of Depends and behind these of Pre-Depends.
fn lacks_at(db: &Records<'_, '_>, pkg: &Pkg<'_>, place: usize) -> bool {
    match pkg.depends().get(place) {
        Some(clause) => lacks(db, pkg, clause),
        None => match pre_clause_at(pkg, place) {
            Some(clause) => !is_met(db, clause),
            None => false,
        },
    }
}

// The clause of Pre-Depends at the place behind those of Depends.
fn pre_clause_at<'v, 'a>(pkg: &'v Pkg<'a>, place: usize) -> Option<&'v Clause<'a>> {
    pkg.pre_depends()
        .get(place.saturating_sub(pkg.depends().len()))
}

// The clause at the place.
fn clause_at<'v, 'a>(pkg: &'v Pkg<'a>, place: usize) -> Option<&'v Clause<'a>> {
    match pkg.depends().get(place) {
        Some(clause) => Some(clause),
        None => pre_clause_at(pkg, place),
    }
}

// Whether what stands at the place hinders the package so: a clause of its own, or a record.
fn hinders_at(db: &Records<'_, '_>, pkg: &Pkg<'_>, kind: Hindrance, place: usize) -> bool {
    match kind {
        Hindrance::Lack => lacks_at(db, pkg, place),
        Hindrance::Broken | Hindrance::Conflict | Hindrance::Record => match db
            .as_slice()
            .get(place)
        {
            Some(entry) => hinders(pkg, kind, entry),
            None => false,
        },
    }
}

// How many places there are to be looked at.
fn places(db: &Records<'_, '_>, pkg: &Pkg<'_>, kind: Hindrance) -> usize {
    match kind {
        Hindrance::Lack => pkg.depends().len().saturating_add(pkg.pre_depends().len()),
        Hindrance::Broken | Hindrance::Conflict | Hindrance::Record => db.as_slice().len(),
    }
}

// The first place from the one to the other at which something hinders the package so.
fn first_between(
    db: &Records<'_, '_>,
    pkg: &Pkg<'_>,
    kind: Hindrance,
    first: usize,
    end: usize,
) -> Option<usize> {
    for place in first..end {
        if hinders_at(db, pkg, kind, place) {
            return Some(place);
        }
    }
    None
}

// The same from the place on, and then from the first on.
fn first_from(db: &Records<'_, '_>, pkg: &Pkg<'_>, kind: Hindrance, place: usize) -> Option<usize> {
    match first_between(db, pkg, kind, place, places(db, pkg, kind)) {
        Some(first) => Some(first),
        None => first_between(db, pkg, kind, 0, place),
    }
}

// The first of these records that hinders the package so.
fn first_among(
    db: &Records<'_, '_>,
    pkg: &Pkg<'_>,
    kind: Hindrance,
    changed: &[usize],
) -> Option<usize> {
    for place in changed {
        if hinders_at(db, pkg, kind, *place) {
            return Some(*place);
        }
    }
    None
}

// What hinders the package so, where nothing did before these records changed.
fn place_anew(
    db: &Records<'_, '_>,
    pkg: &Pkg<'_>,
    kind: Hindrance,
    changed: &[usize],
) -> Option<usize> {
    match kind {
        Hindrance::Lack if changed.is_empty() => None,
        Hindrance::Lack => first_from(db, pkg, kind, 0),
        Hindrance::Broken | Hindrance::Conflict | Hindrance::Record => first_among(
            db, pkg, kind, changed,
        ),
    }
}

// Whether the record at the place is installed and matches the clause.
fn meets(db: &Records<'_, '_>, clause: &Clause<'_>, place: usize) -> bool {
    match db.as_slice().get(place) {
        Some(entry) if entry.state().is_installed() => match entry.present_pkg() {
            Some(pkg) => matches_some(pkg, clause.as_slice()),
            None => false,
        },
        _ => false,
    }
}

// Whether one of these records meets the clause at the place.
fn some_meets(db: &Records<'_, '_>, pkg: &Pkg<'_>, place: usize, changed: &[usize]) -> bool {
    match clause_at(pkg, place) {
        Some(clause) => changed.iter().any(|place| meets(db, clause, *place)),
        None => true,
    }
}

// Whether what hindered the package at the place may be gone since these records changed.
fn may_be_gone(
    db: &Records<'_, '_>,
    pkg: &Pkg<'_>,
    kind: Hindrance,
    place: usize,
    changed: &[usize],
) -> bool {
    match kind {
        Hindrance::Lack => some_meets(db, pkg, place, changed),
        Hindrance::Broken | Hindrance::Conflict | Hindrance::Record => changed.contains(&place),
    }
}

// The place of what hinders the package so, found from what was found before these records changed.
fn place_since(
    db: &Records<'_, '_>,
    pkg: &Pkg<'_>,
    kind: Hindrance,
    before: Option<usize>,
    changed: &[usize],
) -> Option<usize> {
    match before {
        None => place_anew(db, pkg, kind, changed),
        Some(place) if may_be_gone(db, pkg, kind, place, changed) => first_from(
            db, pkg, kind, place,
        ),
        Some(place) => Some(place),
    }
}

/// What hindered each of some packages, which have numbers, and what has changed since.
#[derive(Drop)]
pub(crate) struct Hindrances<'a> {
    changes: Changes<'a>,
    checks: Vec<Checks>,
}

impl<'a> Hindrances<'a> {
    /// Nothing is known.
    pub(crate) fn new(alloc: Global) -> Hindrances<'a> {
        Hindrances {
            changes: Changes::new(alloc),
            checks: Vec::new(alloc),
        }
    }

    // The looks for the package of this number.
    fn of(&self, number: usize) -> Checks {
        match self.checks.get(number) {
            Some(checks) => *checks,
            None => Checks::none(),
        }
    }

    // Keeps the looks for the package of this number.
    fn keep(&mut self, number: usize, checks: Checks) -> Result<(), AllocError> {
        for _ in self.checks.len()..number.saturating_add(1) {
            self.checks.push(Checks::none())?;
        }
        if let Some(kept) = self.checks.get_mut(number) {
            *kept = checks;
        }
        Ok(())
    }

    /// Whether something hindered the package of this number so when it was last looked for, or it wasn't looked for.
    pub(crate) fn has_before(&self, number: usize, kind: Hindrance) -> bool {
        match self.of(number).at(kind) {
            Some(check) => check.place.is_some(),
            None => true,
        }
    }

    /// Whether it is known that none of the packages in conflict with that of this number are to go. That stays so, since what is
    /// to go isn't unpacked.
    pub(crate) fn are_kept(&self, number: usize) -> bool {
        self.of(number).is_kept
    }

    /// Says that it is so.
    pub(crate) fn keep_all(&mut self, number: usize) -> Result<(), AllocError> {
        let mut checks = self.of(number);
        checks.is_kept = true;
        self.keep(number, checks)
    }

    /// Whether something hinders the package of this number so. What is known from before costs a test for each change since.
    /// Memory alone can fail.
    pub(crate) fn has(
        &mut self,
        plan: &PartialPlan<'_, 'a>,
        number: usize,
        pkg: &Pkg<'_>,
        kind: Hindrance,
    ) -> Result<bool, AllocError> {
        self.changes.note(plan)?;
        let mut checks = self.of(number);
        let place = match checks.at(kind) {
            Some(check) => {
                let changed = self.changes.since(check.changes);
                place_since(&plan.db, pkg, kind, check.place, changed)
            }
            None => first_from(&plan.db, pkg, kind, 0),
        };
        let changes = self.changes.count();
        checks.set(kind, Check { place, changes });
        self.keep(number, checks)?;
        Ok(place.is_some())
    }

    // Whether the record at the place, by which its package is numbered, has changed since it was last looked so.
    fn is_changed(&self, place: usize, kind: Hindrance) -> bool {
        match self.of(place).at(kind) {
            Some(check) => self.changes.since(check.changes).contains(&place),
            None => false,
        }
    }

    // The same as `has` of the package that the record at the place has by now.
    fn has_now(
        &mut self,
        plan: &PartialPlan<'_, 'a>,
        place: usize,
        pkg: &Pkg<'_>,
        kind: Hindrance,
    ) -> Result<bool, AllocError> {
        if self.is_changed(place, kind) {
            self.keep(place, Checks::none())?;
        }
        self.has(plan, place, pkg, kind)
    }

    /// Whether something hinders the present package of the name so, where packages are numbered by the places of their records.
    pub(crate) fn has_present(
        &mut self,
        plan: &PartialPlan<'_, 'a>,
        name: &[u8],
        kind: Hindrance,
    ) -> Result<bool, AllocError> {
        self.changes.note(plan)?;
        match (self.changes.place_of(name), present(&plan.db, name)) {
            (Some(place), Some(pkg)) => self.has_now(plan, place, pkg, kind),
            _ => Ok(false),
        }
    }
}
