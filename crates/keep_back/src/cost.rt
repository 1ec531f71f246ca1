// How little a goal is wanted.

use debversion::Version;
use refutation::Premise;
use refutecheck::{Premises, clause_of};
use relation::{Clause, Pkg};
use request_lines::Wish;
use rules::Goal;
use std::alloc::AllocError;
use universe::{Start, Universe};

/// How little a wish is wanted: first whether it is about a held name, then how few of the other wishes stand on its candidate, and then
/// how many packages stand in its way.
#[derive(Clone, Copy)]
pub(crate) struct Cost {
    is_held: bool,
    standing_on: usize,
    conflicting: usize,
}

impl Cost {
    /// Whether a wish of the cost is wanted no more than one of the other.
    pub(crate) fn is_at_least(self, other: Cost) -> bool {
        if self.is_held != other.is_held {
            self.is_held
        } else if self.standing_on != other.standing_on {
            self.standing_on < other.standing_on
        } else {
            self.conflicting >= other.conflicting
        }
    }
}

// The name that a goal is about.
fn name_in(goal: &Goal) -> Option<&[u8]> {
    match goal {
        Goal::Install(name, _) => Some(name.as_bytes()),
        Goal::Upgrade(name) => Some(name.as_bytes()),
        Goal::Remove(name) => Some(name.as_bytes()),
        Goal::Purge(name) => Some(name.as_bytes()),
        Goal::UpgradeAll | Goal::NoRemove => None,
    }
}

// The name that the wish is about, if it is about one.
fn name_of(wish: &Wish) -> Option<&[u8]> {
    name_in(wish.goal()?)
}

// The number of the pair of this version, if it is admitted.
fn number_of(
    universe: &Universe<'_, '_>,
    name: &[u8],
    version: Option<&Version<'_>>,
) -> Option<u32> {
    let number = universe.number_of(name, version?)?;
    u32::try_from(number).ok()
}

// Whether a pair conflicts with the other or breaks it.
fn strikes(premises: &Premises<'_, '_, '_>, number: u32, other: u32) -> Result<bool, AllocError> {
    if clause_of(premises, &Premise::Conflicts(number, other))?.is_some() {
        return Ok(true);
    }
    let breaks = clause_of(premises, &Premise::Breaks(number, other))?;
    Ok(breaks.is_some())
}

// Whether the package stands and can't stay so beside the pair.
fn is_conflicting(
    premises: &Premises<'_, '_, '_>,
    universe: &Universe<'_, '_>,
    number: u32,
    start: &Start<'_>,
) -> Result<bool, AllocError> {
    let Some(other) = number_of(universe, start.name(), start.standing()) else {
        return Ok(false);
    };
    if strikes(premises, number, other)? {
        return Ok(true);
    }
    strikes(premises, other, number)
}

// How many packages stand and can't stay so beside the candidate of the name.
fn count_conflicting(
    premises: &Premises<'_, '_, '_>,
    universe: &Universe<'_, '_>,
    name: &[u8],
) -> Result<usize, AllocError> {
    let Some(number) = number_of(universe, name, universe.candidate(name)) else {
        return Ok(0);
    };
    let mut count = 0usize;
    for start in universe.starts() {
        if is_conflicting(premises, universe, number, start)? {
            count = count.saturating_add(1);
        }
    }
    Ok(count)
}

fn is_held(universe: &Universe<'_, '_>, name: &[u8]) -> bool {
    match universe.start(name) {
        None => false,
        Some(start) => start.is_held(),
    }
}

// Whether an alternative of the clauses names the package.
fn has_alternative(clauses: &[Clause<'_>], name: &[u8]) -> bool {
    clauses.iter().any(|clause| clause.as_slice().iter().any(|atom| atom.name() == name))
}

// Whether the package needs one that has the name, or another one in its place.
fn needs(pkg: &Pkg<'_>, name: &[u8]) -> bool {
    has_alternative(pkg.pre_depends(), name) || has_alternative(pkg.depends(), name)
}

// Whether the candidate of the other name needs the name.
fn stands_on(
    premises: &Premises<'_, '_, '_>,
    universe: &Universe<'_, '_>,
    other: &[u8],
    name: &[u8],
) -> Result<bool, AllocError> {
    let Some(number) = number_of(universe, other, universe.candidate(other)) else {
        return Ok(false);
    };
    match premises.read_at(number)? {
        None => Ok(false),
        Some(read) => Ok(needs(read.pkg(), name)),
    }
}

// How many of the wishes have a candidate that needs the name.
fn count_standing_on(
    premises: &Premises<'_, '_, '_>,
    universe: &Universe<'_, '_>,
    wishes: &[Wish],
    name: &[u8],
) -> Result<usize, AllocError> {
    let mut count = 0usize;
    for wish in wishes {
        if let Some(other) = name_of(wish) {
            if other != name && stands_on(premises, universe, other, name)? {
                count = count.saturating_add(1);
            }
        }
    }
    Ok(count)
}

/// What the wish costs beside these.
pub(crate) fn cost_of(
    premises: &Premises<'_, '_, '_>,
    universe: &Universe<'_, '_>,
    wishes: &[Wish],
    wish: &Wish,
) -> Result<Cost, AllocError> {
    match name_of(wish) {
        None => Ok(Cost {
            is_held: false,
            standing_on: 0,
            conflicting: 0,
        }),
        Some(name) => Ok(Cost {
            is_held: is_held(universe, name),
            standing_on: count_standing_on(premises, universe, wishes, name)?,
            conflicting: count_conflicting(premises, universe, name)?,
        }),
    }
}
