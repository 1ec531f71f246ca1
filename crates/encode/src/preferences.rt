// Which packages are preferred where a clause leaves a choice. This is advice, of which no contract speaks.

use crate::choice::{in_order_of_choice, stands};
use providers::{Providers, Ticks};
use reach::Part;
use relation::{Atom, Clause, Pkg};
use std::alloc::{AllocError, Global};

// The ranks: what stands, what has the name that is asked for, what has a name that was present, and the others, each
// behind by what it lacks.
const STANDS: usize = 0;

const OWN_NAME: usize = 1;

const WAS_PRESENT: usize = 2;

const NEW: usize = 3;

/// The rank of the package of each pair of a part, and its turn: packages of one name come in the order of choice. One of a
/// lower rank is preferred, and of one rank the one whose turn is earlier.
#[derive(Drop)]
pub(crate) struct Preferences {
    ranks: Vec<usize>,
    turns: Vec<usize>,
}

fn stands_at(part: &Part<'_, '_, '_>, place: usize) -> bool {
    part.pairs().get(place).is_some_and(|pair| stands(pair))
}

fn was_present(part: &Part<'_, '_, '_>, name: &[u8]) -> bool {
    part.start(name).is_some_and(|start| start.is_present())
}

// Whether a package that stands matches the atom.
fn is_matched(
    alloc: Global,
    part: &Part<'_, '_, '_>,
    providers: &Providers<'_>,
    atom: &Atom<'_>,
) -> Result<bool, AllocError> {
    let mut ticks = Ticks::new();
    let places = providers.matching(alloc, atom, &mut ticks)?;
    Ok(places.iter().any(|place| stands_at(part, *place)))
}

// Whether a package that stands matches an atom of the clause.
fn is_met(
    alloc: Global,
    part: &Part<'_, '_, '_>,
    providers: &Providers<'_>,
    clause: &Clause<'_>,
) -> Result<bool, AllocError> {
    for atom in clause.as_slice() {
        if is_matched(alloc, part, providers, atom)? {
            return Ok(true);
        }
    }
    Ok(false)
}

// Behind a rank by the clauses that what stands doesn't meet.
fn behind_by(
    alloc: Global,
    part: &Part<'_, '_, '_>,
    providers: &Providers<'_>,
    rank: usize,
    clauses: &[Clause<'_>],
) -> Result<usize, AllocError> {
    let mut behind = rank;
    for clause in clauses {
        if !is_met(alloc, part, providers, clause)? {
            behind = behind.saturating_add(1);
        }
    }
    Ok(behind)
}

// How far the package of a new name is behind.
fn new_rank(
    alloc: Global,
    part: &Part<'_, '_, '_>,
    providers: &Providers<'_>,
    pkg: &Pkg<'_>,
) -> Result<usize, AllocError> {
    let rank = behind_by(alloc, part, providers, NEW, pkg.pre_depends())?;
    behind_by(alloc, part, providers, rank, pkg.depends())
}

// The rank of the package at a place where a name is asked for that isn't its own. One that provides nothing never is
// asked for so. What is known is the name and the rank of the last package that provides something: all versions of a new name
// are as far behind as the one that is chosen first.
fn rank_of(
    alloc: Global,
    part: &Part<'_, '_, '_>,
    providers: &Providers<'_>,
    place: usize,
    pkg: &Pkg<'_>,
    known: Option<(&[u8], usize)>,
) -> Result<usize, AllocError> {
    if stands_at(part, place) {
        return Ok(STANDS);
    }
    if was_present(part, pkg.name()) {
        return Ok(WAS_PRESENT);
    }
    if pkg.provides().is_empty() {
        return Ok(NEW);
    }
    match known {
        Some((name, rank)) if name == pkg.name() => Ok(rank),
        _ => new_rank(alloc, part, providers, pkg),
    }
}

fn put(list: &mut Vec<usize>, place: usize, value: usize) {
    if place < list.len() {
        list[place] = value;
    }
}

// The ranks of the packages at places that come in the order of choice.
fn ranks_of(
    alloc: Global,
    part: &Part<'_, '_, '_>,
    providers: &Providers<'_>,
    packages: &[&Pkg<'_>],
    order: &[usize],
) -> Result<Vec<usize>, AllocError> {
    let mut ranks = vec![in alloc; NEW; packages.len()]?;
    let mut known = None;
    for place in order {
        if let Some(pkg) = packages.get(*place) {
            let rank = rank_of(alloc, part, providers, *place, pkg, known)?;
            put(&mut ranks, *place, rank);
            if !pkg.provides().is_empty() {
                known = Some((pkg.name(), rank));
            }
        }
    }
    Ok(ranks)
}

// Of each place when it comes in the order.
fn turns_of(alloc: Global, order: &[usize]) -> Result<Vec<usize>, AllocError> {
    let mut turns = vec![in alloc; 0; order.len()]?;
    for (turn, place) in order.iter().enumerate() {
        put(&mut turns, *place, turn);
    }
    Ok(turns)
}

impl Preferences {
    /// How the packages of the part, which are those of `providers`, are preferred. Memory alone can fail. For each name that
    /// is new and provides something it costs what the Pre-Depends and Depends of one version match, and besides what
    /// `in_order_of_choice` says.
    pub(crate) fn of_packages(
        alloc: Global,
        part: &Part<'_, '_, '_>,
        providers: &Providers<'_>,
        packages: &[&Pkg<'_>],
    ) -> Result<Preferences, AllocError> {
        let order = in_order_of_choice(alloc, part)?;
        let ranks = ranks_of(alloc, part, providers, packages, order.as_slice())?;
        let turns = turns_of(alloc, order.as_slice())?;
        Ok(Preferences { ranks, turns })
    }

    // The rank of the package at a place, where it has or hasn't the name that is asked for.
    fn rank(&self, place: usize, has_name: bool) -> usize {
        let rank = self.ranks.get(place).copied().unwrap_or(NEW);
        if has_name && rank > OWN_NAME {
            OWN_NAME
        } else {
            rank
        }
    }

    /// The rank of the package at a place, where it has or hasn't the name that is asked for, and then its turn: what is less
    /// is preferred.
    pub(crate) fn order(&self, place: usize, has_name: bool) -> (usize, usize) {
        let turn = self.turns.get(place).copied().unwrap_or(place);
        (self.rank(place, has_name), turn)
    }
}
