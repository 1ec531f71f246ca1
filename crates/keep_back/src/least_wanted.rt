// Which goals of a refuted request are left out.

ghost use Rattle.std.specs.Prelude.{◌^◌, ◌<◌, length};
ghost use Rattle.universe_parts.specs.Parts.{HaveDistinctNames};

use crate::cost::{Cost, cost_of};
use crate::named::{is_named, is_same_goal};
use refutation::{Premise, Refutation};
use refutation_sentences::core;
use refutecheck::{Premises, clause_of};
use request_lines::Wish;
use std::alloc::{AllocError, Global};
use universe::Universe;

// The place that is wanted least of the one so far and the one with this cost.
fn lesser(so_far: Option<(usize, Cost)>, place: usize, cost: Cost) -> (usize, Cost) {
    match so_far {
        Some((least, other)) if !cost.is_at_least(other) => (least, other),
        _ => (place, cost),
    }
}

fn stays_at(stays: &[bool], place: usize) -> bool {
    match stays.get(place) {
        None => false,
        Some(stays) => *stays,
    }
}

// The place of the wish that is wanted least among those that stay and that the core names, if it names one: of two that cost the same,
// the later one.
fn least_wanted(
    premises: &Premises<'_, '_, '_>,
    universe: &Universe<'_, '_>,
    core: &Refutation,
    wishes: &[Wish],
    stays: &[bool],
) -> Result<Option<usize>, AllocError> {
    let mut least = None;
    for (place, wish) in wishes.iter().enumerate() {
        if stays_at(stays, place) && wish.asks_for_more() && is_named(premises, core, wish) {
            let cost = cost_of(premises, universe, wishes, wish)?;
            least = Some(lesser(least, place, cost));
        }
    }
    match least {
        None => Ok(None),
        Some((place, _)) => Ok(Some(place)),
    }
}

// Whether nothing that is admitted fulfils the goal of this number.
fn is_empty(premises: &Premises<'_, '_, '_>, number: u32) -> Result<bool, AllocError> {
    match clause_of(premises, &Premise::Goal(number))? {
        None => Ok(false),
        Some(literals) => Ok(literals.as_slice().is_empty()),
    }
}

// Puts the places of the wishes with the goal of this number behind the others.
fn push_places(
    premises: &Premises<'_, '_, '_>,
    places: &mut Vec<usize>,
    number: u32,
    wishes: &[Wish],
) -> Result<(), AllocError> {
    let Some(asked) = premises.goal_at(number) else {
        return Ok(());
    };
    for (place, wish) in wishes.iter().enumerate() {
        if let Some(goal) = wish.goal() {
            if is_same_goal(asked, goal) {
                places.push(place)?;
            }
        }
    }
    Ok(())
}

// The places of the wishes that nothing admitted fulfils.
fn hopeless(
    alloc: Global,
    premises: &Premises<'_, '_, '_>,
    universe: &Universe<'_, '_>,
    wishes: &[Wish],
) -> Result<Vec<usize>, AllocError> {
    let mut places = Vec::new(alloc);
    let mut number = 0u32;
    for _ in universe.goals() {
        number = number.saturating_add(1);
        if is_empty(premises, number)? {
            push_places(premises, &mut places, number, wishes)?;
        }
    }
    Ok(places)
}

/// The places of the wishes that are left out of the request that this refutation refutes: those that nothing admitted fulfils; or where
/// there are none the one that is wanted least of those that stay and that a core of the refutation names. Of these a wish about a held
/// name comes first, then the one that the candidates of the fewest others need, then the one beside whose candidate most packages that
/// stand can't stay so, and of two such the later one. It costs what `refutation_sentences::core` costs, and for each wish that is named a look at
/// each other one, and two conflicts and two breaks looked for at each package that stands. Memory alone can fail.
pub(crate) fn to_leave_out(
    alloc: Global,
    universe: &Universe<'_, '_>,
    refutation: &Refutation,
    wishes: &[Wish],
    stays: &[bool],
) -> Result<Vec<usize>, AllocError>
    requires few { length universe.now.pairs < 2 ^ 32 }
    requires distinct { HaveDistinctNames universe.now.starts }
{
    let premises = Premises::new(alloc, universe);
    let mut places = hopeless(alloc, &premises, universe, wishes)?;
    if places.is_empty() {
        let core = core(&premises, refutation)?;
        if let Some(place) = least_wanted(&premises, universe, &core, wishes, stays)? {
            places.push(place)?;
        }
    }
    Ok(places)
}
