// The steps of a plain change in its fixed order (Policy 7; dpkg(1)).

ghost use Rattle.std.specs.Prelude.{◌≡◌, ◌++◌, IfOk, map};
ghost use Rattle.rules.specs.Sound.{selected};
ghost use Rattle.rules.specs.Universe.{listed_for};
ghost use Rattle.plain.specs.Change.{IsPlainChange};
ghost use Rattle.plain.specs.Order.{IsInFixedOrder, to_unpack, unpack_of};
ghost use Rattle.fixed_order.specs.Problem.{IsProblem, members_in};
ghost use Rattle.rules.specs.Names.{HasNames, HasPairNames};
ghost use Rattle.refutation.specs.Selection.{selects};
ghost use Rattle.fixed_order.specs.Selection.{pkgs_of};

use crate::configure::configures;
use crate::members::Members;
use crate::problem::Problem;
use crate::purge::purges;
use crate::removal::removals;
use crate::selection::selected_pairs;
use crate::unpack::{stanzas_of, take_all, to_unpack, unpacks_of};
use index::IndexPackage;
use plancheck_state::{Records, try_copy};
use rules::Step;
use std::alloc::{AllocError, Global};
use universe::{Pair, Universe};

// The steps of the four phases, one phase after another.
fn join_phases(
    unpacks: Vec<Step>,
    removals: Vec<Step>,
    configures: Vec<Step>,
    purges: Vec<Step>,
) -> Result<Vec<Step>, AllocError>
    ensures { IfOk result
        (λ steps. steps.items ≡ unpacks.items
        ++ (removals.items ++ (configures.items ++ purges.items))) }
{
    let mut steps = unpacks;
    let mut removals = removals;
    let mut configures = configures;
    let mut purges = purges;
    steps.append(&mut removals)?;
    steps.append(&mut configures)?;
    steps.append(&mut purges)?;
    Ok(steps)
}

// The steps that begin with these unpacks, whose stanzas are read already.
fn steps_on<'p, 'a>(
    problem: &Problem<'_, '_, 'p, 'a>,
    unpacks: Vec<Step>,
    stanzas: &'p [Option<IndexPackage<'a>>],
) -> Result<Vec<Step>, AllocError>
    requires problem { IsProblem problem.now }
    requires unpacks { unpacks.items
        ≡ map unpack_of (to_unpack problem.now.start.now (members_in problem.now)) }
    requires stanzas { stanzas.now ≡ map (listed_for problem.now.universe.now) unpacks.items }
    ensures { IfOk result
        (λ steps. IsInFixedOrder problem.now.universe.now problem.now.start.now
        (members_in problem.now) steps.items) }
{
    let records = try_copy(problem.alloc, problem.start.as_slice())?;
    let mut db = Records::new(problem.alloc, records)?;
    take_all(&mut db, problem.universe, unpacks.as_slice(), stanzas)?;
    let removals = removals(problem, &mut db)?;
    let configures = configures(problem, &mut db)?;
    let purges = purges(problem.alloc, &db, problem.universe)?;
    let steps = join_phases(unpacks, removals, configures, purges)?;
    Ok(steps)
}

// The steps that begin with these unpacks, for which a table of the selected names is made.
fn steps_with<'p, 'a>(
    alloc: Global,
    start: &Records<'p, 'a>,
    universe: &Universe<'_, 'a>,
    selection: &[u32],
    pairs: &[&Pair<'_, 'a>],
    unpacks: Vec<Step>,
    stanzas: &'p [Option<IndexPackage<'a>>],
) -> Result<Vec<Step>, AllocError>
    requires change { IsPlainChange universe.now start.now (selects selection.now) }
    requires start_names { HasNames start.now }
    requires pair_names { HasPairNames universe.now }
    requires pairs { pkgs_of pairs.now ≡ selected universe.now (selects selection.now) }
    requires unpacks { unpacks.items
        ≡ map unpack_of (to_unpack start.now (selected universe.now (selects selection.now))) }
    requires stanzas { stanzas.now ≡ map (listed_for universe.now) unpacks.items }
    ensures { IfOk result
        (λ steps. IsInFixedOrder universe.now start.now
        (selected universe.now (selects selection.now)) steps.items) }
{
    let members = Members::of_pairs(alloc, pairs)?;
    let problem = Problem {
        alloc,
        start,
        universe,
        selection,
        members: &members,
    };
    let steps = steps_on(&problem, unpacks, stanzas)?;
    Ok(steps)
}

/// The steps of the plain change from this start to the pairs of these numbers, counted from 1, in its fixed order: unpacks by
/// name, removals, configures of least groups, purges by name. They are a run to a good end at which just the selected packages
/// are installed, as `plain::plain_change_is_ordered` says. Memory alone can fail. Of the stanzas of the universe those that
/// are unpacked are read.
pub fn fixed_order<'p, 'a>(
    alloc: Global,
    start: &Records<'p, 'a>,
    universe: &Universe<'_, 'a>,
    selection: &[u32],
) -> Result<Vec<Step>, AllocError>
    requires change { IsPlainChange universe.now start.now (selects selection.now) }
    requires start_names { HasNames start.now }
    requires pair_names { HasPairNames universe.now }
    ensures { IfOk result
        (λ steps. IsInFixedOrder universe.now start.now
        (selected universe.now (selects selection.now)) steps.items) }
{
    let pairs = selected_pairs(alloc, universe, selection)?;
    let away = to_unpack(alloc, start, pairs.as_slice())?;
    let unpacks = unpacks_of(alloc, away.as_slice())?;
    let stanzas = stanzas_of(alloc, universe, away.as_slice())?;
    let steps = steps_with(
        alloc,
        start,
        universe,
        selection,
        pairs.as_slice(),
        unpacks,
        stanzas.as_slice(),
    )?;
    Ok(steps)
}
