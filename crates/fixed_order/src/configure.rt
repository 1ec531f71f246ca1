// The third phase: the least group that may be configured is configured, until there is none. It is the first name that passes
// alone, unless names before it pass together; then it is found from a group that passes: names are looked at from the greatest
// down, and each is left out where some of the others still pass without it (Policy 7.2 and 7.3).

ghost use Rattle.std.specs.Prelude.{◌≡◌, ◌↔◌, ◌∷◌, [], ℕ, List, true, IfOk, IsTrue, MatchOption, OnOk};
ghost use Rattle.std.specs.List.{All, Contains};
ghost use Rattle.std.specs.Option.{option_copied};
ghost use Rattle.rules.specs.Configure.{IsGreatestPart, IsIndivisible, others_of};
ghost use Rattle.plancheck_group.specs.Part.{IsPartWith};
ghost use Rattle.plain.specs.Change.{HasNothingToRemove};
ghost use Rattle.plain.specs.Order.{AreConfigures, IsConfigurableGroup, IsLeastGroup, after_all};
ghost use Rattle.plain.specs.Walk.{IsOnWalk};
ghost use Rattle.fixed_order.specs.Problem.{IsProblem, IsUnderwayOn, members_in};
ghost use Rattle.fixed_order.specs.Alone.{IsFirstWith, MayPass, NoneIsBroken, PassesAlone, is_below};
ghost use Rattle.fixed_order.specs.Waiting.{IsWaitingIn};
ghost use Rattle.fixed_order.specs.Selection.{marked};
ghost use Rattle.fixed_order.specs.Walked.{IsBeginning, IsFalling, IsWalkedTo};

use crate::key::{Key, from_greatest};
use crate::marks::{have_what_they_ask, is_marked};
use crate::problem::Problem;
use crate::turn::copies;
use crate::waiting::Waiting;
use plancheck::apply;
use plancheck_group::{are_configurable, greatest_part, is_indivisible};
use plancheck_state::{Records, is_same};
use rules::{Name, Names, Step};
use std::alloc::{AllocError, Global};
use std::slice::from_ref;

// Whether the name passes alone. In a plain change nothing breaks it, so that isn't asked.
fn passes_alone(db: &Records<'_, '_>, name: &Name) -> bool
    requires { NoneIsBroken db.now }
    ensures { IsTrue result ↔ PassesAlone db.now name.now }
{
    have_what_they_ask(db, from_ref(name))
}

// The same of the name at the place, of which nothing is asked where it isn't marked though that is known.
fn passes_at(db: &Records<'_, '_>, waiting: &Waiting<'_>, place: usize, name: &Name) -> bool
    requires unbroken { NoneIsBroken db.now }
    requires marked { waiting.now.is_known ≡ true → PassesAlone db.now name.now
        → marked waiting.now.marks.items place ≡ true }
    ensures { IsTrue result ↔ PassesAlone db.now name.now }
{
    if waiting.is_known && !is_marked(waiting.marks.as_slice(), place) {
        return false;
    }
    passes_alone(db, name)
}

// The place of the first name that passes alone, or the end.
fn first_alone(db: &Records<'_, '_>, waiting: &Waiting<'_>, names: &[Name]) -> usize
    requires unbroken { NoneIsBroken db.now }
    requires waiting { IsWaitingIn db.now waiting.now }
    requires names { names.now ≡ waiting.now.names.items }
    ensures { IsFirstWith (PassesAlone db.now) names.now result }
{
    for place in 0..names.len() {
        if passes_at(db, waiting, place, &names[place]) {
            return place;
        }
    }
    names.len()
}

// Whether the name is below the bound, if there is one.
fn is_below(name: &Name, bound: Option<&Name>) -> bool
    ensures { result ≡ is_below (option_copied bound.entry) name.now }
{
    match bound {
        Some(bound) => name.as_bytes().cmp(bound.as_bytes()).is_lt(),
        None => true,
    }
}

// Whether the name is below the bound, if there is one, and its record may be configured.
#[tactic(auto, unfolding(crate::specs::Alone::MayPass))]
fn may_pass(db: &Records<'_, '_>, name: &Name, bound: Option<&Name>) -> bool
    ensures { IsTrue result ↔ MayPass db.now (option_copied bound.entry) name.now }
{
    is_below(name, bound) && are_configurable(db, from_ref(name))
}

// Those of the names, copied.
fn lower_names(
    alloc: Global,
    db: &Records<'_, '_>,
    names: &[Name],
    bound: Option<&Name>,
) -> Result<Vec<Name>, AllocError>
    ensures { IfOk result
        (λ lower. IsPartWith (MayPass db.now (option_copied bound.entry)) names.now lower.items) }
{
    let mut lower = Vec::new(alloc);
    for name in names {
        if may_pass(db, name, bound) {
            lower.push(name.try_copy(alloc)?)?;
        }
    }
    Ok(lower)
}

// The greatest part of the names, which are below the bound. Of those that were configured nothing is asked.
fn part_below(
    alloc: Global,
    db: &Records<'_, '_>,
    names: &[Name],
    bound: Option<&Name>,
) -> Result<Vec<Name>, AllocError>
    requires { All (λ name. is_below (option_copied bound) name ≡ true) names.now }
    ensures { IfOk result (λ part. IsGreatestPart db.now names.now part.items) }
{
    let lower = lower_names(alloc, db, names, bound)?;
    let part = greatest_part(alloc, db, lower.as_slice())?;
    Ok(part)
}

// The greatest part of the names below the bound, of which none passes alone: it's something only where a part of the rings
// passes.
fn lower_group(
    alloc: Global,
    db: &Records<'_, '_>,
    waiting: &Waiting<'_>,
    before: &[Name],
    bound: Option<&Name>,
) -> Result<Vec<Name>, AllocError>
    requires waiting { IsWaitingIn db.now waiting.now }
    requires alone { All (λ name. ¬ PassesAlone db.now name) before.now }
    requires below { All (λ name. is_below (option_copied bound) name ≡ true) before.now }
    ensures { IfOk result (λ group. IsGreatestPart db.now before.now group.items) }
{
    let rings = waiting.rings.names.as_slice();
    if rings.len() == waiting.names.len() {
        let all = part_below(alloc, db, before, bound)?;
        return Ok(all);
    }
    let lower = lower_names(alloc, db, rings, bound)?;
    let some = greatest_part(alloc, db, lower.as_slice())?;
    if some.is_empty() {
        return Ok(some);
    }
    let group = part_below(alloc, db, before, bound)?;
    Ok(group)
}

// The name alone.
fn alone(alloc: Global, name: &Name) -> Result<Vec<Name>, AllocError>
    ensures { IfOk result (λ names. names.items ≡ name.now ∷ []) }
{
    let mut names = Vec::new(alloc);
    names.push(name.try_copy(alloc)?)?;
    Ok(names)
}

// A group from which the walk can begin: what passes of the names before the first that passes alone, if it is something, or
// else that one. It is nothing where no group may be configured.
fn first_group(
    alloc: Global,
    db: &Records<'_, '_>,
    waiting: &Waiting<'_>,
) -> Result<Vec<Name>, AllocError>
    requires waiting { IsWaitingIn db.now waiting.now }
    requires unbroken { NoneIsBroken db.now }
    ensures { IfOk result (λ group. IsBeginning db.now group.items) }
{
    let names = waiting.names.as_slice();
    let place = first_alone(db, waiting, names);
    let (before, rest) = names.split_at(place);
    let bound = rest.first();
    let group = lower_group(alloc, db, waiting, before, bound)?;
    if !group.is_empty() {
        return Ok(group);
    }
    match bound {
        Some(name) => {
            let one = alone(alloc, name)?;
            Ok(one)
        }
        None => Ok(group),
    }
}

// Whether the name is one of these.
fn has(names: &[Name], name: &[u8]) -> bool
    ensures { IsTrue result ↔ Contains names.now name.now }
{
    names.iter().any(|other| is_same(other.as_bytes(), name))
}

// The names but for this one.
fn others_of(alloc: Global, names: &[Name], name: &[u8]) -> Result<Vec<Name>, AllocError>
    ensures { IfOk result (λ others. others.items ≡ others_of name.now names.now) }
{
    let mut others = Vec::new(alloc);
    for other in names {
        if other.as_bytes() != name {
            others.push(other.try_copy(alloc)?)?;
        }
    }
    Ok(others)
}

// A group that passes, and those of its names that are kept: the greatest ones.
#[derive(Drop)]
struct Walk {
    kept: Vec<Name>,
    group: Vec<Name>,
}

// The greatest part of the group's names but for this one. It is nothing where no part of the group passes.
fn part_without(
    alloc: Global,
    db: &Records<'_, '_>,
    whole: bool,
    group: &[Name],
    key: &Key<'_>,
) -> Result<Vec<Name>, AllocError>
    requires within { Contains group.now key.now }
    requires whole { whole ≡ true → IsIndivisible db.now group.now }
    ensures part { IfOk result
        (λ part. IsGreatestPart db.now (others_of key.now group.now) part.items) }
    ensures none { IfOk result (λ part. whole ≡ true → part.items ≡ []) }
{
    if whole {
        return Ok(Vec::new(alloc));
    }
    let others = others_of(alloc, group, key.name())?;
    let part = greatest_part(alloc, db, others.as_slice())?;
    Ok(part)
}

// Keeps the name, or leaves it out where some of the others pass without it; none do where no part of the group passes.
fn keep_or_leave(
    alloc: Global,
    db: &Records<'_, '_>,
    walk: &mut Walk,
    whole: bool,
    key: &Key<'_>,
) -> Result<(), AllocError>
    requires within { Contains walk.old.group.items key.now }
    requires whole { whole ≡ true → IsIndivisible db.now walk.old.group.items }
    ensures walked { OnOk result
        ((left : List (List ℕ))
        → IsWalkedTo db.now (key.now ∷ left) walk.old.kept.items walk.old.group.items
        → IsWalkedTo db.now left walk.new.kept.items walk.new.group.items) }
    ensures whole { OnOk result (whole ≡ true → IsIndivisible db.now walk.new.group.items) }
{
    let part = part_without(alloc, db, whole, walk.group.as_slice(), key)?;
    if part.is_empty() {
        walk.kept.insert(0, key.try_name(alloc)?)?;
        return Ok(());
    }
    walk.group = part;
    Ok(())
}

// One step of the walk: the name is looked at, if it is of the group.
fn walk_on(
    alloc: Global,
    db: &Records<'_, '_>,
    walk: &mut Walk,
    whole: bool,
    key: &Key<'_>,
) -> Result<(), AllocError>
    requires { whole ≡ true → IsIndivisible db.now walk.old.group.items }
    ensures walked { OnOk result
        ((left : List (List ℕ))
        → IsWalkedTo db.now (key.now ∷ left) walk.old.kept.items walk.old.group.items
        → IsWalkedTo db.now left walk.new.kept.items walk.new.group.items) }
    ensures whole { OnOk result (whole ≡ true → IsIndivisible db.now walk.new.group.items) }
{
    if !has(walk.group.as_slice(), key.name()) {
        return Ok(());
    }
    keep_or_leave(alloc, db, walk, whole, key)
}

// The least group that is among the parts of this one, which passes; the names are looked at from the greatest down. Where no
// part passes, which is asked once, none is asked for.
fn least_group_among(
    problem: &Problem<'_, '_, '_, '_>,
    db: &Records<'_, '_>,
    down: &[Key<'_>],
    whole: bool,
    group: &[Name],
) -> Result<Names, AllocError>
    requires falls { IsFalling group.now down.now }
    requires walk { IsOnWalk db.now [] group.now }
    requires whole { whole ≡ true → IsIndivisible db.now group.now }
    ensures { IfOk result (IsLeastGroup problem.now.universe.now db.now) }
{
    let copied = copies(problem.alloc, group)?;
    let mut walk = Walk {
        kept: Vec::new(problem.alloc),
        group: copied,
    };
    for key in down {
        walk_on(problem.alloc, db, &mut walk, whole, key)?;
    }
    Ok(Names::new(walk.kept))
}

// Whether no part of the group passes, as far as that is asked: a group with more names than a ring has such a part, or isn't
// worth the test.
fn is_whole(
    alloc: Global,
    db: &Records<'_, '_>,
    most: usize,
    group: &[Name],
) -> Result<bool, AllocError>
    ensures { IfOk result (λ whole. whole ≡ true → IsIndivisible db.now group.now) }
{
    if group.len() > most {
        return Ok(false);
    }
    let whole = is_indivisible(alloc, db, group)?;
    Ok(whole)
}

// The least group that may be configured, if there is one.
fn least_group<'p, 'a>(
    problem: &Problem<'_, '_, 'p, 'a>,
    db: &Records<'p, 'a>,
    waiting: &Waiting<'a>,
) -> Result<Option<Names>, AllocError>
    requires waiting { IsWaitingIn db.now waiting.now }
    requires unbroken { NoneIsBroken db.now }
    ensures { IfOk result (λ group. MatchOption group
        ((names : List (List ℕ)) → ¬ IsConfigurableGroup problem.now.universe.now db.now names)
        (IsLeastGroup problem.now.universe.now db.now)) }
{
    let group = first_group(problem.alloc, db, waiting)?;
    if group.is_empty() {
        return Ok(None);
    }
    let names = group.as_slice();
    let whole = is_whole(problem.alloc, db, waiting.rings.most, names)?;
    let down = from_greatest(problem.alloc, names)?;
    let least = least_group_among(problem, db, down.as_slice(), whole, names)?;
    Ok(Some(least))
}

// Takes the configures, and answers them.
fn configures_of<'p, 'a>(
    problem: &Problem<'_, '_, 'p, 'a>,
    db: &mut Records<'p, 'a>,
    waiting: Waiting<'a>,
) -> Result<Vec<Step>, AllocError>
    requires problem { IsProblem problem.now }
    requires waiting { IsWaitingIn db.old waiting }
    requires underway { IsUnderwayOn problem.now db.old }
    requires nothing { HasNothingToRemove (members_in problem.now) db.old }
    ensures configures { IfOk result
        (λ steps. AreConfigures problem.now.universe.now db.old steps.items) }
    ensures after { IfOk result
        (λ steps. db.new ≡ after_all problem.now.universe.now db.old steps.items) }
{
    let mut waiting = waiting;
    let mut steps = Vec::new(problem.alloc);
    while let Some(names) = least_group(problem, db, &waiting)? {
        let places = waiting.askers.of_group(names.as_slice())?;
        let step = Step::Configure(names);
        apply(db, problem.universe, None, &step)?;
        waiting.mark_anew(db, places.as_slice());
        steps.push(step)?;
    }
    Ok(steps)
}

/// Takes the configures, and answers them. For each, the first name that passes alone is looked for among the marks, and then the
/// names that ask for one of its group are tested again; where names may ask for one another in turn it costs what
/// `plancheck_group::greatest_part` does of those of them that come before that one; only where some of these pass a walk over the
/// group is made, which costs as much again for each name of a group that is no least one. Memory alone can fail.
pub(crate) fn configures<'p, 'a>(
    problem: &Problem<'_, '_, 'p, 'a>,
    db: &mut Records<'p, 'a>,
) -> Result<Vec<Step>, AllocError>
    requires problem { IsProblem problem.now }
    requires underway { IsUnderwayOn problem.now db.old }
    requires nothing { HasNothingToRemove (members_in problem.now) db.old }
    ensures configures { IfOk result
        (λ steps. AreConfigures problem.now.universe.now db.old steps.items) }
    ensures after { IfOk result
        (λ steps. db.new ≡ after_all problem.now.universe.now db.old steps.items) }
{
    let waiting = Waiting::read(problem, db)?;
    let steps = configures_of(problem, db, waiting)?;
    Ok(steps)
}
