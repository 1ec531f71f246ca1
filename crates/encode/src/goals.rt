// What goals ask for (after apt-get(8)).

ghost use Rattle.std.specs.Prelude.{◌≡◌, ◌↔◌, ◌+◌, ℕ, Bool, List, Some, IfOk, IsTrue, MatchOption, OnOk};
ghost use Rattle.std.specs.List.{Contains, slice_get};
ghost use Rattle.std.specs.Option.{option_copied};
ghost use Rattle.std.specs.declared.cmp.Ordering.TheVariants.{Less};
ghost use Rattle.rules.specs.Universe.{IsOf, candidate_of};
ghost use Rattle.rules.specs.Version.{version_cmp};
ghost use Rattle.refutation.specs.Clause.{HasAt, IsListOf, item_at};
ghost use Rattle.refutation.specs.Premise.{AsksForMember, IsInPremise, IsPremise, PairHas, Selects};
ghost use Rattle.refutation.specs.declared.line.Premise.TheVariants as premise;
ghost use Rattle.refutation.specs.declared.literal.Literal.{Literal as LiteralValue};
ghost use Rattle.encode.specs.Goals.{IsOnEach, IsRemovalOf, IsUpgradeBy, IsUpgradeOf, said};
ghost use Rattle.encode.specs.Growing.{Grows, IsGoalAsked, IsOfGoal};
ghost use Rattle.encode.specs.Numbers.{AreNumbersOf};

use crate::basis::Basis;
use crate::encoding::Encoding;
use crate::facts::{Facts, number_at};
use crate::literals::{alone, some_asked};
use crate::query::Query;
use debversion::Version;
use refutation::Literal;
use rules::Goal;
use std::alloc::AllocError;
use universe::Start;

// That the pair is selected, or that it isn't.
fn literal_of(is_selected: bool, pair: u32) -> Literal
    ensures { result ≡ said is_selected pair }
{
    if is_selected {
        Literal::Selected(pair)
    } else {
        Literal::Unselected(pair)
    }
}

// What a goal says of one pair.
fn add_on<'a>(
    facts: &Facts<'_, '_, '_, 'a>,
    encoding: &mut Encoding<'a>,
    number: u32,
    pair: u32,
    is_selected: bool,
) -> Result<(), AllocError>
    requires { (item : LiteralValue) → IsInPremise facts.now (premise.GoalOn number pair) item
        ↔ (item ≡ said is_selected pair) }
    ensures { OnOk result
        (Grows facts.now encoding.old encoding.new (λ item. item ≡ premise.GoalOn number pair)) }
{
    let literals = alone(facts.alloc(), literal_of(is_selected, pair))?;
    encoding.add(facts, Basis::GoalOn(number, pair), literals.as_slice())
}

// What a goal says of each of these pairs.
fn add_on_each<'a>(
    facts: &Facts<'_, '_, '_, 'a>,
    encoding: &mut Encoding<'a>,
    number: u32,
    pairs: &[u32],
    is_selected: bool,
) -> Result<(), AllocError>
    requires { (pair : ℕ) (item : LiteralValue)
        → IsInPremise facts.now (premise.GoalOn number pair) item ↔ (item ≡ said is_selected pair) }
    ensures { OnOk result (Grows facts.now encoding.old encoding.new (IsOnEach number pairs.now)) }
{
    for pair in pairs {
        add_on(facts, encoding, number, *pair, is_selected)?;
    }
    Ok(())
}

// The literals that the candidate of the name is selected, if it is admitted.
fn candidate_selected(
    facts: &Facts<'_, '_, '_, '_>,
    name: &[u8],
) -> Result<Vec<Literal>, AllocError>
    ensures { IfOk result (λ literals. IsListOf (Selects facts.now
        (λ pkg. MatchOption (candidate_of facts.now name.now) ⊥
        (λ candidate. IsOf name.now candidate pkg))) literals.items) }
{
    match facts.part().candidate(name) {
        None => Ok(Vec::new(facts.alloc())),
        Some(version) => {
            let literals = some_asked(facts, Query::InVersion(name, version))?;
            Ok(literals)
        }
    }
}

// The candidate of what stands, if it is higher.
fn higher<'k, 'a>(
    standing: Option<&Version<'a>>,
    candidate: Option<&'k Version<'a>>,
) -> Option<&'k Version<'a>>
    ensures { MatchOption result
        ((lower higher : List ℕ) → option_copied standing.entry ≡ Some lower
        → option_copied candidate.entry ≡ Some higher
        → ¬ (version_cmp lower higher ≡ Less))
        (λ version. (lower : List ℕ) × (option_copied standing.entry ≡ Some lower)
        × (option_copied candidate.entry ≡ Some version.now)
        × (version_cmp lower version.now ≡ Less)) }
{
    match (standing, candidate) {
        (Some(lower), Some(higher)) if lower.cmp(higher).is_lt() => Some(higher),
        _ => None,
    }
}

// The pairs that an upgrade of all asks for in place of what the start says of a name.
fn upgrades_of(facts: &Facts<'_, '_, '_, '_>, start: &Start<'_>) -> Result<Vec<u32>, AllocError>
    ensures { IfOk result
        (λ pairs. (pair : ℕ) → Contains pairs.items pair ↔ IsUpgradeOf facts.now start.now pair) }
{
    if start.is_held() {
        return Ok(Vec::new(facts.alloc()));
    }
    match higher(start.standing(), facts.part().candidate(start.name())) {
        None => Ok(Vec::new(facts.alloc())),
        Some(version) => {
            let pairs = facts.numbers_of(Query::InVersion(start.name(), version))?;
            Ok(pairs)
        }
    }
}

// What an upgrade of all asks for in place of what the start says of one name.
fn add_upgrades_of<'a>(
    facts: &Facts<'_, '_, '_, 'a>,
    encoding: &mut Encoding<'a>,
    number: u32,
    start: &Start<'a>,
) -> Result<(), AllocError>
    requires { item_at facts.now.goals number ≡ Some Goal.UpgradeAll }
    ensures { OnOk result
        (Grows facts.now encoding.old encoding.new (IsUpgradeBy facts.now number start.now)) }
{
    let pairs = upgrades_of(facts, start)?;
    add_on_each(facts, encoding, number, pairs.as_slice(), true)?;
    Ok(())
}

// What an upgrade of all asks for.
fn add_upgrades<'a>(
    facts: &Facts<'_, '_, '_, 'a>,
    encoding: &mut Encoding<'a>,
    number: u32,
) -> Result<(), AllocError>
    requires { item_at facts.now.goals number ≡ Some Goal.UpgradeAll }
    ensures { OnOk result
        (Grows facts.now encoding.old encoding.new
        (λ reason. IsPremise facts.now reason × IsOfGoal number reason)) }
{
    let starts = facts.part().starts();
    for start in starts {
        add_upgrades_of(facts, encoding, number, start)?;
    }
    Ok(())
}

// That no pair of the name is selected.
fn add_removal<'a>(
    facts: &Facts<'_, '_, '_, 'a>,
    encoding: &mut Encoding<'a>,
    number: u32,
    name: &[u8],
) -> Result<(), AllocError>
    requires { IsRemovalOf facts.now.goals number name.now }
    ensures { OnOk result
        (Grows facts.now encoding.old encoding.new
        (λ reason. IsPremise facts.now reason × IsOfGoal number reason)) }
{
    let pairs = facts.numbers_of(Query::Named(name))?;
    add_on_each(facts, encoding, number, pairs.as_slice(), false)?;
    Ok(())
}

// That one of these pairs is selected.
fn add_asked<'a>(
    facts: &Facts<'_, '_, '_, 'a>,
    encoding: &mut Encoding<'a>,
    number: u32,
    literals: &[Literal],
) -> Result<(), AllocError>
    requires asks { HasAt facts.now.goals number AsksForMember }
    requires literals { IsListOf (IsInPremise facts.now (premise.Goal number)) literals.now }
    ensures { OnOk result
        (Grows facts.now encoding.old encoding.new
        (λ reason. IsPremise facts.now reason × IsOfGoal number reason)) }
{
    encoding.add(facts, Basis::Goal(number), literals)?;
    Ok(())
}

// What the goal of a number asks for.
fn add_goal<'a>(
    facts: &Facts<'_, '_, '_, 'a>,
    encoding: &mut Encoding<'a>,
    number: u32,
    goal: &Goal,
) -> Result<(), AllocError>
    requires { item_at facts.now.goals number ≡ Some goal.now }
    ensures { OnOk result
        (Grows facts.now encoding.old encoding.new
        (λ reason. IsPremise facts.now reason × IsOfGoal number reason)) }
{
    match goal {
        Goal::Install(name, restriction) => {
            let literals = some_asked(facts, Query::Meeting(name.as_bytes(), restriction))?;
            add_asked(facts, encoding, number, literals.as_slice())
        }
        Goal::Upgrade(name) => {
            let literals = candidate_selected(facts, name.as_bytes())?;
            add_asked(facts, encoding, number, literals.as_slice())
        }
        Goal::Remove(name) => add_removal(facts, encoding, number, name.as_bytes()),
        Goal::Purge(name) => add_removal(facts, encoding, number, name.as_bytes()),
        Goal::UpgradeAll => add_upgrades(facts, encoding, number),
        Goal::NoRemove => Ok(()),
    }
}

/// What each goal asks for, goal by goal. Memory alone can fail. A goal costs what `Facts::numbers_of` says of its name, and an
/// upgrade of all that for each name of the start.
pub(crate) fn add_goals<'a>(
    facts: &Facts<'_, '_, '_, 'a>,
    encoding: &mut Encoding<'a>,
) -> Result<(), AllocError>
    ensures { OnOk result
        (Grows facts.now encoding.old encoding.new
        (λ reason. IsPremise facts.now reason × IsGoalAsked reason)) }
{
    let goals = facts.part().goals();
    for (place, goal) in goals.iter().enumerate() {
        let number = number_at(place)?;
        add_goal(facts, encoding, number, goal)?;
    }
    Ok(())
}
