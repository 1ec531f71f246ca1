// The premises of a refutation as members.
ghost use Rattle.std.specs.Prelude.{◌≡◌, IfOk, OnOk};
ghost use Rattle.serde_json.specs.View.{members_view};
ghost use Rattle.json_answers.specs.Objects.{with_number};
ghost use Rattle.json_answers.specs.Premises as Spec;

use crate::members::Members;
use crate::pairs::pair_value;
use crate::texts::{put_text, text_value};
use refutation::Premise;
use serde_json::Value;
use std::alloc::{AllocError, Global};
use universe::Universe;

/// The word that the line of a premise begins with.
pub(crate) fn premise_word(premise: &Premise) -> &'static str
    ensures { result.now ≡ Spec.premise_word premise.now }
{
    match premise {
        Premise::Same(_, _) => "same",
        Premise::PreDepends(_, _) => "predepends",
        Premise::Depends(_, _) => "depends",
        Premise::Conflicts(_, _) => "conflicts",
        Premise::Breaks(_, _) => "breaks",
        Premise::Goal(_) | Premise::GoalOn(_, _) => "goal",
        Premise::Hold(_) => "hold",
        Premise::Essential(_) => "essential",
        Premise::Keep(_) => "keep",
    }
}

// Puts the object of a pair.
fn put_pair(
    alloc: Global,
    universe: &Universe<'_, '_>,
    members: &mut Members,
    number: u32,
) -> Result<(), AllocError>
    ensures { OnOk result (members_view members.new.map.entries
        ≡ Spec.with_pair universe.now number (members_view members.old.map.entries)) }
{
    members.put(alloc, "pair", pair_value(alloc, universe, number)?)
}

// Puts the objects of two pairs.
fn put_pairs(
    alloc: Global,
    universe: &Universe<'_, '_>,
    members: &mut Members,
    number: u32,
    other: u32,
) -> Result<(), AllocError>
    ensures { OnOk result (members_view members.new.map.entries
        ≡ Spec.with_pairs universe.now number other (members_view members.old.map.entries)) }
{
    put_pair(alloc, universe, members, number)?;
    members.put(alloc, "other", pair_value(alloc, universe, other)?)
}

// Puts a number.
fn put_number(
    alloc: Global,
    members: &mut Members,
    key: &str,
    number: u32,
) -> Result<(), AllocError>
    ensures { OnOk result (members_view members.new.map.entries
        ≡ with_number key.now number (members_view members.old.map.entries)) }
{
    members.put(alloc, key, Value::from(number))
}

/// Puts what the premise names: pairs, the number of a clause or of a goal, or a name. Memory alone can fail.
pub(crate) fn put_named(
    alloc: Global,
    universe: &Universe<'_, '_>,
    members: &mut Members,
    premise: &Premise,
) -> Result<(), AllocError>
    ensures { OnOk result (members_view members.new.map.entries
        ≡ Spec.with_named universe.now premise.now (members_view members.old.map.entries)) }
{
    match premise {
        Premise::Same(pair, other)
        | Premise::Conflicts(pair, other)
        | Premise::Breaks(pair, other) => put_pairs(alloc, universe, members, *pair, *other),
        Premise::PreDepends(pair, clause) | Premise::Depends(pair, clause) => {
            put_pair(alloc, universe, members, *pair)?;
            put_number(alloc, members, "clause", *clause)
        }
        Premise::Goal(goal) => put_number(alloc, members, "goal", *goal),
        Premise::GoalOn(goal, pair) => {
            put_pair(alloc, universe, members, *pair)?;
            put_number(alloc, members, "goal", *goal)
        }
        Premise::Hold(pair) => put_pair(alloc, universe, members, *pair),
        Premise::Essential(name) | Premise::Keep(name) => {
            members.put(alloc, "name", text_value(alloc, name.as_bytes())?)
        }
    }
}

/// Puts the word of the premise and what it names. Memory alone can fail.
pub(crate) fn put_premise(
    alloc: Global,
    universe: &Universe<'_, '_>,
    members: &mut Members,
    premise: &Premise,
) -> Result<(), AllocError>
    ensures { OnOk result (members_view members.new.map.entries
        ≡ Spec.with_word universe.now premise.now (members_view members.old.map.entries)) }
{
    put_text(alloc, members, "premise", premise_word(premise))?;
    put_named(alloc, universe, members, premise)
}
