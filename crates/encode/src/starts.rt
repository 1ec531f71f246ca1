// What the start asks for: held names, essential ones, and where nothing is to be removed those that stand (dpkg(1),
// Policy 3.8).

ghost use Rattle.std.specs.Prelude.{◌≡◌, ◌↔◌, ⊤, ℕ, IfOk, IsTrue, MatchOption, OnOk};
ghost use Rattle.std.specs.List.{Contains};
ghost use Rattle.rules.specs.Version.{SameVersion};
ghost use Rattle.rules.specs.declared.goal.Goal.TheVariants as goal;
ghost use Rattle.refutation.specs.Premise.{IsPremise, PairHas};
ghost use Rattle.refutation.specs.declared.line.Premise.TheVariants as premise;
ghost use Rattle.encode.specs.Growing.{Grows, IsOfStart};
ghost use Rattle.encode.specs.Starts.{IsEssentialBy, IsHeldBy, IsHoldBy, IsHoldEach, IsKeepBy, IsSaidBy};

use crate::basis::Basis;
use crate::encoding::Encoding;
use crate::facts::Facts;
use crate::literals::{alone, some_asked};
use crate::query::Query;
use refutation::Literal;
use rules::Goal;
use std::alloc::AllocError;
use universe::Start;

// That each of these pairs is selected, which are versions that stand of held names.
fn add_holds<'a>(
    facts: &Facts<'_, '_, '_, 'a>,
    encoding: &mut Encoding<'a>,
    pairs: &[u32],
) -> Result<(), AllocError>
    ensures { OnOk result (Grows facts.now encoding.old encoding.new (IsHoldEach pairs.now)) }
{
    for pair in pairs {
        let literals = alone(facts.alloc(), Literal::Selected(*pair))?;
        encoding.add(facts, Basis::Hold(*pair), literals.as_slice())?;
    }
    Ok(())
}

// The pairs of the version that stands, where the name is held.
fn held_pairs(facts: &Facts<'_, '_, '_, '_>, start: &Start<'_>) -> Result<Vec<u32>, AllocError>
    ensures { IfOk result
        (λ pairs. (pair : ℕ) → Contains pairs.items pair
        ↔ PairHas facts.now pair (IsHeldBy start.now)) }
{
    match start.standing() {
        Some(version) if start.is_held() => {
            let pairs = facts.numbers_of(Query::InVersion(start.name(), version))?;
            Ok(pairs)
        }
        _ => Ok(Vec::new(facts.alloc())),
    }
}

// That a held name keeps its version.
fn add_hold<'a>(
    facts: &Facts<'_, '_, '_, 'a>,
    encoding: &mut Encoding<'a>,
    start: &Start<'a>,
) -> Result<(), AllocError>
    ensures { OnOk result
        (Grows facts.now encoding.old encoding.new (IsHoldBy facts.now start.now)) }
{
    let pairs = held_pairs(facts, start)?;
    add_holds(facts, encoding, pairs.as_slice())?;
    Ok(())
}

// That the essential name has a member.
fn add_needed<'a>(
    facts: &Facts<'_, '_, '_, 'a>,
    encoding: &mut Encoding<'a>,
    name: &'a [u8],
) -> Result<(), AllocError>
    ensures { OnOk result
        (Grows facts.now encoding.old encoding.new
        (λ reason. reason ≡ premise.Essential name.now)) }
{
    let literals = some_asked(facts, Query::Named(name))?;
    encoding.add(facts, Basis::Essential(name), literals.as_slice())
}

// Whether the name is essential and was present.
fn is_needed(start: &Start<'_>) -> bool
    ensures { IsTrue result ↔ (IsTrue start.now.is_essential × IsTrue start.now.is_present) }
{
    start.is_essential() && start.is_present()
}

// That an essential name which was present has a member.
fn add_essential<'a>(
    facts: &Facts<'_, '_, '_, 'a>,
    encoding: &mut Encoding<'a>,
    start: &Start<'a>,
) -> Result<(), AllocError>
    ensures { OnOk result (Grows facts.now encoding.old encoding.new (IsEssentialBy start.now)) }
{
    if is_needed(start) {
        add_needed(facts, encoding, start.name())?;
        return Ok(());
    }
    Ok(())
}

// That the name has a member.
fn add_kept<'a>(
    facts: &Facts<'_, '_, '_, 'a>,
    encoding: &mut Encoding<'a>,
    name: &'a [u8],
) -> Result<(), AllocError>
    ensures { OnOk result
        (Grows facts.now encoding.old encoding.new (λ reason. reason ≡ premise.Keep name.now)) }
{
    let literals = some_asked(facts, Query::Named(name))?;
    encoding.add(facts, Basis::Keep(name), literals.as_slice())
}

// Whether the name stands.
fn stands(start: &Start<'_>) -> bool
    ensures { IsTrue result ↔ MatchOption start.now.standing ⊥ (λ _. ⊤) }
{
    start.standing().is_some()
}

// That a name which stands has a member, where nothing is to be removed.
fn add_keep<'a>(
    facts: &Facts<'_, '_, '_, 'a>,
    encoding: &mut Encoding<'a>,
    keeps: bool,
    start: &Start<'a>,
) -> Result<(), AllocError>
    requires { IsTrue keeps ↔ Contains facts.now.goals goal.NoRemove }
    ensures { OnOk result
        (Grows facts.now encoding.old encoding.new (IsKeepBy facts.now start.now)) }
{
    if !keeps {
        return Ok(());
    }
    if stands(start) {
        add_kept(facts, encoding, start.name())?;
        return Ok(());
    }
    Ok(())
}

// What the start says of one name.
fn add_start<'a>(
    facts: &Facts<'_, '_, '_, 'a>,
    encoding: &mut Encoding<'a>,
    keeps: bool,
    start: &Start<'a>,
) -> Result<(), AllocError>
    requires { IsTrue keeps ↔ Contains facts.now.goals goal.NoRemove }
    ensures { OnOk result
        (Grows facts.now encoding.old encoding.new (IsSaidBy facts.now start.now)) }
{
    add_hold(facts, encoding, start)?;
    add_essential(facts, encoding, start)?;
    add_keep(facts, encoding, keeps, start)?;
    Ok(())
}

// Whether a goal is that nothing is removed.
fn has_no_remove(goals: &[Goal]) -> bool
    ensures { IsTrue result ↔ Contains goals.now goal.NoRemove }
{
    for asked in goals {
        if let Goal::NoRemove = asked {
            return true;
        }
    }
    false
}

/// What the start asks for, name by name. Memory alone can fail. Linear in the start.
pub(crate) fn add_starts<'a>(
    facts: &Facts<'_, '_, '_, 'a>,
    encoding: &mut Encoding<'a>,
) -> Result<(), AllocError>
    ensures { OnOk result
        (Grows facts.now encoding.old encoding.new
        (λ reason. IsPremise facts.now reason × IsOfStart reason)) }
{
    let keeps = has_no_remove(facts.part().goals());
    let starts = facts.part().starts();
    for start in starts {
        add_start(facts, encoding, keeps, start)?;
    }
    Ok(())
}
