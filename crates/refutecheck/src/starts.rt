// The premises that speak of the start: held names, essential ones, and those that are kept (dpkg(1), Policy 3.8).

ghost use Rattle.std.specs.Prelude.{◌≡◌, ◌↔◌, ⊤, IfOk, IsTrue, MatchOption};
ghost use Rattle.std.specs.List.{Any};
ghost use Rattle.std.specs.Option.{option_copied};
ghost use Rattle.rules.specs.PlanLaws.{IsEssentialIn};
ghost use Rattle.rules.specs.Version.{SameVersion};
ghost use Rattle.refutation.specs.Premise.{IsHeldVersion, IsPremise, PairHas, StandsAtStart};
ghost use Rattle.refutecheck.specs.Answer.{IsAnswer};

use crate::literals::alone_if;
use crate::premises::Premises;
use crate::sought::{Sought, is_same};
use debversion::Version;
use refutation::{Literal, Premise};
use rules::Items;
use std::alloc::AllocError;
use universe::{Pair, Start};

fn is_version(standing: Option<&Version<'_>>, version: &Version<'_>) -> bool
    ensures { IsTrue result
        ↔ MatchOption (option_copied standing.entry) ⊥ (SameVersion version.now) }
{
    match standing {
        None => false,
        Some(standing) => version == standing,
    }
}

fn is_held_at(start: &Start<'_>, pair: &Pair<'_, '_>) -> bool
    ensures { IsTrue result ↔ ((start.now.name ≡ pair.now.pkg.name) × IsTrue start.now.is_held
        × MatchOption start.now.standing ⊥ (SameVersion pair.now.pkg.version)) }
{
    is_same(start.name(), pair.name())
        && start.is_held()
        && is_version(start.standing(), &pair.version())
}

fn is_essential_at(start: &Start<'_>, name: &[u8]) -> bool
    ensures { IsTrue result
        ↔ ((start.now.name ≡ name.now) × IsTrue start.now.is_essential
        × IsTrue start.now.is_present) }
{
    is_same(start.name(), name) && start.is_essential() && start.is_present()
}

fn is_standing_at(start: &Start<'_>, name: &[u8]) -> bool
    ensures { IsTrue result
        ↔ ((start.now.name ≡ name.now) × MatchOption start.now.standing ⊥ (λ _. ⊤)) }
{
    is_same(start.name(), name) && start.standing().is_some()
}

fn is_held_version(premises: &Premises<'_, '_, '_>, pair: &Pair<'_, '_>) -> bool
    ensures { IsTrue result ↔ IsHeldVersion premises.now pair.now.pkg }
{
    match premises.start(pair.name()) {
        None => false,
        Some(start) => is_held_at(start, pair),
    }
}

fn is_essential(premises: &Premises<'_, '_, '_>, name: &[u8]) -> bool
    ensures { IsTrue result ↔ IsEssentialIn premises.now name.now }
{
    match premises.start(name) {
        None => false,
        Some(start) => is_essential_at(start, name),
    }
}

fn stands_at_start(premises: &Premises<'_, '_, '_>, name: &[u8]) -> bool
    ensures { IsTrue result ↔ StandsAtStart premises.now name.now }
{
    match premises.start(name) {
        None => false,
        Some(start) => is_standing_at(start, name),
    }
}

fn is_hold_premise(premises: &Premises<'_, '_, '_>, number: u32) -> bool
    ensures { IsTrue result ↔ IsPremise premises.now (Premise.Hold number) }
{
    match premises.pair_at(number) {
        None => false,
        Some(pair) => is_held_version(premises, pair),
    }
}

fn is_keep_premise(premises: &Premises<'_, '_, '_>, name: &[u8]) -> bool
    ensures { IsTrue result ↔ IsPremise premises.now (Premise.Keep name.now) }
{
    premises.keeps() && stands_at_start(premises, name)
}

/// The clause of a pair that is the version that stands of a held name. Memory alone can fail. Linear in the name.
pub fn hold_clause(
    premises: &Premises<'_, '_, '_>,
    number: u32,
) -> Result<Option<Items<Literal>>, AllocError>
    ensures { IfOk result (IsAnswer premises.now (Premise.Hold number)) }
{
    let is_premise = is_hold_premise(premises, number);
    let answer = alone_if(premises.alloc(), is_premise, Literal::Selected(number))?;
    Ok(answer)
}

/// The clause of an essential name that was present at the start. Memory alone can fail. Linear in the packages that have
/// or provide the name.
pub fn essential_clause(
    premises: &Premises<'_, '_, '_>,
    name: &[u8],
) -> Result<Option<Items<Literal>>, AllocError>
    ensures { IfOk result (IsAnswer premises.now (Premise.Essential name.now)) }
{
    if !is_essential(premises, name) {
        return Ok(None);
    }
    let literals = premises.all_sought(Sought::OfName(name))?;
    Ok(Some(literals))
}

/// The clause of a name that stands at the start, where a goal is that nothing is removed. Memory alone can fail. Linear
/// in the packages that have or provide the name.
pub fn keep_clause(
    premises: &Premises<'_, '_, '_>,
    name: &[u8],
) -> Result<Option<Items<Literal>>, AllocError>
    ensures { IfOk result (IsAnswer premises.now (Premise.Keep name.now)) }
{
    if !is_keep_premise(premises, name) {
        return Ok(None);
    }
    let literals = premises.all_sought(Sought::OfName(name))?;
    Ok(Some(literals))
}
