// The premises that speak of a goal (after apt-get(8)).

ghost use Rattle.std.specs.Prelude.{◌≡◌, ◌↔◌, ⊤, IfOk, IsTrue, MatchOption};
ghost use Rattle.std.specs.List.{Any};
ghost use Rattle.std.specs.Option.{option_copied};
ghost use Rattle.std.specs.declared.cmp.Ordering.TheVariants.{Less};
ghost use Rattle.rules.specs.Universe.{IsOf, candidate_of};
ghost use Rattle.rules.specs.Version.{SameVersion, version_cmp};
ghost use Rattle.refutation.specs.Clause.{IsListOf};
ghost use Rattle.refutation.specs.Premise.{AsksForMember, IsAskedBy, IsSaidBy, IsUpgradeFrom, PairHas, Selects, SpeaksOf};
ghost use Rattle.refutation.specs.declared.literal.Literal.{Literal as LiteralValue};
ghost use Rattle.refutecheck.specs.Answer.{IsAnswer, IsClauseWhere, IsLowerThanCandidate};

use crate::literals::alone_if;
use crate::pairs::is_named;
use crate::premises::Premises;
use crate::sought::{Sought, is_same};
use debversion::Version;
use refutation::{Literal, Premise};
use rules::{Goal, Items};
use std::alloc::AllocError;
use universe::{Pair, Start};

// The candidate of the name, if it is admitted.
fn candidate_clause(
    premises: &Premises<'_, '_, '_>,
    name: &[u8],
) -> Result<Items<Literal>, AllocError>
    ensures { IfOk result (IsListOf (Selects premises.now
        (λ pkg. MatchOption (candidate_of premises.now name.now) ⊥
        (λ candidate. IsOf name.now candidate pkg)))) }
{
    match premises.candidate(name) {
        None => Ok(Items::new(Vec::new(premises.alloc()))),
        Some(version) => {
            let literals = premises.all_sought(Sought::InVersion(name, version))?;
            Ok(literals)
        }
    }
}

// The pairs that the goal asks for, if it asks for a member.
fn clause_asked_by(
    premises: &Premises<'_, '_, '_>,
    goal: &Goal,
) -> Result<Option<Items<Literal>>, AllocError>
    ensures { IfOk result
        (IsClauseWhere (AsksForMember goal.now)
        (Selects premises.now (IsAskedBy premises.now goal.now))) }
{
    match goal {
        Goal::Install(name, restriction) => {
            let literals = premises.all_sought(Sought::Meeting(name.as_bytes(), restriction))?;
            Ok(Some(literals))
        }
        Goal::Upgrade(name) => {
            let literals = candidate_clause(premises, name.as_bytes())?;
            Ok(Some(literals))
        }
        Goal::Remove(_) => Ok(None),
        Goal::Purge(_) => Ok(None),
        Goal::UpgradeAll => Ok(None),
        Goal::NoRemove => Ok(None),
    }
}

/// The clause of an install or upgrade goal. Memory alone can fail. Linear in the packages that have or provide the name.
pub fn goal_clause(
    premises: &Premises<'_, '_, '_>,
    number: u32,
) -> Result<Option<Items<Literal>>, AllocError>
    ensures { IfOk result (IsAnswer premises.now (Premise.Goal number)) }
{
    match premises.goal_at(number) {
        None => Ok(None),
        Some(goal) => {
            let answer = clause_asked_by(premises, goal)?;
            Ok(answer)
        }
    }
}

// Whether what stands is lower than the candidate, and the version is the candidate.
fn is_lower_than_candidate(
    standing: Option<&Version<'_>>,
    candidate: Option<&Version<'_>>,
    version: &Version<'_>,
) -> bool
    ensures { IsTrue result
        ↔ IsLowerThanCandidate (option_copied standing.entry)
        (option_copied candidate.entry) version.now }
{
    match (standing, candidate) {
        (Some(standing), Some(candidate)) => standing.cmp(candidate).is_lt()
            && version == candidate,
        _ => false,
    }
}

// Whether the package of the pair upgrades what the start says.
fn is_upgrade_from(premises: &Premises<'_, '_, '_>, pair: &Pair<'_, '_>, start: &Start<'_>) -> bool
    ensures { IsTrue result ↔ ((start.now.name ≡ pair.now.pkg.name) × (IsTrue start.now.is_held → ⊥)
        × IsLowerThanCandidate start.now.standing
        (candidate_of premises.now start.now.name) pair.now.pkg.version) }
{
    is_same(start.name(), pair.name())
        && !start.is_held()
        && is_lower_than_candidate(
            start.standing(),
            premises.candidate(start.name()),
            &pair.version(),
        )
}

fn is_upgrade(premises: &Premises<'_, '_, '_>, pair: &Pair<'_, '_>) -> bool
    ensures { IsTrue result ↔ Any (IsUpgradeFrom premises.now pair.now.pkg) premises.now.starts }
{
    match premises.start(pair.name()) {
        None => false,
        Some(start) => is_upgrade_from(premises, pair, start),
    }
}

fn is_pair_of_upgrade(premises: &Premises<'_, '_, '_>, number: u32) -> bool
    ensures { IsTrue result
        ↔ PairHas premises.now number
        (λ pkg. Any (IsUpgradeFrom premises.now pkg) premises.now.starts) }
{
    match premises.pair_at(number) {
        None => false,
        Some(pair) => is_upgrade(premises, pair),
    }
}

// What the goal says of the pair by itself, if it speaks of it.
fn clause_said_by(
    premises: &Premises<'_, '_, '_>,
    goal: &Goal,
    pair: u32,
) -> Result<Option<Items<Literal>>, AllocError>
    ensures { IfOk result
        (IsClauseWhere (PairHas premises.now pair (SpeaksOf premises.now goal.now))
        (IsSaidBy goal.now pair)) }
{
    match goal {
        Goal::Install(_, _) => Ok(None),
        Goal::Remove(name) => {
            let is_premise = is_named(premises, pair, name.as_bytes());
            let answer = alone_if(premises.alloc(), is_premise, Literal::Unselected(pair))?;
            Ok(answer)
        }
        Goal::Purge(name) => {
            let is_premise = is_named(premises, pair, name.as_bytes());
            let answer = alone_if(premises.alloc(), is_premise, Literal::Unselected(pair))?;
            Ok(answer)
        }
        Goal::Upgrade(_) => Ok(None),
        Goal::UpgradeAll => {
            let is_premise = is_pair_of_upgrade(premises, pair);
            let answer = alone_if(premises.alloc(), is_premise, Literal::Selected(pair))?;
            Ok(answer)
        }
        Goal::NoRemove => Ok(None),
    }
}

/// The clause of a goal and a pair that it speaks of by itself. Memory alone can fail. Linear in the name.
pub fn goal_on_clause(
    premises: &Premises<'_, '_, '_>,
    number: u32,
    pair: u32,
) -> Result<Option<Items<Literal>>, AllocError>
    ensures { IfOk result (IsAnswer premises.now (Premise.GoalOn number pair)) }
{
    match premises.goal_at(number) {
        None => Ok(None),
        Some(goal) => {
            let answer = clause_said_by(premises, goal, pair)?;
            Ok(answer)
        }
    }
}
