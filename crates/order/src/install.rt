// Whole packages: each member that is ready is unpacked and configured right after. One that something still hinders isn't tried
// (`hindrance`).

ghost use Rattle.std.specs.Prelude.{IfOk};
ghost use Rattle.std.specs.List.{Contains};
ghost use Rattle.forward_steps.specs.PartialPlan.{IsProblem, IsReached};

use crate::hindrance::{Hindrance, Hindrances};
use crate::tidy::configure_alone;
use forward_steps::{Member, PartialPlan, Problem, unpack};
use index::IndexPackage;
use plancheck_state::Records;
use relation::Pkg;
use rules::{Name, is_name};
use std::alloc::AllocError;

// Whether the member stands in this version already.
fn stands(db: &Records<'_, '_>, member: &Member<'_>) -> bool {
    db.holders(member.name()).any(|entry| {
        entry.name() == member.name()
            && entry.stands()
            && entry
                .present_pkg()
                .is_some_and(|pkg| pkg.version() == member.version())
    })
}

/// The stanza of the member, if it is to be unpacked.
pub(crate) fn unpacked_from<'m, 'a>(
    db: &Records<'_, '_>,
    member: &'m Member<'a>,
) -> Option<&'m IndexPackage<'a>> {
    if stands(db, member) {
        return None;
    }
    member.stanza()
}

// Whether nothing is known to hinder the member from being unpacked and configured right after.
fn is_open<'a>(
    plan: &PartialPlan<'_, 'a>,
    hindrances: &mut Hindrances<'a>,
    rank: usize,
    pkg: &Pkg<'_>,
) -> Result<bool, AllocError> {
    let lacked = hindrances.has_before(rank, Hindrance::Lack);
    if lacked && hindrances.has(plan, rank, pkg, Hindrance::Lack)? {
        return Ok(false);
    }
    let hindered = hindrances.has(plan, rank, pkg, Hindrance::Record)?;
    if hindered {
        return Ok(false);
    }
    let lacks = hindrances.has(plan, rank, pkg, Hindrance::Lack)?;
    Ok(!lacks)
}

// Configures the member alone, if it is allowed.
fn configure_member<'p, 'a>(
    problem: &Problem<'_, '_, 'p, 'a>,
    plan: &mut PartialPlan<'p, 'a>,
    member: &Member<'a>,
) -> Result<(), AllocError>
    requires reached { IsReached problem.now plan.old }
    ensures reached { IfOk result (λ _. IsReached problem.now plan.new) }
{
    if is_name(member.name()) {
        let name = Name::copied_from(problem.alloc, member.name())?;
        let _configured = configure_alone(problem, plan, &name)?;
    }
    Ok(())
}

// Unpacks the member of this rank and configures it right after, if nothing that it needs is missing. Answers whether it was
// unpacked.
fn install<'p, 'a>(
    problem: &Problem<'_, '_, 'p, 'a>,
    plan: &mut PartialPlan<'p, 'a>,
    hindrances: &mut Hindrances<'a>,
    rank: usize,
    member: &'p Member<'a>,
) -> Result<bool, AllocError>
    requires problem { IsProblem problem.now }
    requires reached { IsReached problem.now plan.old }
    requires within { Contains problem.now.members.now member.now }
    ensures reached { IfOk result (λ _. IsReached problem.now plan.new) }
{
    let Some(listed) = unpacked_from(&plan.db, member) else {
        return Ok(false);
    };
    let open = is_open(plan, hindrances, rank, listed.pkg())?;
    if !open || !is_name(member.name()) {
        return Ok(false);
    }
    let unpacked = unpack(problem, plan, member)?;
    if unpacked {
        configure_member(problem, plan, member)?;
    }
    Ok(unpacked)
}

/// Installs each member that is ready when its turn comes. Answers whether one was unpacked. Of a member that something hindered
/// before it costs a test for each change since.
pub(crate) fn install_ready<'p, 'a>(
    problem: &Problem<'_, '_, 'p, 'a>,
    plan: &mut PartialPlan<'p, 'a>,
    hindrances: &mut Hindrances<'a>,
) -> Result<bool, AllocError>
    requires problem { IsProblem problem.now }
    requires reached { IsReached problem.now plan.old }
    ensures reached { IfOk result (λ _. IsReached problem.now plan.new) }
{
    let mut moved = false;
    for rank in 0..problem.members.rank_count() {
        if let Some(member) = problem.members.at_rank(rank) {
            let unpacked = install(problem, plan, hindrances, rank, member)?;
            moved = moved || unpacked;
        }
    }
    Ok(moved)
}
