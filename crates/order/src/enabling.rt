// How the way of a member is made free: what conflicts with it and is to go is removed, what it breaks is upgraded or
// deconfigured, and at last an old version goes and comes back new.

ghost use Rattle.std.specs.Prelude.{IfOk};
ghost use Rattle.std.specs.List.{Contains};
ghost use Rattle.forward_steps.specs.PartialPlan.{IsProblem, IsReached};

use crate::clear::{broken_by, conflicting, cut_first, deconfigure_each};
use crate::hindrance::{Hindrance, Hindrances};
use crate::install::unpacked_from;
use forward_steps::{Member, MemberTable, PartialPlan, Problem, unpack};
use index::IndexPackage;
use plancheck::unpack_failing;
use relation::Pkg;
use rules::{Name, Rule};
use std::alloc::{AllocError, Global};

// Whether the member's needs are met, and no present package breaks it: it can be configured as soon as it is unpacked.
fn is_ready<'a>(
    plan: &PartialPlan<'_, 'a>,
    hindrances: &mut Hindrances<'a>,
    rank: usize,
    pkg: &Pkg<'_>,
) -> Result<bool, AllocError> {
    let lacks = hindrances.has(plan, rank, pkg, Hindrance::Lack)?;
    if lacks {
        return Ok(false);
    }
    let broken = hindrances.has(plan, rank, pkg, Hindrance::Broken)?;
    Ok(!broken)
}

// The names of the leaving ones among these.
fn leaving_among(
    alloc: Global,
    members: &MemberTable<'_>,
    names: &[Name],
) -> Result<Vec<Name>, AllocError> {
    let mut gone = Vec::new(alloc);
    for name in names {
        if members.of(name.as_bytes()).is_none() {
            gone.push(name.try_copy(alloc)?)?;
        }
    }
    Ok(gone)
}

// Unpacks the first member of these names that can be.
fn pull_first<'p, 'a>(
    problem: &Problem<'_, '_, 'p, 'a>,
    plan: &mut PartialPlan<'p, 'a>,
    names: &[Name],
) -> Result<bool, AllocError>
    requires problem { IsProblem problem.now }
    requires reached { IsReached problem.now plan.old }
    ensures reached { IfOk result (λ _. IsReached problem.now plan.new) }
{
    for name in names {
        if let Some(member) = problem.members.of(name.as_bytes()) {
            let unpacked = unpack(problem, plan, member)?;
            if unpacked {
                return Ok(true);
            }
        }
    }
    Ok(false)
}

// Unpacks what the package breaks, if a member of its name can be; else the member itself, once that is deconfigured.
fn unpack_breaking<'p, 'a>(
    problem: &Problem<'_, '_, 'p, 'a>,
    plan: &mut PartialPlan<'p, 'a>,
    member: &'p Member<'a>,
    pkg: &Pkg<'a>,
) -> Result<bool, AllocError>
    requires problem { IsProblem problem.now }
    requires reached { IsReached problem.now plan.old }
    requires within { Contains problem.now.members.now member.now }
    ensures reached { IfOk result (λ _. IsReached problem.now plan.new) }
{
    let names = broken_by(problem.alloc, &plan.db, pkg)?;
    let pulled = pull_first(problem, plan, names.as_slice())?;
    if pulled {
        return Ok(true);
    }
    deconfigure_each(problem, plan, names.as_slice())?;
    let unpacked = unpack(problem, plan, member)?;
    Ok(unpacked)
}

// Makes the way of the member free, by the rule that its unpacking fails: what conflicts with it and is to go is removed, and
// what it breaks is deconfigured. Answers whether something was removed or unpacked.
fn enable_unpack<'p, 'a>(
    problem: &Problem<'_, '_, 'p, 'a>,
    plan: &mut PartialPlan<'p, 'a>,
    hindrances: &mut Hindrances<'a>,
    rank: usize,
    member: &'p Member<'a>,
    listed: &IndexPackage<'a>,
) -> Result<bool, AllocError>
    requires problem { IsProblem problem.now }
    requires reached { IsReached problem.now plan.old }
    requires within { Contains problem.now.members.now member.now }
    ensures reached { IfOk result (λ _. IsReached problem.now plan.new) }
{
    match unpack_failing(&plan.db, Some(listed), member.name(), member.version()) {
        Some(Rule::Conflict) => {
            let names = conflicting(problem.alloc, &plan.db, listed.pkg())?;
            let gone = leaving_among(problem.alloc, problem.members, names.as_slice())?;
            if gone.is_empty() {
                hindrances.keep_all(rank)?;
            }
            let moved = cut_first(problem, plan, gone.as_slice())?;
            Ok(moved)
        }
        Some(Rule::Breaks) | None => {
            let moved = unpack_breaking(problem, plan, member, listed.pkg())?;
            Ok(moved)
        }
        Some(_) => Ok(false),
    }
}

// Whether the way of the member may be made free, if it is ready, or if all are to be tried: not where a package conflicts with
// it and none of these are to go.
fn may_enable<'a>(
    plan: &PartialPlan<'_, 'a>,
    hindrances: &mut Hindrances<'a>,
    rank: usize,
    pkg: &Pkg<'_>,
    all: bool,
) -> Result<bool, AllocError> {
    let kept = hindrances.are_kept(rank);
    if kept && hindrances.has(plan, rank, pkg, Hindrance::Conflict)? {
        return Ok(false);
    }
    if all {
        return Ok(true);
    }
    let ready = is_ready(plan, hindrances, rank, pkg)?;
    Ok(ready)
}

// Makes the way of the member of this rank free, if it is to be unpacked and is ready, or if all are to be tried.
fn enable_member<'p, 'a>(
    problem: &Problem<'_, '_, 'p, 'a>,
    plan: &mut PartialPlan<'p, 'a>,
    hindrances: &mut Hindrances<'a>,
    rank: usize,
    member: &'p Member<'a>,
    all: bool,
) -> Result<bool, AllocError>
    requires problem { IsProblem problem.now }
    requires reached { IsReached problem.now plan.old }
    requires within { Contains problem.now.members.now member.now }
    ensures reached { IfOk result (λ _. IsReached problem.now plan.new) }
{
    let Some(listed) = unpacked_from(&plan.db, member) else {
        return Ok(false);
    };
    let may = may_enable(plan, hindrances, rank, listed.pkg(), all)?;
    if !may {
        return Ok(false);
    }
    let moved = enable_unpack(problem, plan, hindrances, rank, member, listed)?;
    Ok(moved)
}

/// Makes the way free for the first member for which that leads on, of those that are ready or of all.
pub(crate) fn enable_some<'p, 'a>(
    problem: &Problem<'_, '_, 'p, 'a>,
    plan: &mut PartialPlan<'p, 'a>,
    hindrances: &mut Hindrances<'a>,
    all: bool,
) -> Result<bool, AllocError>
    requires problem { IsProblem problem.now }
    requires reached { IsReached problem.now plan.old }
    ensures reached { IfOk result (λ _. IsReached problem.now plan.new) }
{
    for rank in 0..problem.members.rank_count() {
        if let Some(member) = problem.members.at_rank(rank) {
            let moved = enable_member(problem, plan, hindrances, rank, member, all)?;
            if moved {
                return Ok(true);
            }
        }
    }
    Ok(false)
}

// Removes an old version that conflicts with the member, of which the new one is to come.
fn remove_old<'p, 'a>(
    problem: &Problem<'_, '_, 'p, 'a>,
    plan: &mut PartialPlan<'p, 'a>,
    member: &Member<'a>,
    listed: &IndexPackage<'a>,
) -> Result<bool, AllocError>
    requires reached { IsReached problem.now plan.old }
    ensures reached { IfOk result (λ _. IsReached problem.now plan.new) }
{
    match unpack_failing(&plan.db, Some(listed), member.name(), member.version()) {
        Some(Rule::Conflict) => {
            let names = conflicting(problem.alloc, &plan.db, listed.pkg())?;
            let moved = cut_first(problem, plan, names.as_slice())?;
            Ok(moved)
        }
        _ => Ok(false),
    }
}

// The same of the member of this rank, if it is to be unpacked and something conflicts with it.
fn remove_old_for<'p, 'a>(
    problem: &Problem<'_, '_, 'p, 'a>,
    plan: &mut PartialPlan<'p, 'a>,
    hindrances: &mut Hindrances<'a>,
    rank: usize,
    member: &Member<'a>,
) -> Result<bool, AllocError>
    requires reached { IsReached problem.now plan.old }
    ensures reached { IfOk result (λ _. IsReached problem.now plan.new) }
{
    let Some(listed) = unpacked_from(&plan.db, member) else {
        return Ok(false);
    };
    let hindered = hindrances.has(plan, rank, listed.pkg(), Hindrance::Conflict)?;
    if !hindered {
        return Ok(false);
    }
    let moved = remove_old(problem, plan, member, listed)?;
    Ok(moved)
}

/// Removes an old version that conflicts with a member of which the new one is to come, for the first member for which one can
/// go.
pub(crate) fn remove_some_old<'p, 'a>(
    problem: &Problem<'_, '_, 'p, 'a>,
    plan: &mut PartialPlan<'p, 'a>,
    hindrances: &mut Hindrances<'a>,
) -> Result<bool, AllocError>
    requires reached { IsReached problem.now plan.old }
    ensures reached { IfOk result (λ _. IsReached problem.now plan.new) }
{
    for rank in 0..problem.members.rank_count() {
        if let Some(member) = problem.members.at_rank(rank) {
            let moved = remove_old_for(problem, plan, hindrances, rank, member)?;
            if moved {
                return Ok(true);
            }
        }
    }
    Ok(false)
}
