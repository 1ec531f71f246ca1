// The second phase: the least name whose removal is allowed is removed, or where there is none, the least name to be removed
// that is installed is deconfigured, until no name is to be removed.

ghost use Rattle.std.specs.Prelude.{◌≡◌, ◌↔◌, ℕ, IfOk, IsTrue, MatchOption, map};
ghost use Rattle.std.specs.List.{All, filter};
ghost use Rattle.rules.specs.Database.{HasRecord, IsInstalled};
ghost use Rattle.rules.specs.Legal.{Allowed};
ghost use Rattle.rules.specs.Name.{IsAscending};
ghost use Rattle.rules.specs.declared.step.Step.TheVariants.{Remove};
ghost use Rattle.plain.specs.Change.{HasNothingToRemove, IsToRemove};
ghost use Rattle.plain.specs.Order.{AreRemovals, IsNextRemoval, after_all};
ghost use Rattle.plain.specs.Underway.{is_to_remove};
ghost use Rattle.fixed_order.specs.Problem.{IsProblem, IsUnderwayOn, members_in};
ghost use Rattle.fixed_order.specs.Names.{AreAllWith};
ghost use Rattle.fixed_order.specs.Removal.{IsLeastOf, is_other, left_by};

use crate::key::{Key, in_order};
use crate::needs::Needs;
use crate::problem::Problem;
use crate::state::is_installed;
use plancheck::apply;
use plancheck_state::{Records, StateRecord};
use rules::{Name, Step};
use std::alloc::AllocError;
use universe::Universe;

// Whether the record is of a name to be removed.
fn is_to_remove(problem: &Problem<'_, '_, '_, '_>, entry: &StateRecord<'_, '_>) -> bool
    requires { IsProblem problem.now }
    ensures { result ≡ is_to_remove (members_in problem.now) entry.now }
{
    entry.state().is_present() && !problem.members.has(entry.name())
}

// The names to be removed, in the order of the records.
fn leaving<'p, 'a>(
    problem: &Problem<'_, '_, 'p, 'a>,
    db: &Records<'p, 'a>,
) -> Result<Vec<Key<'a>>, AllocError>
    requires problem { IsProblem problem.now }
    requires underway { IsUnderwayOn problem.now db.now }
    ensures { IfOk result (λ keys. keys.items
        ≡ map (λ entry. entry.name) (filter (is_to_remove (members_in problem.now)) db.now)) }
{
    let mut keys = Vec::new(problem.alloc);
    for entry in db.as_slice() {
        if is_to_remove(problem, entry) {
            keys.push(Key::new(entry.name()))?;
        }
    }
    Ok(keys)
}

// The names to be removed, in their order.
fn to_remove<'p, 'a>(
    problem: &Problem<'_, '_, 'p, 'a>,
    db: &Records<'p, 'a>,
) -> Result<Vec<Key<'a>>, AllocError>
    requires problem { IsProblem problem.now }
    requires underway { IsUnderwayOn problem.now db.now }
    ensures { IfOk result
        (λ keys. AreAllWith (IsToRemove (members_in problem.now) db.now) keys.items) }
{
    let keys = leaving(problem, db)?;
    let ordered = in_order(keys)?;
    Ok(ordered)
}

// The least of the names whose removal is allowed, if there is one.
fn least_removable<'k, 'n>(
    db: &Records<'_, '_>,
    universe: &Universe<'_, '_>,
    keys: &'k [Key<'n>],
    needs: &mut Needs<'n>,
) -> Result<Option<&'k Key<'n>>, AllocError>
    requires { IsAscending keys.now }
    ensures { IfOk result (λ least. MatchOption least
        (All (λ name. ¬ Allowed universe.now db.now (Remove name)) keys.now)
        (λ key. IsLeastOf (λ name. Allowed universe.now db.now (Remove name)) keys.now key.now)) }
{
    for key in keys {
        let goes = needs.may_go(db, universe, key.name())?;
        if goes {
            return Ok(Some(key));
        }
    }
    Ok(None)
}

// The least of the names that is installed, if there is one.
fn least_installed<'k, 'n>(db: &Records<'_, '_>, keys: &'k [Key<'n>]) -> Option<&'k Key<'n>>
    requires { IsAscending keys.now }
    ensures { MatchOption result
        (All (λ name. ¬ HasRecord IsInstalled name db.now) keys.now)
        (λ key. IsLeastOf (λ name. HasRecord IsInstalled name db.now) keys.now key.now) }
{
    for key in keys {
        if is_installed(db, key.name()) {
            return Some(key);
        }
    }
    None
}

// The next of the removals, if a name is to be removed.
fn next_removal<'p, 'a>(
    problem: &Problem<'_, '_, 'p, 'a>,
    db: &Records<'p, 'a>,
    keys: &[Key<'a>],
    needs: &mut Needs<'a>,
) -> Result<Option<Step>, AllocError>
    requires problem { IsProblem problem.now }
    requires underway { IsUnderwayOn problem.now db.now }
    requires keys { AreAllWith (IsToRemove (members_in problem.now) db.now) keys.now }
    ensures { IfOk result
        (λ step. MatchOption step (HasNothingToRemove (members_in problem.now) db.now)
        (IsNextRemoval problem.now.universe.now (members_in problem.now) db.now)) }
{
    match least_removable(db, problem.universe, keys, needs)? {
        Some(key) => Ok(Some(Step::Remove(key.try_name(problem.alloc)?))),
        None => match least_installed(db, keys) {
            Some(key) => Ok(Some(Step::Deconfigure(key.try_name(problem.alloc)?))),
            None => Ok(None),
        },
    }
}

// Whether the key is of another name.
fn is_other(name: &Name, key: &Key<'_>) -> bool
    ensures { result ≡ is_other name.now key.now }
{
    key.name() != name.as_bytes()
}

// Leaves out the name.
fn leave_out(keys: &mut Vec<Key<'_>>, name: &Name)
    ensures { keys.new.items ≡ filter (is_other name.now) keys.old.items }
{
    keys.retain(|key| is_other(name, key));
}

// Leaves out the name that the step removes.
fn leave_removed(keys: &mut Vec<Key<'_>>, step: &Step)
    ensures { keys.new.items ≡ left_by step.now keys.old.items }
{
    match step {
        Step::Remove(name) => leave_out(keys, name),
        _ => {}
    }
}

/// Takes the removals and deconfigures, and answers them. For each it costs what `Needs::may_go` does of each name that is to be
/// removed, up to the one that goes: no more than the look at one clause, but for a name that goes or of which that clause
/// doesn't need it any more. Memory alone can fail.
pub(crate) fn removals<'p, 'a>(
    problem: &Problem<'_, '_, 'p, 'a>,
    db: &mut Records<'p, 'a>,
) -> Result<Vec<Step>, AllocError>
    requires problem { IsProblem problem.now }
    requires underway { IsUnderwayOn problem.now db.old }
    ensures removals { IfOk result
        (λ steps. AreRemovals problem.now.universe.now
        (members_in problem.now) db.old steps.items) }
    ensures after { IfOk result
        (λ steps. db.new ≡ after_all problem.now.universe.now db.old steps.items) }
    ensures underway { IfOk result (λ _. IsUnderwayOn problem.now db.new) }
    ensures nothing { IfOk result (λ _. HasNothingToRemove (members_in problem.now) db.new) }
{
    let mut keys = to_remove(problem, db)?;
    let mut needs = Needs::new(problem.alloc);
    let mut steps = Vec::new(problem.alloc);
    while let Some(step) = next_removal(problem, db, keys.as_slice(), &mut needs)? {
        apply(db, problem.universe, None, &step)?;
        leave_removed(&mut keys, &step);
        steps.push(step)?;
    }
    Ok(steps)
}
