// The clauses, atoms and goals that premises speak of, as they are spelled.
ghost use Rattle.std.specs.Prelude.{◌≡◌, IfOk, OnOk};
ghost use Rattle.std.specs.Option.{option_and_then, option_copied, option_map};
ghost use Rattle.serde_json.specs.View.{members_view};
ghost use Rattle.json_answers.specs.Premises as Spec;
ghost use Rattle.json_answers.specs.Premises.{IsFirstMatched, IsMatchedText, IsTextBetween, IsTextOf};
ghost use Rattle.json_answers.specs.Words as Words;
ghost use Rattle.universe_parts.specs.Parts.{numbered};

use crate::members::Members;
use crate::pairs::package_at;
use crate::texts::text_value;
use crate::words::{atom_text, clause_text, goal_text};
use refutation::Premise;
use relation::{Atom, Clause, Pkg};
use rules::Goal;
use std::alloc::{AllocError, Global};
use universe::{CountingPkg, Universe};

// The goal of this number, counted from 1.
fn goal_at(goals: &[Goal], number: u32) -> Option<&Goal>
    ensures { option_copied result ≡ numbered number goals.now }
{
    let place = number.checked_sub(1)?;
    goals.get(place as usize)
}

// The clause of this number, counted from 1.
fn clause_at<'k, 'a>(clauses: &'k [Clause<'a>], number: u32) -> Option<&'k Clause<'a>>
    ensures { option_copied result ≡ numbered number clauses.now }
{
    let place = number.checked_sub(1)?;
    clauses.get(place as usize)
}

// The text of the goal of this number, if there is one.
fn goal_text_at(alloc: Global, goals: &[Goal], number: u32) -> Result<Option<Vec<u8>>, AllocError>
    ensures { IfOk result
        (λ text. option_map (λ bytes. bytes.items) text
        ≡ option_map Words.goal_text (numbered number goals.now)) }
{
    match goal_at(goals, number) {
        None => Ok(None),
        Some(goal) => Ok(Some(goal_text(alloc, goal)?)),
    }
}

// The text of the clause of this number, if there is one.
fn clause_text_at(
    alloc: Global,
    clauses: &[Clause<'_>],
    number: u32,
) -> Result<Option<Vec<u8>>, AllocError>
    ensures { IfOk result
        (λ text. option_map (λ bytes. bytes.items) text ≡ Spec.clause_text_at number clauses.now) }
{
    match clause_at(clauses, number) {
        None => Ok(None),
        Some(clause) => Ok(Some(clause_text(alloc, clause)?)),
    }
}

// The first of the atoms that the package matches.
fn matched_in<'k, 'a>(atoms: &'k [Atom<'a>], pkg: &Pkg<'_>) -> Option<&'k Atom<'a>>
    ensures { IsFirstMatched pkg.now atoms.now (option_copied result) }
{
    for atom in atoms {
        if atom.matched_by(pkg) {
            return Some(atom);
        }
    }
    None
}

// The text of the first of the atoms that the package matches.
fn matched_text(
    alloc: Global,
    atoms: &[Atom<'_>],
    pkg: &Pkg<'_>,
) -> Result<Option<Vec<u8>>, AllocError>
    ensures { IfOk result
        (λ text. IsMatchedText pkg.now atoms.now (option_map (λ bytes. bytes.items) text)) }
{
    match matched_in(atoms, pkg) {
        None => Ok(None),
        Some(atom) => Ok(Some(atom_text(alloc, atom)?)),
    }
}

// The text of the clause of this number of Pre-Depends, if the package is there and has one.
fn pre_depends_text(
    alloc: Global,
    pkg: &Option<CountingPkg<'_, '_>>,
    number: u32,
) -> Result<Option<Vec<u8>>, AllocError>
    ensures { IfOk result (λ text. option_map (λ bytes. bytes.items) text
        ≡ option_and_then
        (λ there. Spec.clause_text_at number there.relations.pre_depends) pkg.now) }
{
    match pkg {
        None => Ok(None),
        Some(package) => clause_text_at(alloc, package.pkg().pre_depends(), number),
    }
}

// The text of the clause of this number of Depends, if the package is there and has one.
fn depends_text(
    alloc: Global,
    pkg: &Option<CountingPkg<'_, '_>>,
    number: u32,
) -> Result<Option<Vec<u8>>, AllocError>
    ensures { IfOk result (λ text. option_map (λ bytes. bytes.items) text
        ≡ option_and_then (λ there. Spec.clause_text_at number there.relations.depends) pkg.now) }
{
    match pkg {
        None => Ok(None),
        Some(package) => clause_text_at(alloc, package.pkg().depends(), number),
    }
}

// The text of the first atom of Conflicts of the package that the other matches, if both are there and there is one.
fn conflicts_text(
    alloc: Global,
    pkg: &Option<CountingPkg<'_, '_>>,
    other: &Option<CountingPkg<'_, '_>>,
) -> Result<Option<Vec<u8>>, AllocError>
    ensures { IfOk result
        (λ text. IsTextBetween (λ there. there.relations.conflicts) pkg.now other.now
        (option_map (λ bytes. bytes.items) text)) }
{
    match (pkg, other) {
        (Some(package), Some(against)) => {
            matched_text(alloc, package.pkg().conflicts(), against.pkg())
        }
        _ => Ok(None),
    }
}

// The text of the first atom of Breaks of the package that the other matches, if both are there and there is one.
fn breaks_text(
    alloc: Global,
    pkg: &Option<CountingPkg<'_, '_>>,
    other: &Option<CountingPkg<'_, '_>>,
) -> Result<Option<Vec<u8>>, AllocError>
    ensures { IfOk result (λ text. IsTextBetween (λ there. there.relations.breaks) pkg.now other.now
        (option_map (λ bytes. bytes.items) text)) }
{
    match (pkg, other) {
        (Some(package), Some(against)) => {
            matched_text(alloc, package.pkg().breaks(), against.pkg())
        }
        _ => Ok(None),
    }
}

/// The text of the clause, the atom or the goal that the premise speaks of, if there is one. Memory alone can fail. Linear in the package
/// that it speaks of.
pub(crate) fn text_of(
    alloc: Global,
    universe: &Universe<'_, '_>,
    premise: &Premise,
) -> Result<Option<Vec<u8>>, AllocError>
    ensures { IfOk result
        (λ text. IsTextOf universe.now premise.now (option_map (λ bytes. bytes.items) text)) }
{
    match premise {
        Premise::PreDepends(pair, clause) => {
            let package = package_at(alloc, universe, *pair)?;
            pre_depends_text(alloc, &package, *clause)
        }
        Premise::Depends(pair, clause) => {
            let package = package_at(alloc, universe, *pair)?;
            depends_text(alloc, &package, *clause)
        }
        Premise::Conflicts(pair, other) => {
            let package = package_at(alloc, universe, *pair)?;
            let against = package_at(alloc, universe, *other)?;
            conflicts_text(alloc, &package, &against)
        }
        Premise::Breaks(pair, other) => {
            let package = package_at(alloc, universe, *pair)?;
            let against = package_at(alloc, universe, *other)?;
            breaks_text(alloc, &package, &against)
        }
        Premise::Goal(goal) | Premise::GoalOn(goal, _) => {
            goal_text_at(alloc, universe.goals(), *goal)
        }
        Premise::Same(_, _) | Premise::Hold(_) | Premise::Essential(_) | Premise::Keep(_) => {
            Ok(None)
        }
    }
}

/// Puts the text, if there is one. Memory alone can fail.
pub(crate) fn put_any_text(
    alloc: Global,
    members: &mut Members,
    text: &Option<Vec<u8>>,
) -> Result<(), AllocError>
    ensures { OnOk result (members_view members.new.map.entries
        ≡ Spec.with_any_text (option_map (λ bytes. bytes.items) text.now)
        (members_view members.old.map.entries)) }
{
    match text {
        None => Ok(()),
        Some(bytes) => members.put(alloc, "text", text_value(alloc, bytes.as_slice())?),
    }
}
