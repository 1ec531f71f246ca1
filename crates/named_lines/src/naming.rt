// A refutation with its pairs named in place of their numbers.

ghost use Rattle.std.specs.Prelude.{◌≡◌, IfOk};
ghost use Rattle.named_lines.specs.Naming.{each_some, line_named, literal_named, named_of, pair_named, premise_named, refutation_named, two_named};

use named_refutation::{NamedLine, NamedLiteral, NamedPair, NamedPremise, NamedRefutation};
use refutation::{Line, Literal, Premise, Refutation};
use rules::{Items, Name, VersionText, is_name};
use std::alloc::{AllocError, Global};
use universe::{Pair, Universe};

// The name and the version of the pair, if its name is one.
fn named_of(alloc: Global, pair: &Pair<'_, '_>) -> Result<Option<NamedPair>, AllocError>
    ensures { IfOk result (λ answer. answer ≡ named_of pair.now) }
{
    let name = pair.name();
    if !is_name(name) {
        return Ok(None);
    }
    Ok(Some(NamedPair {
        name: Name::copied_from(alloc, name)?,
        version: VersionText::copied_from(alloc, pair.version().text())?,
    }))
}

// The name and the version of the pair with this number.
fn pair_named(
    alloc: Global,
    universe: &Universe<'_, '_>,
    number: u32,
) -> Result<Option<NamedPair>, AllocError>
    ensures { IfOk result (λ answer. answer ≡ pair_named universe.now.pairs number) }
{
    match universe.pair(number) {
        None => Ok(None),
        Some(pair) => named_of(alloc, pair),
    }
}

// The two pairs with these numbers.
fn two_named(
    alloc: Global,
    universe: &Universe<'_, '_>,
    number: u32,
    other: u32,
) -> Result<Option<(NamedPair, NamedPair)>, AllocError>
    ensures { IfOk result (λ answer. answer ≡ two_named universe.now.pairs number other) }
{
    let Some(first) = pair_named(alloc, universe, number)? else {
        return Ok(None);
    };
    match pair_named(alloc, universe, other)? {
        None => Ok(None),
        Some(second) => Ok(Some((first, second))),
    }
}

// The premise with each number of a pair replaced.
fn premise_named(
    alloc: Global,
    universe: &Universe<'_, '_>,
    premise: &Premise,
) -> Result<Option<NamedPremise>, AllocError>
    ensures { IfOk result (λ answer. answer ≡ premise_named universe.now.pairs premise.now) }
{
    match premise {
        Premise::Same(number, other) => Ok(two_named(alloc, universe, *number, *other)?.map(
            |two| NamedPremise::Same(two.0, two.1),
        )),
        Premise::PreDepends(number, clause) => Ok(pair_named(alloc, universe, *number)?.map(
            |pair| NamedPremise::PreDepends(pair, *clause),
        )),
        Premise::Depends(number, clause) => Ok(pair_named(alloc, universe, *number)?.map(
            |pair| NamedPremise::Depends(pair, *clause),
        )),
        Premise::Conflicts(number, other) => Ok(two_named(alloc, universe, *number, *other)?.map(
            |two| NamedPremise::Conflicts(two.0, two.1),
        )),
        Premise::Breaks(number, other) => Ok(two_named(alloc, universe, *number, *other)?.map(
            |two| NamedPremise::Breaks(two.0, two.1),
        )),
        Premise::Goal(goal) => Ok(Some(NamedPremise::Goal(*goal))),
        Premise::GoalOn(goal, number) => Ok(pair_named(alloc, universe, *number)?.map(
            |pair| NamedPremise::GoalOn(*goal, pair),
        )),
        Premise::Hold(number) => {
            Ok(pair_named(alloc, universe, *number)?.map(|pair| NamedPremise::Hold(pair)))
        }
        Premise::Essential(name) => Ok(Some(NamedPremise::Essential(name.try_copy(alloc)?))),
        Premise::Keep(name) => Ok(Some(NamedPremise::Keep(name.try_copy(alloc)?))),
    }
}

// The literal with its number replaced.
fn literal_named(
    alloc: Global,
    universe: &Universe<'_, '_>,
    literal: Literal,
) -> Result<Option<NamedLiteral>, AllocError>
    ensures { IfOk result (λ answer. answer ≡ literal_named universe.now.pairs literal) }
{
    match literal {
        Literal::Selected(number) => {
            Ok(pair_named(alloc, universe, number)?.map(|pair| NamedLiteral::Selected(pair)))
        }
        Literal::Unselected(number) => {
            Ok(pair_named(alloc, universe, number)?.map(|pair| NamedLiteral::Unselected(pair)))
        }
    }
}

// The literals with their numbers replaced.
fn literals_named(
    alloc: Global,
    universe: &Universe<'_, '_>,
    literals: &[Literal],
) -> Result<Option<Items<NamedLiteral>>, AllocError>
    ensures { IfOk result
        (λ answer. answer ≡ each_some (literal_named universe.now.pairs) literals.now) }
{
    let mut named = Vec::new(alloc);
    for literal in literals {
        let Some(answer) = literal_named(alloc, universe, *literal)? else {
            return Ok(None);
        };
        named.push(answer)?;
    }
    Ok(Some(Items::new(named)))
}

// The line with each number of a pair replaced.
fn line_named(
    alloc: Global,
    universe: &Universe<'_, '_>,
    line: &Line,
) -> Result<Option<NamedLine>, AllocError>
    ensures { IfOk result (λ answer. answer ≡ line_named universe.now.pairs line.now) }
{
    match line {
        Line::Premise(premise) => Ok(premise_named(alloc, universe, premise)?.map(
            |named| NamedLine::Premise(named),
        )),
        Line::Derived(literals, hints) => {
            let Some(named) = literals_named(alloc, universe, literals.as_slice())? else {
                return Ok(None);
            };
            let hints = Items::new(hints.as_slice().to_vec(alloc)?);
            Ok(Some(NamedLine::Derived(named, hints)))
        }
    }
}

// The lines with each number of a pair replaced.
fn lines_named(
    alloc: Global,
    universe: &Universe<'_, '_>,
    lines: &[Line],
) -> Result<Option<Items<NamedLine>>, AllocError>
    ensures { IfOk result (λ answer. answer ≡ each_some (line_named universe.now.pairs) lines.now) }
{
    let mut named = Vec::new(alloc);
    for line in lines {
        let Some(answer) = line_named(alloc, universe, line)? else {
            return Ok(None);
        };
        named.push(answer)?;
    }
    Ok(Some(Items::new(named)))
}

/// The refutation with each number replaced by the name and the version of its pair; none where a number is that of no pair, or of
/// one whose name is none (Policy 5.6.1). It names no index: the caller puts in those that it was found over. Memory alone can fail;
/// linear in the refutation and in the names.
#[tactic(auto, unfolding(crate::specs::Naming::refutation_named))]
pub fn name_pairs(
    alloc: Global,
    universe: &Universe<'_, '_>,
    refutation: &Refutation,
) -> Result<Option<NamedRefutation>, AllocError>
    ensures { IfOk result (λ answer. answer ≡ refutation_named universe.now.pairs refutation.now) }
{
    let Some(lines) = lines_named(alloc, universe, refutation.as_slice())? else {
        return Ok(None);
    };
    Ok(Some(NamedRefutation {
        indices: Items::new(Vec::new(alloc)),
        lines,
    }))
}
