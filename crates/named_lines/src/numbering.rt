// The lines of a refutation by numbers in place of the names of its pairs.

ghost use Rattle.std.specs.Prelude.{◌≡◌, ◌<◌, ◌^◌, IfOk, length};
ghost use Rattle.named_lines.specs.Numbering.{each_ok, line_numbered, literal_numbered, numbered_lines, pair_numbered, premise_numbered, two_numbered};

use debversion::Version;
use named_refutation::{NamedLine, NamedLiteral, NamedPair, NamedPremise, NamedRefutation};
use refutation::{Line, Literal, Premise, Refutation};
use rules::Items;
use std::alloc::{AllocError, Global};
use universe::Universe;

/// A line that names a pair which isn't one of the universe.
#[derive(Drop)]
pub struct Missing {
    /// The number of the line, counted from 1.
    pub line: usize,
    /// The first such pair in it.
    pub pair: NamedPair,
}

/// The lines of a refutation by numbers.
#[derive(Drop)]
pub struct NumberedLines {
    /// The lines before the first that names a missing pair, or all lines.
    pub lines: Refutation,
    /// That line, if there is one.
    pub missing: Option<Missing>,
}

fn copy_of(alloc: Global, pair: &NamedPair) -> Result<NamedPair, AllocError>
    ensures { IfOk result (λ copy. copy ≡ pair.now) }
{
    Ok(NamedPair {
        name: pair.name.try_copy(alloc)?,
        version: pair.version.try_copy(alloc)?,
    })
}

// The number of the named pair, or a copy of it where it is missing.
#[tactic(auto, using(crate::proofs::NumberLemmas::number_within))]
fn pair_numbered(
    alloc: Global,
    universe: &Universe<'_, '_>,
    pair: &NamedPair,
) -> Result<Result<u32, NamedPair>, AllocError>
    requires { length universe.now.pairs < 2 ^ 32 }
    ensures { IfOk result (λ answer. answer ≡ pair_numbered universe.now.pairs pair.now) }
{
    let Ok(version) = Version::parse(pair.version.as_bytes()) else {
        unreachable!()
    };
    match universe.number_of(pair.name.as_bytes(), &version) {
        None => Ok(Err(copy_of(alloc, pair)?)),
        Some(number) => Ok(Ok(number as u32)),
    }
}

// The numbers of the two named pairs, or the first that is missing.
fn two_numbered(
    alloc: Global,
    universe: &Universe<'_, '_>,
    pair: &NamedPair,
    other: &NamedPair,
) -> Result<Result<(u32, u32), NamedPair>, AllocError>
    requires { length universe.now.pairs < 2 ^ 32 }
    ensures { IfOk result (λ answer. answer ≡ two_numbered universe.now.pairs pair.now other.now) }
{
    match pair_numbered(alloc, universe, pair)? {
        Err(missing) => Ok(Err(missing)),
        Ok(first) => Ok(pair_numbered(alloc, universe, other)?.map(|second| (first, second))),
    }
}

// The premise with each named pair replaced by its number.
fn premise_numbered(
    alloc: Global,
    universe: &Universe<'_, '_>,
    premise: &NamedPremise,
) -> Result<Result<Premise, NamedPair>, AllocError>
    requires { length universe.now.pairs < 2 ^ 32 }
    ensures { IfOk result (λ answer. answer ≡ premise_numbered universe.now.pairs premise.now) }
{
    match premise {
        NamedPremise::Same(pair, other) => Ok(two_numbered(alloc, universe, pair, other)?.map(
            |two| Premise::Same(two.0, two.1),
        )),
        NamedPremise::PreDepends(pair, clause) => Ok(pair_numbered(alloc, universe, pair)?.map(
            |number| Premise::PreDepends(number, *clause),
        )),
        NamedPremise::Depends(pair, clause) => Ok(pair_numbered(alloc, universe, pair)?.map(
            |number| Premise::Depends(number, *clause),
        )),
        NamedPremise::Conflicts(pair, other) => Ok(two_numbered(alloc, universe, pair, other)?.map(
            |two| Premise::Conflicts(two.0, two.1),
        )),
        NamedPremise::Breaks(pair, other) => Ok(two_numbered(alloc, universe, pair, other)?.map(
            |two| Premise::Breaks(two.0, two.1),
        )),
        NamedPremise::Goal(goal) => Ok(Ok(Premise::Goal(*goal))),
        NamedPremise::GoalOn(goal, pair) => Ok(pair_numbered(alloc, universe, pair)?.map(
            |number| Premise::GoalOn(*goal, number),
        )),
        NamedPremise::Hold(pair) => {
            Ok(pair_numbered(alloc, universe, pair)?.map(|number| Premise::Hold(number)))
        }
        NamedPremise::Essential(name) => Ok(Ok(Premise::Essential(name.try_copy(alloc)?))),
        NamedPremise::Keep(name) => Ok(Ok(Premise::Keep(name.try_copy(alloc)?))),
    }
}

// The literal with its named pair replaced by its number.
fn literal_numbered(
    alloc: Global,
    universe: &Universe<'_, '_>,
    literal: &NamedLiteral,
) -> Result<Result<Literal, NamedPair>, AllocError>
    requires { length universe.now.pairs < 2 ^ 32 }
    ensures { IfOk result (λ answer. answer ≡ literal_numbered universe.now.pairs literal.now) }
{
    match literal {
        NamedLiteral::Selected(pair) => {
            Ok(pair_numbered(alloc, universe, pair)?.map(|number| Literal::Selected(number)))
        }
        NamedLiteral::Unselected(pair) => {
            Ok(pair_numbered(alloc, universe, pair)?.map(|number| Literal::Unselected(number)))
        }
    }
}

// The literals with their named pairs replaced by their numbers.
fn literals_numbered(
    alloc: Global,
    universe: &Universe<'_, '_>,
    literals: &[NamedLiteral],
) -> Result<Result<Items<Literal>, NamedPair>, AllocError>
    requires { length universe.now.pairs < 2 ^ 32 }
    ensures { IfOk result
        (λ answer. answer ≡ each_ok (literal_numbered universe.now.pairs) literals.now) }
{
    let mut numbered = Vec::new(alloc);
    for literal in literals {
        match literal_numbered(alloc, universe, literal)? {
            Err(missing) => return Ok(Err(missing)),
            Ok(answer) => numbered.push(answer)?,
        }
    }
    Ok(Ok(Items::new(numbered)))
}

// The line with each named pair replaced by its number.
fn line_numbered(
    alloc: Global,
    universe: &Universe<'_, '_>,
    line: &NamedLine,
) -> Result<Result<Line, NamedPair>, AllocError>
    requires { length universe.now.pairs < 2 ^ 32 }
    ensures { IfOk result (λ answer. answer ≡ line_numbered universe.now.pairs line.now) }
{
    match line {
        NamedLine::Premise(premise) => Ok(premise_numbered(alloc, universe, premise)?.map(
            |numbered| Line::Premise(numbered),
        )),
        NamedLine::Derived(literals, hints) => {
            match literals_numbered(alloc, universe, literals.as_slice())? {
                Err(missing) => Ok(Err(missing)),
                Ok(numbered) => {
                    let hints = Items::new(hints.as_slice().to_vec(alloc)?);
                    Ok(Ok(Line::Derived(numbered, hints)))
                }
            }
        }
    }
}

/// The lines of the refutation with each named pair replaced by its number in the universe, up to the first line that names a pair
/// which is none of its, and which that is. Memory alone can fail; a binary search among the pairs for each name.
#[tactic(auto, unfolding(crate::specs::Numbering::numbered_lines))]
pub fn number_pairs(
    alloc: Global,
    universe: &Universe<'_, '_>,
    refutation: &NamedRefutation,
) -> Result<NumberedLines, AllocError>
    // pairs have numbers of 32 bits, as those of a request have (`rules::PAIRS`)
    requires few { length universe.now.pairs < 2 ^ 32 }
    ensures { IfOk result
        (λ answer. answer ≡ numbered_lines universe.now.pairs refutation.now.lines) }
{
    let mut lines = Vec::new(alloc);
    for (place, line) in refutation.lines.as_slice().iter().enumerate() {
        match line_numbered(alloc, universe, line)? {
            Err(pair) => {
                return Ok(NumberedLines {
                    lines: Refutation::new(lines),
                    missing: Some(Missing {
                        line: place + 1,
                        pair,
                    }),
                });
            }
            Ok(answer) => lines.push(answer)?,
        }
    }
    Ok(NumberedLines {
        lines: Refutation::new(lines),
        missing: None,
    })
}
