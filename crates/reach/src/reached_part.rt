// The part of a universe that a request can reach.

ghost use Rattle.std.specs.Prelude.{◌≡◌, ◌≤◌, ◌<◌, IfOk, Some, length, map};
ghost use Rattle.std.specs.List.{All, AllPairs, AllZip};
ghost use Rattle.std.specs.List.Sorted.{IsStrictlySortedBy};
ghost use Rattle.rules.specs.Universe.{pair_cmp};
ghost use Rattle.refutation.specs.Clause.{item_at};
ghost use Rattle.closed_part.specs.Part.{IsClosedPart, IsPart};
ghost use Rattle.universe_parts.specs.Parts.{packages_of};

use crate::closing::reached_in;
use crate::pairs_part::Part;
use std::alloc::{AllocError, Global};
use universe::{CountingPkg, Pair, Universe};

/// A part of a universe, and the numbers of its pairs in the universe, in their order.
#[derive(Drop)]
pub struct Reached<'u, 'p, 'a> {
    pub part: Part<'u, 'p, 'a>,
    pub numbers: Vec<u32>,
}

impl Reached<'_, '_, '_> {
    /// The number in the universe of the pair of this number in the part, both counted from 1.
    pub fn number_in(&self, number: u32) -> Option<u32>
        ensures { result ≡ item_at self.now.numbers.items number }
    {
        let place = number.checked_sub(1)?;
        self.numbers.get(place as usize).copied()
    }
}

// The pairs of these numbers, which ascend.
fn pairs_of<'u, 'p, 'a>(
    alloc: Global,
    universe: &'u Universe<'p, 'a>,
    numbers: &[u32],
) -> Result<Vec<&'u Pair<'p, 'a>>, AllocError>
    requires within { All
        (λ number. (1 ≤ number) × (number ≤ length universe.now.pairs)) numbers.now }
    requires ascending { AllPairs (λ earlier later. earlier < later) numbers.now }
    ensures numbered { IfOk result
        (λ pairs. AllZip (λ number pair. item_at universe.now.pairs number ≡ Some pair)
        numbers.now (map (λ pair. pair.now) pairs.items)) }
    ensures ascending { IfOk result
        (λ pairs. IsStrictlySortedBy pair_cmp (map (λ pair. pair.now) pairs.items)) }
{
    let all = universe.pairs();
    let mut pairs = Vec::new(alloc);
    for number in numbers {
        pairs.push(&all[*number as usize - 1])?;
    }
    Ok(pairs)
}

// The packages of these pairs, in their order.
fn packages_of<'u, 'p, 'a>(
    alloc: Global,
    pairs: &[&'u Pair<'p, 'a>],
) -> Result<Vec<CountingPkg<'u, 'a>>, AllocError>
    ensures { IfOk result
        (λ packages. packages.items ≡ packages_of (map (λ pair. pair.now) pairs.now)) }
{
    let mut packages = Vec::new(alloc);
    for pair in pairs {
        packages.push(CountingPkg::of_pair(alloc, *pair)?)?;
    }
    Ok(packages)
}

/// The part of the universe that its request can reach: the pairs of each name that was present or that an install or upgrade
/// goal names, and with a pair each that matches an atom of its Pre-Depends or Depends. More than 4,294,967,295 pairs are
/// answered as want of memory, which alone can fail. What matches is found by the providers of the universe; linear in the pairs and
/// in what the reached packages need.
pub fn reach<'u, 'p, 'a>(
    alloc: Global,
    universe: &'u Universe<'p, 'a>,
) -> Result<Reached<'u, 'p, 'a>, AllocError>
    ensures part { IfOk result (λ reached. IsPart universe.now reached.numbers.items reached.part) }
    ensures closed { IfOk result (λ reached. IsClosedPart universe.now reached.numbers.items) }
{
    let marks = reached_in(alloc, universe)?;
    let numbers = marks.numbers(alloc)?;
    let pairs = pairs_of(alloc, universe, numbers.as_slice())?;
    let packages = packages_of(alloc, pairs.as_slice())?;
    let part = Part::new(universe, pairs, packages);
    Ok(Reached { part, numbers })
}
