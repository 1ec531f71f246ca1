// Some of the pairs of a universe, with its goals, its facts of the start and its candidates.

ghost use Rattle.std.specs.Prelude.{◌≡◌, IfOk, map};
ghost use Rattle.std.specs.List.{slice_get};
ghost use Rattle.std.specs.List.Sorted.{IsStrictlySortedBy};
ghost use Rattle.std.specs.Option.{option_copied};
ghost use Rattle.rules.specs.Universe.{candidate_of, pair_cmp, start_in};
ghost use Rattle.universe_parts.specs.Parts.{numbered, packages_of};

use debversion::Version;
use rules::Goal;
use std::alloc::{AllocError, Global};
use std::marker::Model;
use universe::{CountingPkg, Pair, Start, Universe};

/// Some pairs of a universe in their order, numbered from 1, each with its package, which is read once. The goals, the facts
/// of the start and the candidates are those of the universe. It borrows the universe.
#[derive(Drop)]
pub struct Part<'u, 'p, 'a> {
    universe: &'u Universe<'p, 'a>,
    pairs: Vec<&'u Pair<'p, 'a>>,
    packages: Vec<CountingPkg<'u, 'a>>,
}

impl<'u, 'p, 'a> Model for Part<'u, 'p, 'a> {
    ghost use Rattle.std.specs.Prelude.{◌≡◌, map};
    ghost use Rattle.std.specs.List.Sorted.{IsStrictlySortedBy};
    ghost use Rattle.rules.specs.Universe.{Universe as UniverseValue, pair_cmp};
    ghost use Rattle.universe_parts.specs.Parts.{packages_of};

    ghost Value = { UniverseValue };

    ghost view = { λ part. record {
      pairs = map (λ pair. pair.now) part.pairs.items;
      goals = part.universe.now.goals;
      starts = part.universe.now.starts;
      candidates = part.universe.now.candidates;
    } };

    ghost invariant = { λ part. IsStrictlySortedBy pair_cmp (map (λ pair. pair.now) part.pairs.items)
        × (part.packages.items ≡ packages_of (map (λ pair. pair.now) part.pairs.items)) };
}

// The pairs, lent, in their order.
fn lend_pairs<'u, 'p, 'a>(
    alloc: Global,
    pairs: &'u [Pair<'p, 'a>],
) -> Result<Vec<&'u Pair<'p, 'a>>, AllocError>
    ensures { IfOk result (λ lent. map (λ pair. pair.now) lent.items ≡ pairs.now) }
{
    let mut lent = Vec::new(alloc);
    for pair in pairs {
        lent.push(pair)?;
    }
    Ok(lent)
}

// The pair that is lent at a place.
fn lent_at<'u, 'p, 'a>(pairs: &[&'u Pair<'p, 'a>], place: usize) -> Option<&'u Pair<'p, 'a>>
    ensures { result ≡ slice_get pairs.now place }
{
    pairs.get(place).copied()
}

impl<'u, 'p, 'a> Part<'u, 'p, 'a> {
    // These pairs of the universe, which are in order, with their packages.
    pub(crate) fn new(
        universe: &'u Universe<'p, 'a>,
        pairs: Vec<&'u Pair<'p, 'a>>,
        packages: Vec<CountingPkg<'u, 'a>>,
    ) -> Part<'u, 'p, 'a>
        requires ascending { IsStrictlySortedBy pair_cmp (map (λ pair. pair.now) pairs.items) }
        requires packages { packages.items ≡ packages_of (map (λ pair. pair.now) pairs.items) }
        ensures { result ≡ record {
          pairs = map (λ pair. pair.now) pairs.entry.items;
          goals = universe.now.goals;
          starts = universe.now.starts;
          candidates = universe.now.candidates;
        } }
    {
        Part {
            universe,
            pairs,
            packages,
        }
    }

    /// All pairs of the universe. The relations of every pair that doesn't stand are read for it. Memory alone can fail.
    /// Linear in them.
    pub fn whole(
        alloc: Global,
        universe: &'u Universe<'p, 'a>,
    ) -> Result<Part<'u, 'p, 'a>, AllocError>
        ensures { IfOk result (λ part. part ≡ universe.now) }
    {
        let packages = universe.packages(alloc)?;
        let pairs = lend_pairs(alloc, universe.pairs())?;
        Ok(Part::new(universe, pairs, packages))
    }

    /// The pairs in order, by name and then by version: the pair at place 0 has the number 1.
    pub fn pairs(&self) -> &[&'u Pair<'p, 'a>]
        ensures items { map (λ pair. pair.now) result.now ≡ self.now.pairs }
        ensures ascending { IsStrictlySortedBy pair_cmp self.now.pairs }
    {
        self.pairs.as_slice()
    }

    /// The pair of this number, counted from 1.
    pub fn pair(&self, number: u32) -> Option<&'u Pair<'p, 'a>>
        ensures { option_copied result ≡ numbered number self.now.pairs }
    {
        let place = number.checked_sub(1)?;
        lent_at(self.pairs.as_slice(), place as usize)
    }

    /// The packages of the pairs, in their order: the one at place 0 is that of the pair with the number 1.
    /// `universe::lend_packages` lends them.
    pub fn packages(&self) -> &[CountingPkg<'u, 'a>]
        ensures { result.now ≡ packages_of self.now.pairs }
    {
        self.packages.as_slice()
    }

    /// The goals in order: the goal at place 0 has the number 1.
    pub fn goals(&self) -> &'u [Goal]
        ensures { result.now ≡ self.now.goals }
    {
        self.universe.goals()
    }

    /// The facts of the start, in the order of the status file.
    pub fn starts(&self) -> &'u [Start<'a>]
        ensures { result.now ≡ self.now.starts }
    {
        self.universe.starts()
    }

    /// What the start says of the name, if it knows it. Linear in the name alone.
    pub fn start(&self, name: &[u8]) -> Option<&'u Start<'a>>
        ensures { option_copied result ≡ start_in self.now name.now }
    {
        self.universe.start(name)
    }

    /// The candidate's version, if the name has one. A binary search among the candidates of the universe.
    pub fn candidate(&self, name: &[u8]) -> Option<&'u Version<'a>>
        ensures { option_copied result ≡ candidate_of self.now name.now }
    {
        self.universe.candidate(name)
    }
}
