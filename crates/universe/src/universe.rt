// What a plan and a refutation are judged by.

ghost use Rattle.std.specs.Prelude.{◌≡◌, IfOk};
ghost use Rattle.std.specs.List.Sorted.{IsStrictlySortedBy};
ghost use Rattle.std.specs.Option.{option_copied};
ghost use Rattle.rules.specs.Universe.{candidate_cmp, candidate_of, listed_of, pair_cmp, start_in};
ghost use Rattle.universe_parts.specs.Parts.{number_among, numbered, numbered_stanza, packages_of};
ghost use Rattle.universe.specs.Admitted.{asked_of};

use crate::admitted::Admitted;
use debversion::Version;
use index::IndexEntry;
use providers::Providers;
use rules::Goal;
use std::alloc::{AllocError, Global};
use std::marker::Model;
use std::rc::Rc;
use universe_parts::{Candidate, CountingPkg, Pair, Start, packages_of};

/// The admitted pairs and the goals of a request, both numbered from 1, with the facts of the start and the
/// candidates. It borrows the indices whose stanzas the pairs are of. All but the goals may be shared with other universes.
#[derive(Drop)]
pub struct Universe<'p, 'a> {
    admitted: Rc<Admitted<'p, 'a>>,
    goals: Vec<Goal>,
}

impl<'p, 'a> Model for Universe<'p, 'a> {
    ghost use Rattle.rules.specs.Universe.{Universe as UniverseValue};
    ghost use Rattle.universe.specs.Admitted.{asked_of};

    ghost Value = { UniverseValue };

    ghost view = { λ u. asked_of u.admitted.value u.goals.items };
}

impl<'p, 'a> Universe<'p, 'a> {
    /// The universe of these goals over what is admitted.
    pub fn new(admitted: Rc<Admitted<'p, 'a>>, goals: Vec<Goal>) -> Universe<'p, 'a>
        ensures { result ≡ asked_of admitted.entry.value goals.items }
    {
        Universe { admitted, goals }
    }

    // What is admitted.
    fn parts(&self) -> &Admitted<'p, 'a>
        ensures { asked_of result.now self.now.goals ≡ self.now }
    {
        self.admitted.as_ref()
    }

    /// The admitted pairs in order, by name and then by version: the pair at place 0 has the number 1.
    pub fn pairs(&self) -> &[Pair<'p, 'a>]
        ensures items { result.now ≡ self.now.pairs }
        ensures ascending { IsStrictlySortedBy pair_cmp self.now.pairs }
    {
        self.parts().pairs().as_slice()
    }

    /// The goals in order: the goal at place 0 has the number 1.
    pub fn goals(&self) -> &[Goal]
        ensures { result.now ≡ self.now.goals }
    {
        self.goals.as_slice()
    }

    /// The facts of the start, in the order of the status file.
    pub fn starts(&self) -> &[Start<'a>]
        ensures { result.now ≡ self.now.starts }
    {
        self.parts().starts().as_slice()
    }

    /// The candidates in the order of their names, one for each name that has one.
    pub fn candidates(&self) -> &[Candidate<'a>]
        ensures items { result.now ≡ self.now.candidates }
        ensures ascending { IsStrictlySortedBy candidate_cmp self.now.candidates }
    {
        self.parts().candidates().as_slice()
    }

    /// The pair of this number, counted from 1.
    pub fn pair(&self, number: u32) -> Option<&Pair<'p, 'a>>
        ensures { option_copied result ≡ numbered number self.now.pairs }
    {
        let place = number.checked_sub(1)?;
        self.pairs().get(place as usize)
    }

    /// The stanza in the indices of the pair of this number, counted from 1, if the pair is in an index.
    pub fn stanza(&self, number: u32) -> Option<&'p IndexEntry<'a>>
        ensures { option_copied result ≡ numbered_stanza number self.now.pairs }
    {
        match self.pair(number) {
            None => None,
            Some(pair) => pair.index_entry(),
        }
    }

    /// The packages of the pairs, in their order, each read once: the one at place 0 is that of the pair with the number 1.
    /// `lend_packages` lends them to `providers::Providers`. The relations of every pair that doesn't stand are read for it.
    /// Memory alone can fail. Linear in them.
    pub fn packages(&self, alloc: Global) -> Result<Vec<CountingPkg<'_, 'a>>, AllocError>
        ensures { IfOk result (λ packages. packages.items ≡ packages_of self.now.pairs) }
    {
        packages_of(alloc, self.pairs())
    }

    /// Who has or provides each name among the packages of the pairs: the one at place 0 is that of the pair with the number 1.
    pub fn providers(&self) -> &Providers<'a>
        ensures { result.now ≡ packages_of self.now.pairs }
    {
        self.parts().providers()
    }

    /// The number of the pair of this version of the name, counted from 1, if it is admitted. A binary search among the
    /// pairs.
    pub fn number_of(&self, name: &[u8], version: &Version<'_>) -> Option<usize>
        ensures { result ≡ number_among self.now.pairs name.now version.now }
    {
        self.parts().pairs().number_of(name, version)
    }

    /// What the start says of the name, if it knows it. Linear in the name alone.
    pub fn start(&self, name: &[u8]) -> Option<&Start<'a>>
        ensures { option_copied result ≡ start_in self.now name.now }
    {
        self.parts().starts().of(name)
    }

    /// The stanza of this version of the name, if the pair is admitted and in an index. A binary search among the
    /// pairs.
    pub fn listed_of(&self, name: &[u8], version: &Version<'_>) -> Option<&'p IndexEntry<'a>>
        ensures { option_copied result ≡ listed_of self.now name.now version.now }
    {
        self.parts().pairs().listed_of(name, version)
    }

    /// The candidate's version, if the name has one. A binary search among the candidates.
    pub fn candidate(&self, name: &[u8]) -> Option<&Version<'a>>
        ensures { option_copied result ≡ candidate_of self.now name.now }
    {
        match self.parts().candidates().of(name) {
            None => None,
            Some(candidate) => Some(candidate.version()),
        }
    }
}
