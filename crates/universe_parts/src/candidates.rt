// The candidates of names.

ghost use Rattle.std.specs.Prelude.{◌≡◌, bytes_eq};
ghost use Rattle.std.specs.List.{find};
ghost use Rattle.std.specs.List.Sorted.{IsStrictlySortedBy};
ghost use Rattle.std.specs.Option.{option_copied};
ghost use Rattle.rules.specs.Name.{name_cmp};
ghost use Rattle.rules.specs.Universe.{candidate_cmp};

use crate::candidate::Candidate;
use rules::name_cmp;
use std::cmp::Ordering;
use std::marker::Model;

/// The candidates of names: they ascend by name, and no name is there twice.
#[derive(Drop)]
pub struct Candidates<'a> {
    candidates: Vec<Candidate<'a>>,
}

impl<'a> Model for Candidates<'a> {
    ghost use Rattle.std.specs.Prelude.{List};
    ghost use Rattle.std.specs.List.Sorted.{IsStrictlySortedBy};
    ghost use Rattle.rules.specs.Universe.{Candidate as CandidateValue};
    ghost use Rattle.rules.specs.Universe.{candidate_cmp};

    ghost Value = { List CandidateValue };

    ghost view = { λ c. c.candidates.items };

    ghost invariant = { λ c. IsStrictlySortedBy candidate_cmp c.candidates.items };
}

// How the name of the candidate compares with a name.
fn order_to(candidate: &Candidate<'_>, name: &[u8]) -> Ordering
    ensures { result ≡ name_cmp candidate.now.name name.now }
{
    name_cmp(candidate.name(), name)
}

// The candidate of the name, by a binary search.
fn candidate_among<'k, 'a>(
    candidates: &'k [Candidate<'a>],
    name: &[u8],
) -> Option<&'k Candidate<'a>>
    requires { IsStrictlySortedBy candidate_cmp candidates.now }
    ensures { option_copied result
        ≡ find (λ candidate. bytes_eq candidate.name name.now) candidates.now }
{
    match candidates.binary_search_by(|candidate| order_to(candidate, name)) {
        Ok(place) => candidates.get(place),
        Err(_) => None,
    }
}

impl<'a> Candidates<'a> {
    /// The candidates of this list, which is in order.
    pub fn new(candidates: Vec<Candidate<'a>>) -> Candidates<'a>
        requires { IsStrictlySortedBy candidate_cmp candidates.items }
        ensures { result ≡ candidates.entry.items }
    {
        Candidates { candidates }
    }

    /// The candidates in order.
    pub fn as_slice(&self) -> &[Candidate<'a>]
        ensures items { result.now ≡ self.now }
        ensures ascending { IsStrictlySortedBy candidate_cmp self.now }
    {
        self.candidates.as_slice()
    }

    /// The candidate of the name, if it has one. A binary search.
    pub fn of(&self, name: &[u8]) -> Option<&Candidate<'a>>
        ensures { option_copied result
            ≡ find (λ candidate. bytes_eq candidate.name name.now) self.now }
    {
        candidate_among(self.candidates.as_slice(), name)
    }
}
