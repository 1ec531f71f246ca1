// The admitted pairs and the candidates of all names, name by name.

ghost use Rattle.std.specs.Prelude.{◌≡◌, [], IfOk, if◌then◌else◌};
ghost use Rattle.std.specs.List.Sorted.{IsSorted, IsStrictlySortedBy};
ghost use Rattle.std.specs.Option.{option_copied};
ghost use Rattle.candidates.specs.Eligible.{offer_version_cmp};
ghost use Rattle.universe_build.specs.ByName.{AreAdmitted, AreAscending, AreGiven, AreNamed, AreOfName, Given, IsGiven, IsOfName, given_inputs};
ghost use Rattle.universe_build.specs.Choice.{candidates_at, exact_cmp};

use crate::asked::Exact;
use crate::pairs::pairs_of;
use candidates::{NameTable, OfName, Offer, candidate_of};
use pins::Prefs;
use std::alloc::{AllocError, Global};
use universe::{Candidate, Pair};

// These versions where all are asked for, and else none.
fn versions_if<'k, 'a>(asks_all_versions: bool, versions: &'k [Offer<'a>]) -> &'k [Offer<'a>]
    requires { IsStrictlySortedBy offer_version_cmp versions.now }
    ensures versions { result.now ≡ (if asks_all_versions then versions.now else []) }
    ensures ascending { IsStrictlySortedBy offer_version_cmp result.now }
{
    if asks_all_versions { versions } else { &[] }
}

// The candidate of the name, if it has one.
fn candidates_of<'a>(
    alloc: Global,
    name: &'a [u8],
    candidate: Option<&Offer<'a>>,
) -> Result<Vec<Candidate<'a>>, AllocError>
    ensures { IfOk result
        (λ candidates. candidates.items ≡ candidates_at name.now (option_copied candidate.entry)) }
{
    let mut candidates = Vec::new(alloc);
    if let Some(offer) = candidate {
        candidates.push(Candidate::new(name, offer.version().again()))?;
    }
    Ok(candidates)
}

// The admitted pairs and the candidate of one name.
fn of_name<'p, 'a>(
    alloc: Global,
    own: &OfName<'_, '_, 'p, 'a>,
    prefs: &Prefs,
    asked: &[Exact<'_>],
    asks_all_versions: bool,
) -> Result<(Vec<Pair<'p, 'a>>, Vec<Candidate<'a>>), AllocError>
    requires asked { IsSorted exact_cmp asked.now }
    requires own { IsOfName own.now }
    ensures ascending { IfOk result (λ parts. AreAscending parts.0.items parts.1.items) }
    ensures named { IfOk result (λ parts. AreNamed own.now.name parts.0.items parts.1.items) }
    ensures all { (given : Given) → IsGiven given own.now asked.now asks_all_versions
        → IfOk result
        (λ parts. AreOfName
        (given_inputs given prefs.now) own.now.name parts.0.items parts.1.items) }
{
    let offers = own.eligible(alloc, prefs)?;
    let candidate = candidate_of(offers.as_slice());
    let versions = versions_if(asks_all_versions, offers.as_slice());
    let pairs = pairs_of(alloc, own, candidate, versions, asked)?;
    let candidates = candidates_of(alloc, own.name(), candidate)?;
    Ok((pairs, candidates))
}

/// The admitted pairs and the candidates over these names, by these preferences, where the versions that are asked for are
/// given in order, for all versions or not. For each name what `OfName::eligible` costs. Memory alone can fail.
pub fn pairs_and_candidates<'p, 'a>(
    alloc: Global,
    names: &NameTable<'_, 'p, 'a>,
    prefs: &Prefs,
    asked: &[Exact<'_>],
    asks_all_versions: bool,
) -> Result<(Vec<Pair<'p, 'a>>, Vec<Candidate<'a>>), AllocError>
    requires { IsSorted exact_cmp asked.now }
    ensures ascending { IfOk result (λ parts. AreAscending parts.0.items parts.1.items) }
    ensures all { (given : Given) → AreGiven given names.now asked.now asks_all_versions
        → IfOk result
        (λ parts. AreAdmitted (given_inputs given prefs.now) parts.0.items parts.1.items) }
{
    let mut pairs = Vec::new(alloc);
    let mut candidates = Vec::new(alloc);
    let mut left = names.all();
    while let Some((own, rest)) = left.split_first() {
        let (mut own_pairs, mut own_candidates) = of_name(
            alloc,
            &own,
            prefs,
            asked,
            asks_all_versions,
        )?;
        pairs.append(&mut own_pairs)?;
        candidates.append(&mut own_candidates)?;
        left = rest;
    }
    Ok((pairs, candidates))
}
