//! The places of what packages offer.
ghost use Rattle.std.specs.Prelude.{◌≡◌, ◌↔◌, ◌+◌, ◌*◌, ◌^◌, ◌<◌, ◌≤◌, ℕ, Contains, IfOk, IsSome, is_some, length, map};
ghost use Rattle.std.specs.List.{filter};
ghost use Rattle.std.specs.List.Sorted.{IsStrictlyIncreasing};
ghost use Rattle.providers.specs.Matching.{meets};
ghost use Rattle.providers.specs.Range.{IsCounted, IsRun};

use crate::offer::Offer;
use crate::range::range_of;
use crate::run::versioned_offers;
use crate::ticks::Ticks;
use relation::Atom;
use std::alloc::{AllocError, Global};

/// The offers of one name that meet the atom's restriction, if there is one. None without a version does.
pub(crate) fn meeting<'k, 'a>(
    run: &'k [Offer<'a>],
    atom: &Atom<'_>,
    ticks: &mut Ticks,
) -> &'k [Offer<'a>]
    requires { IsRun run.now }
    ensures meeting { result.now ≡ filter (meets atom.now.restriction) run.now }
    ensures counted { (d : ℕ) → length (filter (λ offer. is_some offer.version) run.now) < 2 ^ d
        → ticks.new ≤ ticks.old + 2 * d }
    ensures compared { IsSome atom.now.restriction → 0
        < length (filter (λ offer. is_some offer.version) run.now) → IsCounted ticks.old ticks.new }
{
    let with_versions = versioned_offers(run);
    match atom.restriction() {
        None => run,
        Some((op, version)) => range_of(with_versions, op, version, ticks),
    }
}

// The places of the offers, in their order.
fn places_of(alloc: Global, offers: &[Offer<'_>]) -> Result<Vec<usize>, AllocError>
    ensures { IfOk result (λ places. places.items ≡ map (λ offer. offer.place) offers.now) }
{
    let mut places = Vec::new(alloc);
    for offer in offers {
        places.push(offer.place())?;
    }
    Ok(places)
}

// The places in order, and none twice.
fn in_order(places: Vec<usize>) -> Result<Vec<usize>, AllocError>
    ensures same { IfOk result
        (λ ordered. (place : ℕ) → Contains ordered.items place ↔ Contains places.items place) }
    ensures ascending { IfOk result (λ ordered. IsStrictlyIncreasing ordered.items) }
{
    let mut ordered = places;
    ordered.sort()?;
    // A package may provide a name more than once.
    ordered.dedup();
    Ok(ordered)
}

/// The places of the offers in order, and none twice.
pub(crate) fn ordered_places(alloc: Global, offers: &[Offer<'_>]) -> Result<Vec<usize>, AllocError>
    ensures same { IfOk result
        (λ ordered. (place : ℕ) → Contains ordered.items place
        ↔ Contains (map (λ offer. offer.place) offers.now) place) }
    ensures ascending { IfOk result (λ ordered. IsStrictlyIncreasing ordered.items) }
{
    in_order(places_of(alloc, offers)?)
}
