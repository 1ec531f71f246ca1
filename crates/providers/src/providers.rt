//! Who has or provides a name, and who matches an atom.
ghost use Rattle.std.specs.Prelude.{◌≡◌, ◌↔◌, ◌++◌, ◌+◌, ◌*◌, ◌^◌, ◌<◌, ◌≤◌, ℕ, Contains, IfOk, length, map};
ghost use Rattle.std.specs.List.Sorted.{IsStrictlyIncreasing};
ghost use Rattle.index.specs.Providers.{IsProviderAt, providers_of};
ghost use Rattle.universe_parts.specs.Parts.{packages_of};
ghost use Rattle.providers.specs.Matching.{HasToCompare, IsMatchAt};
ghost use Rattle.providers.specs.Offers.{AreOrdered, item_offers_of, own_offers_of, versioned_of};
ghost use Rattle.providers.specs.Range.{IsCounted};

use crate::offer::Offer;
use crate::places::{meeting, ordered_places};
use crate::seen::SeenPkg;
use crate::spans::{run_at, spans_of};
use crate::ticks::Ticks;
use crate::unsorted::UnsortedOffers;
use indexmap::IndexMap;
use relation::{Atom, Pkg};
use std::alloc::{AllocError, Global};
use std::marker::Model;
use std::snapshot::Snapshot;
use universe_parts::Pairs;

/// Packages, of which contracts alone know, and what they offer: in order, with a table of where the offers of each name
/// stand. It borrows their texts.
#[derive(Drop)]
pub struct Providers<'a> {
    packages: Vec<Snapshot<SeenPkg<'a>>>,
    offers: Vec<Offer<'a>>,
    spans: IndexMap<&'a [u8], (usize, usize)>,
}

impl<'a> Model for Providers<'a> {
    ghost use Rattle.std.specs.Prelude.{List, map};
    ghost use Rattle.rules.specs.Package.{Pkg as PkgValue};
    ghost use Rattle.providers.specs.Offers.{AreOrdered, offers_of};
    ghost use Rattle.providers.specs.Spans.{IsTable};

    ghost Value = { List PkgValue };

    ghost view = { λ p. map (λ seen. seen.value) p.packages.items };

    ghost invariant = { λ p. AreOrdered (offers_of (map (λ seen. seen.value) p.packages.items)) p.offers.items
        × IsTable p.offers.items p.spans.entries };
}

// The packages of the list, and what they offer.
fn unsorted_of<'a>(alloc: Global, packages: &[&Pkg<'a>]) -> Result<UnsortedOffers<'a>, AllocError>
    ensures packages { IfOk result (λ unsorted. unsorted.0 ≡ map (λ pkg. pkg.now) packages.now) }
    ensures own { IfOk result (λ unsorted. unsorted.1 ≡ own_offers_of unsorted.0) }
    ensures items { IfOk result (λ unsorted. unsorted.2 ≡ item_offers_of unsorted.0) }
{
    let mut unsorted = UnsortedOffers::new(alloc);
    for pkg in packages {
        unsorted.push(pkg)?;
    }
    Ok(unsorted)
}

// The packages of the pairs, and what they offer. The items that are read for it are let go before the next ones.
fn unsorted_of_pairs<'a>(
    alloc: Global,
    pairs: &Pairs<'_, 'a>,
) -> Result<UnsortedOffers<'a>, AllocError>
    ensures packages { IfOk result (λ unsorted. unsorted.0 ≡ packages_of pairs.now) }
    ensures own { IfOk result (λ unsorted. unsorted.1 ≡ own_offers_of unsorted.0) }
    ensures items { IfOk result (λ unsorted. unsorted.2 ≡ item_offers_of unsorted.0) }
{
    let mut unsorted = UnsortedOffers::new(alloc);
    for pair in pairs.as_slice() {
        unsorted.push_pair(alloc, pair)?;
    }
    Ok(unsorted)
}

// The offers in order, and none twice.
fn in_order<'a>(own: Vec<Offer<'a>>, items: Vec<Offer<'a>>) -> Result<Vec<Offer<'a>>, AllocError>
    ensures { IfOk result
        (λ ordered. AreOrdered (own.entry.items ++ items.entry.items) ordered.items) }
{
    let mut ordered = own;
    let mut further = items;
    ordered.append(&mut further)?;
    // Own names mostly are in order already: the sort finds that, and merges the items in.
    ordered.sort()?;
    // A package may provide a name twice in one version, or without.
    ordered.dedup();
    Ok(ordered)
}

impl<'a> Providers<'a> {
    // The table of these offers, which aren't sorted yet.
    fn of_unsorted(alloc: Global, unsorted: UnsortedOffers<'a>) -> Result<Providers<'a>, AllocError>
        requires own { unsorted.1 ≡ own_offers_of unsorted.0 }
        requires items { unsorted.2 ≡ item_offers_of unsorted.0 }
        ensures { IfOk result (λ providers. providers ≡ unsorted.entry.0) }
    {
        let UnsortedOffers {
            packages,
            own,
            items,
        } = unsorted;
        let offers = in_order(own, items)?;
        let spans = spans_of(alloc, offers.as_slice())?;
        Ok(Providers {
            packages,
            offers,
            spans,
        })
    }

    /// The packages of this list, which may be let go then. Memory alone can fail. About n log n comparisons of the n names
    /// that they have and provide.
    pub fn of_packages(alloc: Global, packages: &[&Pkg<'a>]) -> Result<Providers<'a>, AllocError>
        ensures { IfOk result (λ providers. providers ≡ map (λ pkg. pkg.now) packages.now) }
    {
        Providers::of_unsorted(alloc, unsorted_of(alloc, packages)?)
    }

    /// The packages of the pairs, in their order: the one at place 0 is that of the first pair. Of one that doesn't stand,
    /// Provides alone is read. Memory alone can fail. It costs what `of_packages` does, and that.
    pub fn of_pairs(alloc: Global, pairs: &Pairs<'_, 'a>) -> Result<Providers<'a>, AllocError>
        ensures { IfOk result (λ providers. providers ≡ packages_of pairs.now) }
    {
        Providers::of_unsorted(alloc, unsorted_of_pairs(alloc, pairs)?)
    }

    /// The positions in the list, counted from 0 and ascending, of the packages that match the name without a restriction:
    /// by their own name, or by an item of Provides that isn't foreign, whatever its version (Policy 7.5). Memory alone can
    /// fail. Linear in the name, and n log n in the n offers of it.
    pub fn of(&self, alloc: Global, name: &[u8]) -> Result<Vec<usize>, AllocError>
        ensures exact { IfOk result (λ places. places.items ≡ providers_of name.now self.now) }
        ensures matching { IfOk result
            (λ places. (place : ℕ) → Contains places.items place
            ↔ IsProviderAt name.now self.now place) }
        ensures ascending { IfOk result (λ places. IsStrictlyIncreasing places.items) }
    {
        ordered_places(alloc, run_at(self.offers.as_slice(), &self.spans, name))
    }

    /// The positions in the list, counted from 0 and ascending, of the packages that match the atom: by their own name and
    /// version, or by an item of Provides that isn't foreign (Policy 7.1, 7.5). Memory alone can fail. The versions that
    /// are compared are counted.
    pub fn matching(
        &self,
        alloc: Global,
        atom: &Atom<'_>,
        ticks: &mut Ticks,
    ) -> Result<Vec<usize>, AllocError>
        ensures matching { IfOk result
            (λ places. (place : ℕ) → Contains places.items place
            ↔ IsMatchAt self.now atom.now place) }
        ensures ascending { IfOk result (λ places. IsStrictlyIncreasing places.items) }
        ensures counted { (d : ℕ) → length (versioned_of atom.now.name self.now) < 2 ^ d → ticks.new
            ≤ ticks.old + 2 * d }
        ensures compared { HasToCompare atom.now self.now → IsCounted ticks.old ticks.new }
    {
        if atom.is_foreign() {
            return Ok(Vec::new(alloc));
        }
        let run = run_at(self.offers.as_slice(), &self.spans, atom.name());
        ordered_places(alloc, meeting(run, atom, ticks))
    }
}
