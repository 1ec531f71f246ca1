//! The range of the offers of one name whose versions meet a restriction, by binary searches that count.
ghost use Rattle.std.specs.Prelude.{◌≡◌, ◌+◌, ◌*◌, ◌^◌, ◌-◌, ◌<◌, ◌≤◌, ℕ, Some, is_some, length, not, true, false};
ghost use Rattle.std.specs.List.{AllWithin, filter};
ghost use Rattle.std.specs.List.Sorted.{IsPartitionPoint, IsPartitionedBy};
ghost use Rattle.std.specs.Option.{option_cmp};
ghost use Rattle.rules.specs.Version.{version_cmp};
ghost use Rattle.providers.specs.Matching.{meets};
ghost use Rattle.providers.specs.Range.{AreVersioned, IsCounted, IsRun, is_in_front, stands_in_front};

use crate::offer::Offer;
use crate::ticks::Ticks;
use debversion::{Op, Version};
use std::cmp::Ordering;

// Where offers are cut: before the offers of a version, or behind them.
#[derive(Clone, Copy)]
pub(crate) enum Cut {
    Before,
    Behind,
}

impl Cut {
    // Whether what compares so to the version stands in front of the cut.
    fn is_in_front(self, ordering: Ordering) -> bool
        ensures { result ≡ is_in_front self ordering }
    {
        match self {
            Cut::Before => ordering.is_lt(),
            Cut::Behind => ordering.is_le(),
        }
    }
}

// How the offer's version compares to this one. What has none is before it, with no comparison.
fn offered_cmp(offer: &Offer<'_>, version: &Version<'_>, ticks: &mut Ticks) -> Ordering
    ensures ordering { result ≡ option_cmp version_cmp offer.now.version (Some version.now) }
    ensures counted { ticks.new ≤ ticks.old + 1 }
    ensures no_fewer { ticks.old ≤ ticks.new }
    ensures compared { is_some offer.now.version ≡ true → IsCounted ticks.old ticks.new }
{
    match offer.version() {
        None => Ordering::Less,
        Some(offered) => offered.compare(version, ticks),
    }
}

// Whether the offer stands in front of the cut.
fn stands_in_front(offer: &Offer<'_>, cut: Cut, version: &Version<'_>, ticks: &mut Ticks) -> bool
    ensures front { result ≡ stands_in_front cut version.now offer.now }
    ensures counted { ticks.new ≤ ticks.old + 1 }
    ensures no_fewer { ticks.old ≤ ticks.new }
    ensures compared { is_some offer.now.version ≡ true → IsCounted ticks.old ticks.new }
{
    cut.is_in_front(offered_cmp(offer, version, ticks))
}

// The place of the cut, which is one from `start` up to `end`: each step leaves half of them.
fn cut_between(
    offers: &[Offer<'_>],
    start: usize,
    end: usize,
    cut: Cut,
    version: &Version<'_>,
    ticks: &mut Ticks,
) -> usize
    requires parted { IsPartitionedBy (stands_in_front cut version.now) offers.now }
    requires order { start ≤ end }
    requires within { end ≤ length offers.now }
    requires front { AllWithin
        (λ offer. stands_in_front cut version.now offer ≡ true) offers.now 0 start }
    requires back { AllWithin
        (λ offer. stands_in_front cut version.now offer ≡ false) offers.now end
        (length offers.now) }
    requires versioned { AreVersioned offers.now }
    ensures point { IsPartitionPoint (λ offer. stands_in_front cut version.now offer ≡ true)
        (λ offer. stands_in_front cut version.now offer ≡ false) offers.now result }
    ensures within { result ≤ length offers.now }
    ensures counted { (d : ℕ) → end - start < 2 ^ d → ticks.new ≤ ticks.old + d }
    ensures no_fewer { ticks.old ≤ ticks.new }
    ensures compared { start < end → IsCounted ticks.old ticks.new }
{
    if start >= end {
        return start;
    }
    let middle = start + (end - start) / 2;
    let offer = &offers[middle];
    if stands_in_front(offer, cut, version, ticks) {
        return cut_between(offers, middle + 1, end, cut, version, ticks);
    }
    cut_between(offers, start, middle, cut, version, ticks)
}

// The offers in front of the cut.
fn in_front<'k, 'a>(
    offers: &'k [Offer<'a>],
    cut: Cut,
    version: &Version<'_>,
    ticks: &mut Ticks,
) -> &'k [Offer<'a>]
    requires run { IsRun offers.now }
    requires versioned { AreVersioned offers.now }
    ensures front { result.now ≡ filter (stands_in_front cut version.now) offers.now }
    ensures counted { (d : ℕ) → length offers.now < 2 ^ d → ticks.new ≤ ticks.old + d }
    ensures no_fewer { ticks.old ≤ ticks.new }
    ensures compared { 0 < length offers.now → IsCounted ticks.old ticks.new }
{
    let end = cut_between(offers, 0, offers.len(), cut, version, ticks);
    offers.split_at(end).0
}

// The offers behind the cut.
fn behind<'k, 'a>(
    offers: &'k [Offer<'a>],
    cut: Cut,
    version: &Version<'_>,
    ticks: &mut Ticks,
) -> &'k [Offer<'a>]
    requires run { IsRun offers.now }
    requires versioned { AreVersioned offers.now }
    ensures back { result.now
        ≡ filter (λ offer. not (stands_in_front cut version.now offer)) offers.now }
    ensures counted { (d : ℕ) → length offers.now < 2 ^ d → ticks.new ≤ ticks.old + d }
    ensures no_fewer { ticks.old ≤ ticks.new }
    ensures compared { 0 < length offers.now → IsCounted ticks.old ticks.new }
{
    let start = cut_between(offers, 0, offers.len(), cut, version, ticks);
    offers.split_at(start).1
}

/// Those whose versions meet the restriction of this operator and version, by two binary searches at most.
pub(crate) fn range_of<'k, 'a>(
    offers: &'k [Offer<'a>],
    op: Op,
    version: &Version<'_>,
    ticks: &mut Ticks,
) -> &'k [Offer<'a>]
    requires run { IsRun offers.now }
    requires versioned { AreVersioned offers.now }
    ensures meeting { result.now
        ≡ filter (meets (Some (record { op = op; version = version.now }))) offers.now }
    ensures counted { (d : ℕ) → length offers.now < 2 ^ d → ticks.new ≤ ticks.old + 2 * d }
    ensures compared { 0 < length offers.now → IsCounted ticks.old ticks.new }
{
    match op {
        Op::StrictlyEarlier => in_front(offers, Cut::Before, version, ticks),
        Op::EarlierOrEqual => in_front(offers, Cut::Behind, version, ticks),
        Op::ExactlyEqual => {
            let early = in_front(offers, Cut::Behind, version, ticks);
            behind(early, Cut::Before, version, ticks)
        }
        Op::LaterOrEqual => behind(offers, Cut::Before, version, ticks),
        Op::StrictlyLater => behind(offers, Cut::Behind, version, ticks),
    }
}
