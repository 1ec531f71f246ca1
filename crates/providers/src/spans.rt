//! Where the offers of each name stand among offers in order.
ghost use Rattle.std.specs.Prelude.{◌≡◌, ◌<◌, ◌≤◌, IfOk, drop, length, take};
ghost use Rattle.std.specs.List.{filter, prefix_len};
ghost use Rattle.std.specs.List.Sorted.{IsStrictlySortedBy};
ghost use Rattle.providers.specs.Offers.{is_offer_of, offer_cmp};
ghost use Rattle.providers.specs.Spans.{IsTable, IsTableUpTo};

use crate::offer::Offer;
use indexmap::IndexMap;
use std::alloc::{AllocError, Global};

// How many at the front are of the name of this one.
fn run_len(first: &Offer<'_>, offers: &[Offer<'_>]) -> usize
    ensures value { result ≡ prefix_len (is_offer_of first.now.name) offers.now }
    ensures within { result ≤ length offers.now }
{
    offers
        .iter()
        .take_while(|offer| offer.is_named_as(first))
        .count()
}

// Enters the name of the offer at `start`, whose others follow it, and answers the place behind them.
fn enter<'a>(
    spans: &mut IndexMap<&'a [u8], (usize, usize)>,
    offers: &[Offer<'a>],
    start: usize,
) -> Result<usize, AllocError>
    requires sorted { IsStrictlySortedBy offer_cmp offers.now }
    requires left { start < length offers.now }
    requires before { IsTableUpTo offers.now start spans.old.entries }
    ensures further { IfOk result (λ end. start < end) }
    ensures before { IfOk result (λ end. IsTableUpTo offers.now end spans.new.entries) }
{
    let first = &offers[start];
    let end = start + run_len(first, offers.split_at(start).1);
    spans.insert(first.name(), (start, end))?;
    Ok(end)
}

/// The table of the offers' names, by one walk over the offers. Memory alone can fail.
pub(crate) fn spans_of<'a>(
    alloc: Global,
    offers: &[Offer<'a>],
) -> Result<IndexMap<&'a [u8], (usize, usize)>, AllocError>
    requires { IsStrictlySortedBy offer_cmp offers.now }
    ensures { IfOk result (λ spans. IsTable offers.now spans.entries) }
{
    // There are no more names than offers.
    let mut spans = IndexMap::with_capacity(alloc, offers.len())?;
    let mut start = 0;
    while start < offers.len() {
        start = enter(&mut spans, offers, start)?;
    }
    Ok(spans)
}

// Those from the first place up to the second.
fn between<'k, 'a>(offers: &'k [Offer<'a>], start: usize, end: usize) -> &'k [Offer<'a>]
    requires before { start ≤ end }
    requires within { end ≤ length offers.now }
    ensures { result.now ≡ drop start (take end offers.now) }
{
    let (front, _) = offers.split_at(end);
    let (_, run) = front.split_at(start);
    run
}

/// The offers of the name, which the table finds. Linear in the name.
pub(crate) fn run_at<'k, 'a>(
    offers: &'k [Offer<'a>],
    spans: &IndexMap<&'a [u8], (usize, usize)>,
    name: &[u8],
) -> &'k [Offer<'a>]
    requires { IsTable offers.now spans.now.entries }
    ensures { result.now ≡ filter (is_offer_of name.now) offers.now }
{
    match spans.get(name).copied() {
        None => &[],
        Some((start, end)) => between(offers, start, end),
    }
}
