//! The request, and the universe that it is answered from.
ghost use Rattle.std.specs.Prelude.{◌≡◌, ◌≢◌, IfErr, IfOk, IfSome, Ok, Some, map};
ghost use Rattle.std.specs.Option.{option_copied};
ghost use Rattle.candidates.specs.Inputs.{indices_of, inputs_of};
ghost use Rattle.rules.specs.Available.{all_listed};
ghost use Rattle.rules.specs.Database.{HasDistinctNames};
ghost use Rattle.rules.specs.FileRecord.{records_of};
ghost use Rattle.rules.specs.Names.{HasListedNames};
ghost use Rattle.universe_build.specs.Error.{IsBuilt, IsUniverseFault};
ghost use Rattle.universe_build.specs.Listing.{IsListing};
ghost use Rattle.universe_request.specs.Request as Read;
ghost use Rattle.inputs.specs.Meaning.{DenotesAsked, IsBuildFault, IsRequestFault, IsRequested};
ghost use Rattle.inputs.specs.ReadAs.{AreReadAs, IsListed, IsOver, asking, start_of};
ghost use Rattle.inputs.specs.ReadBy.{IsReadBy};
ghost use Rattle.inputs.specs.Reading.{IsFaultOf, OrMemory, with_fault};
ghost use Rattle.inputs.specs.Refused.{IsRefusal};
ghost use Rattle.inputs.specs.Texts.{Shelved, Texts, texts_of};
ghost use Rattle.inputs.specs.declared.refusal.Fault.TheVariants as fault;

use crate::before::Before;
use crate::refusal::{Fault, Input, Refusal, refused_at};
use crate::shelf::{Shelf, WholeText};
use crate::texts::read_part;
use index::Index;
use pins::Prefs;
use rules::universe_is_built;
use status_text::StatusRecord;
use std::alloc::{AllocError, Global};
use universe::Universe;
use universe_build::{Listing, UniverseError, build};
use universe_request::{Request, RequestError};

/// What a request is answered from, and how its answer is written.
#[derive(Drop)]
pub struct Requested<'p, 'a> {
    /// The universe.
    pub universe: Universe<'p, 'a>,
    /// Whether the request asks for all versions.
    pub asks_all_versions: bool,
}

// What the text of a request is read as.
fn request_in(alloc: Global, text: &[u8], arch: &[u8]) -> Result<Request, Fault>
    ensures ok { IfOk result
        (λ request. with_fault fault.Request (Read.read_request arch.now text.now) ≡ Ok request) }
    ensures err { IfErr result
        (λ f. IsFaultOf (with_fault fault.Request (Read.read_request arch.now text.now)) f) }
    ensures known { IfErr result (λ f. f ≢ fault.Read) }
{
    match Request::read(alloc, text, arch) {
        Ok(request) => Ok(request),
        Err(RequestError::Refused(refused)) => Err(Fault::Request(refused)),
        Err(RequestError::OutOfMemory) => Err(Fault::OutOfMemory),
    }
}

// The universe of the request: what is listed with its goals, where there is a listing that covers it, and else one of its own.
fn lent_or_built<'p, 'a>(
    alloc: Global,
    start: &[&StatusRecord<'a>],
    indices: &'p [Index<'a>],
    prefs: &Prefs,
    listing: Option<&Listing<'_, 'p, 'a>>,
    request: Request,
) -> Result<Universe<'p, 'a>, UniverseError>
    requires distinct { HasDistinctNames (records_of (map (λ r. r.now) start.now)) }
    requires listed { IfSome (option_copied listing)
        (IsListing (records_of (map (λ r. r.now) start.now)) (indices_of indices.now) prefs.now) }
    ensures ok { IfOk result (λ u.
        IsBuilt (records_of (map (λ r. r.now) start.now))
        (indices_of indices.now) prefs.now request.goals request.asks_all_versions u) }
    ensures err { IfErr result (λ e.
        IsUniverseFault (records_of (map (λ r. r.now) start.now))
        (indices_of indices.now) prefs.now request.goals request.asks_all_versions e) }
{
    let asks_all_versions = request.asks_all_versions();
    if let Some(listing) = listing {
        if listing.asks_all_versions() == asks_all_versions && listing.covers(request.as_slice()) {
            return listing.universe(alloc, request.into_vec());
        }
    }
    build(
        alloc,
        start,
        indices,
        prefs,
        request.into_vec(),
        asks_all_versions,
    )
}

// Builds the universe of the request.
fn build_universe<'p, 'a>(
    alloc: Global,
    start: &[&StatusRecord<'a>],
    indices: &'p [Index<'a>],
    prefs: &Prefs,
    listing: Option<&Listing<'_, 'p, 'a>>,
    request: Request,
) -> Result<Universe<'p, 'a>, Fault>
    requires distinct { HasDistinctNames (records_of (map (λ r. r.now) start.now)) }
    requires listed { IfSome (option_copied listing)
        (IsListing (records_of (map (λ r. r.now) start.now)) (indices_of indices.now) prefs.now) }
    ensures ok { IfOk result (λ u.
        IsBuilt (records_of (map (λ r. r.now) start.now))
        (indices_of indices.now) prefs.now request.goals request.asks_all_versions u) }
    ensures err { IfErr result (λ f. OrMemory
        (IsBuildFault (records_of (map (λ r. r.now) start.now))
        (indices_of indices.now) prefs.now request) f) }
    ensures known { IfErr result (λ f. f ≢ fault.Read) }
{
    match lent_or_built(alloc, start, indices, prefs, listing, request) {
        Ok(universe) => Ok(universe),
        Err(UniverseError::UnknownName(line)) => Err(Fault::UnknownName(line)),
        Err(UniverseError::TooLarge) => Err(Fault::TooLarge),
        Err(UniverseError::OutOfMemory) => Err(Fault::OutOfMemory),
    }
}

// The universe that the request with this text is answered from, over these records, whose names are distinct.
fn universe_in<'p, 'a>(
    alloc: Global,
    start: &[&StatusRecord<'a>],
    indices: &'p [Index<'a>],
    prefs: &Prefs,
    listing: Option<&Listing<'_, 'p, 'a>>,
    text: &[u8],
    arch: &[u8],
) -> Result<Requested<'p, 'a>, Fault>
    requires distinct { HasDistinctNames (records_of (map (λ r. r.now) start.now)) }
    requires listed { IfSome (option_copied listing)
        (IsListing (records_of (map (λ r. r.now) start.now)) (indices_of indices.now) prefs.now) }
    ensures ok { IfOk result (λ requested. (asked : Read.ReadRequest)
        × IsRequested arch.now (Some text.now) (records_of (map (λ r. r.now) start.now))
        (indices_of indices.now) prefs.now asked requested.universe
        × (requested.asks_all_versions ≡ asked.asks_all_versions)) }
    ensures err { IfErr result (λ f. OrMemory
        (IsRequestFault arch.now (Some text.now) (records_of (map (λ r. r.now) start.now))
        (indices_of indices.now) prefs.now) f) }
    ensures known { IfErr result (λ f. f ≢ fault.Read) }
{
    let request = request_in(alloc, text, arch)?;
    let asks_all_versions = request.asks_all_versions();
    let universe = build_universe(alloc, start, indices, prefs, listing, request)?;
    Ok(Requested {
        universe,
        asks_all_versions,
    })
}

// The packages of the indices have package names.
fn packages_are_named(indices: &[Index<'_>])
    ensures { HasListedNames (all_listed (indices_of indices.now)) }
{
    for index in indices {
        index.packages();
    }
}

/// What is listed of what is read before a request, for all versions or not: `requested_in` answers many requests by it. Memory alone
/// can fail. It costs what `Listing::new` does.
pub fn listed_in<'f, 'i, 'a>(
    alloc: Global,
    before: &Before<'_, '_, 'f, '_, '_, '_, 'i, 'a>,
    asks_all_versions: bool,
) -> Result<Listing<'f, 'i, 'a>, AllocError>
    ensures { IfOk result (IsListed before.now) }
{
    let records = before.status_file.records(alloc)?;
    Listing::new(
        alloc,
        records.as_slice(),
        before.indices,
        before.prefs,
        asks_all_versions,
    )
}

/// The universe that the request with this text is answered from, over what the texts before it are read as, and whether it asks for
/// all versions. Linear in the text, and at the cost of `Listing::universe` where there is a listing of what is read before that
/// covers the request, and else of `universe_build::build`.
pub fn requested_in<'i, 'a>(
    alloc: Global,
    before: &Before<'_, '_, '_, '_, '_, '_, 'i, 'a>,
    listing: Option<&Listing<'_, 'i, 'a>>,
    text: &[u8],
) -> Result<Requested<'i, 'a>, Refusal>
    requires listed { IfSome (option_copied listing) (IsListed before.now) }
    ensures asked { (texts : Texts) → AreReadAs texts before.now → IfOk result (λ requested.
        DenotesAsked (asking text.now texts) requested.universe
        (start_of before.now) requested.asks_all_versions) }
    ensures over { IfOk result (λ requested. IsOver before.now requested.universe) }
    ensures refused { (texts : Texts) → AreReadAs texts before.now
        → IfErr result (λ refused. IsRefusal (asking text.now texts) refused) }
    ensures known { IfErr result (λ refused. refused.fault ≢ fault.Read) }
{
    universe_is_built();
    packages_are_named(before.indices);
    let records = before.status_file.records(alloc)?;
    match universe_in(
        alloc,
        records.as_slice(),
        before.indices,
        before.prefs,
        listing,
        text,
        before.settings.arch,
    ) {
        Ok(requested) => Ok(requested),
        Err(fault) => Err(refused_at(Input::Request, fault)),
    }
}

/// The universe that the request of a shelf is answered from, over what the texts before it are read as, and whether it asks for all
/// versions. It is read as `requested_in` reads it.
pub fn read_requested<'i, 'a, S: Shelf>(
    alloc: Global,
    shelf: &mut S,
    before: &Before<'_, '_, '_, '_, '_, '_, 'i, 'a>,
) -> Result<Requested<'i, 'a>, Refusal>
    ensures asked { (at : Shelved) → S.known_texts shelf.old ≡ Some at
        → AreReadAs (texts_of before.now.settings.now at) before.now
        → IfOk result (λ requested.
        DenotesAsked (texts_of before.now.settings.now at) requested.universe
        (start_of before.now) requested.asks_all_versions) }
    ensures over { IfOk result (λ requested. IsOver before.now requested.universe) }
    ensures refused { (at : Shelved) → S.known_texts shelf.old ≡ Some at
        → AreReadAs (texts_of before.now.settings.now at) before.now
        → IfErr result (λ refused. IsRefusal (texts_of before.now.settings.now at) refused) }
    ensures read { IsReadBy S.Shelf shelf.old result shelf.new }
{
    let text = read_part(alloc, shelf, WholeText::Request, Input::Request)?;
    requested_in(alloc, before, None, text.as_slice())
}
