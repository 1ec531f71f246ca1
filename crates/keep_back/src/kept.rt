// What is left of a request once no more is left out, and nothing can be put back. Nothing is told here.

ghost use Rattle.std.specs.Prelude.{◌≡◌, ◌≢◌, ◌<◌, ◌^◌, IfErr, IfOk, None, Some, length};
ghost use Rattle.inputs.specs.ReadAs.{AreReadAs, IsListed, IsOver};
ghost use Rattle.inputs.specs.ReadBy.{IsUntouched};
ghost use Rattle.inputs.specs.Texts.{Texts};
ghost use Rattle.inputs.specs.declared.refusal.Fault.TheVariants as fault;
ghost use Rattle.keep_back.specs.Back.{IsRestKept};
ghost use Rattle.keep_back.specs.Further.{IsFurther, IsFurtherRefusal, IsLeftOutFor, IsRefusedWith, IsRestRefusal, IsStep, request_of};
ghost use Rattle.keep_back.specs.KeptBack.{IsKeptRefusal, IsLeft};
ghost use Rattle.keep_back.specs.Round.{IsRequestedBy, IsSolvedRequest};
ghost use Rattle.universe_parts.specs.Parts.{HaveDistinctNames};

use crate::back::put_back;
use crate::least_wanted::to_leave_out;
use crate::left::Left;
use crate::note::push_counts;
use crate::round::{SolvedRequest, solved_in};
use inputs::{Before, Progress, Refusal, Requested, Shelf, listed_in, requested_in};
use request_lines::{Wish, wishes_of};
use rules::Items;
use solver::Solved;
use std::alloc::{AllocError, Global};
use universe_build::Listing;

/// What is left of a request, and what is answered to it.
#[derive(Drop)]
pub(crate) struct Kept<'i, 'a> {
    /// What it asks for, and what is answered.
    pub(crate) solved: SolvedRequest<'i, 'a>,
    /// Its text.
    pub(crate) request: Vec<u8>,
    /// Of each line of the request whether it stays, unless all of it is answered as it stands.
    pub(crate) stays: Option<Items<bool>>,
    /// Why the others don't.
    pub(crate) reasons: Vec<u8>,
}

/// Solves what is left. It is refused as `inputs::requested_in` refuses it, which is for its size alone.
pub(crate) fn solved_of<'i, 'a>(
    alloc: Global,
    before: &Before<'_, '_, '_, '_, '_, '_, 'i, 'a>,
    listing: &Listing<'_, 'i, 'a>,
    left: &Left,
    limit: u32,
) -> Result<SolvedRequest<'i, 'a>, Refusal>
    requires listed { IsListed before.now listing.now }
    ensures solved { IfOk result (IsSolvedRequest before.now limit (request_of left.now)) }
    ensures refused { (texts : Texts) → AreReadAs texts before.now
        → IfErr result (IsRefusedWith texts (request_of left.now)) }
    ensures known { IfErr result (λ refused. refused.fault ≢ fault.Read) }
{
    let text = left.request(alloc)?;
    let requested = requested_in(alloc, before, Some(listing), text.as_slice())?;
    let solved = solved_in(alloc, before, requested, limit)?;
    Ok(solved)
}

// Leaves out goals of the request where its answer is a refutation that tells of some: whether it did.
fn leave_out(
    alloc: Global,
    solved: &SolvedRequest<'_, '_>,
    left: &mut Left,
) -> Result<bool, AllocError>
    requires few { length solved.now.requested.universe.pairs < 2 ^ 32 }
    requires distinct { HaveDistinctNames solved.now.requested.universe.starts }
    requires long { length left.old.stays.items ≡ length left.old.wishes.items }
    ensures { IfOk result (IsLeftOutFor solved.now.solved left.old left.new) }
{
    match &solved.solved {
        Solved::Plan(_) | Solved::Undecided(_) => Ok(false),
        Solved::Refuted(refutation) => {
            let places = to_leave_out(
                alloc,
                &solved.requested.universe,
                refutation,
                left.wishes.as_slice(),
                left.stays.as_slice(),
            )?;
            Ok(left.leave_out_each(places.as_slice()))
        }
    }
}

// The answer to what is left, or without one it is refuted and goals of it are left out.
fn step<'i, 'a>(
    alloc: Global,
    before: &Before<'_, '_, '_, '_, '_, '_, 'i, 'a>,
    listing: &Listing<'_, 'i, 'a>,
    left: &mut Left,
    limit: u32,
) -> Result<Option<SolvedRequest<'i, 'a>>, Refusal>
    requires listed { IsListed before.now listing.now }
    requires long { length left.old.stays.items ≡ length left.old.wishes.items }
    ensures left { IfOk result (IsStep before.now limit left.old left.new) }
    ensures refused { (texts : Texts) → AreReadAs texts before.now
        → IfErr result (IsRefusedWith texts (request_of left.old)) }
    ensures known { IfErr result (λ refused. refused.fault ≢ fault.Read) }
{
    let solved = solved_of(alloc, before, listing, left, limit)?;
    if leave_out(alloc, &solved, left)? {
        return Ok(None);
    }
    Ok(Some(solved))
}

/// Shows the shelf how many of the goals are left out.
pub(crate) fn show_left<S: Shelf>(shelf: &mut S, left: &Left)
    ensures { IsUntouched S.Shelf shelf.old shelf.new }
{
    shelf.show(Progress::Goals {
        left_out: left.count_out(),
        all: left.goals,
    });
}

// The answer to what is left once no more is left out. There are no more steps than wishes. The shelf is shown how far it is before each.
fn rounds<'i, 'a, S: Shelf>(
    alloc: Global,
    shelf: &mut S,
    before: &Before<'_, '_, '_, '_, '_, '_, 'i, 'a>,
    listing: &Listing<'_, 'i, 'a>,
    left: &mut Left,
    limit: u32,
) -> Result<SolvedRequest<'i, 'a>, Refusal>
    requires listed { IsListed before.now listing.now }
    requires long { length left.old.stays.items ≡ length left.old.wishes.items }
    ensures left { IfOk result (λ _. IsFurther before.now left.old left.new) }
    ensures solved { IfOk result (IsSolvedRequest before.now limit (request_of left.new)) }
    ensures refused { (texts : Texts) → AreReadAs texts before.now
        → IfErr result (IsFurtherRefusal before.now texts left.old) }
    ensures known { IfErr result (λ refused. refused.fault ≢ fault.Read) }
    ensures untouched { IsUntouched S.Shelf shelf.old shelf.new }
{
    for _ in 0..left.wishes.len() {
        show_left(shelf, left);
        if let Some(solved) = step(alloc, before, listing, left, limit)? {
            return Ok(solved);
        }
    }
    solved_of(alloc, before, listing, left, limit)
}

// The whole request with this text.
fn whole<'i, 'a>(alloc: Global, text: Vec<u8>, solved: SolvedRequest<'i, 'a>) -> Kept<'i, 'a>
    ensures solved { result.solved ≡ solved.entry }
    ensures request { result.request ≡ text }
    ensures stays { result.stays ≡ None }
{
    Kept {
        solved,
        request: text,
        stays: None,
        reasons: Vec::new(alloc),
    }
}

// What is left, with these notes on the rest.
fn rest<'i, 'a>(
    alloc: Global,
    left: Left,
    solved: SolvedRequest<'i, 'a>,
    notes: Vec<u8>,
) -> Result<Kept<'i, 'a>, AllocError>
    ensures solved { IfOk result (λ kept. kept.solved ≡ solved.entry) }
    ensures request { IfOk result (λ kept. kept.request.items ≡ request_of left) }
    ensures stays { IfOk result (λ kept. kept.stays ≡ Some left.stays.items) }
{
    let request = left.request(alloc)?;
    let mut reasons = notes;
    let count = left.goals.saturating_sub(left.count_out());
    push_counts(&mut reasons, count, left.goals)?;
    Ok(Kept {
        solved,
        request,
        stays: Some(Items::new(left.stays)),
        reasons,
    })
}

// Leaves goals out until the rest is answered, and puts back what can be. All that is left is answered over one listing.
fn keep_rest<'i, 'a, S: Shelf>(
    alloc: Global,
    shelf: &mut S,
    before: &Before<'_, '_, '_, '_, '_, '_, 'i, 'a>,
    asks_all_versions: bool,
    wishes: Vec<Wish>,
    limit: u32,
) -> Result<Kept<'i, 'a>, Refusal>
    ensures left { IfOk result (IsRestKept before.now limit wishes.items) }
    ensures solved { IfOk result
        (λ kept. IsSolvedRequest before.now limit kept.request.items kept.solved) }
    ensures refused { (texts : Texts) → AreReadAs texts before.now
        → IfErr result (IsRestRefusal before.now texts wishes.items) }
    ensures known { IfErr result (λ refused. refused.fault ≢ fault.Read) }
    ensures untouched { IsUntouched S.Shelf shelf.old shelf.new }
{
    let mut left = Left::new(alloc, wishes)?;
    let listing = listed_in(alloc, before, asks_all_versions)?;
    let mut solved = rounds(alloc, shelf, before, &listing, &mut left, limit)?;
    let notes = put_back(
        alloc,
        shelf,
        before,
        &listing,
        &mut left,
        &mut solved,
        limit,
    )?;
    let kept = rest(alloc, left, solved, notes)?;
    Ok(kept)
}

/// As much of the request with this text as can be: the whole request where it isn't refuted or no goal of it is to be left out, and else
/// what is left. It is refused as `inputs::requested_in` refuses what is left, which is for its size alone. The shelf is shown how far
/// it is.
pub(crate) fn kept_of<'i, 'a, S: Shelf>(
    alloc: Global,
    shelf: &mut S,
    before: &Before<'_, '_, '_, '_, '_, '_, 'i, 'a>,
    requested: Requested<'i, 'a>,
    text: Vec<u8>,
    limit: u32,
) -> Result<Kept<'i, 'a>, Refusal>
    requires over { IsOver before.now requested.universe }
    requires asked { IsRequestedBy before.now text.items requested }
    ensures left { (texts : Texts) → AreReadAs texts before.now → texts.request ≡ Some text.items
        → IfOk result (λ kept. IsLeft texts limit kept.stays kept.request.items) }
    ensures solved { IfOk result
        (λ kept. IsSolvedRequest before.now limit kept.request.items kept.solved) }
    ensures refused { (texts : Texts) → AreReadAs texts before.now → texts.request ≡ Some text.items
        → IfErr result (IsKeptRefusal texts) }
    ensures known { IfErr result (λ refused. refused.fault ≢ fault.Read) }
    ensures untouched { IsUntouched S.Shelf shelf.old shelf.new }
{
    let asks_all_versions = requested.asks_all_versions;
    let wishes = wishes_of(
        alloc,
        &requested.universe,
        text.as_slice(),
        before.settings.arch,
    )?;
    let solved = solved_in(alloc, before, requested, limit)?;
    let mut left = Left::new(alloc, wishes)?;
    if !leave_out(alloc, &solved, &mut left)? {
        return Ok(whole(alloc, text, solved));
    }
    keep_rest(alloc, shelf, before, asks_all_versions, left.wishes, limit)
}
